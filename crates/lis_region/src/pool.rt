ghost use Rattle.std.specs.Prelude.{◌≡◌, ℕ, ◌+◌, ◌*◌, ◌^◌, ◌<◌, ◌≤◌, ◌↔◌, length, replicate, IfOk, IfSome, IfNone, IsNone, OnSome, Some, None};

use crate::region::Frame;
use std::alloc::{AllocError, Global};
use std::marker::Model;

/// Frames of equal width, all of whose memory is reserved by `new`. A frame's memory is not touched before the frame is first taken, so a
/// large pool costs only what is used of it. For a few frames, or to lend a frame's items for writing, use a `Region`.
#[derive(Drop)]
pub struct Pool<T: Copy> {
    width: u32,
    fill: T,
    frames: u32,
    // The items of the frames that were made, frame by frame. A frame is made when it is first taken. Each of these vectors has
    // room for all frames.
    items: Vec<T>,
    // For each frame that was made, whether it is taken.
    taken: Vec<bool>,
    // The frames that were given back. Their items may be anything.
    given: Vec<u32>,
}

impl<T: Copy> Model for Pool<T> {
    ghost use Rattle.std.specs.Prelude.{vec_capacity};
    ghost use Rattle.lis_region.specs.Region.{Region as Frames, region_code};

    ghost Value = { Frames T };

    ghost coded = { region_code T.code };

    ghost use Rattle.lis_region.specs.Made.{frames_of, IsSoundPool, HasRoom};

    ghost view = { λ p. record { width = p.width; fill = p.fill; frames = frames_of p.width p.frames p.taken.items p.items.items } };

    ghost invariant = { λ p. IsSoundPool p.width p.frames p.items.items p.taken.items p.given.items
        × HasRoom p.width p.frames (vec_capacity p.items) (vec_capacity p.taken) (vec_capacity p.given) };
}

// Where the items of a frame begin.
fn start_of(number: u32, width: u32) -> usize
    ensures place { result ≡ number * width }
    ensures few { result + width < 2 ^ 64 }
{
    number as usize * width as usize
}

// Sets each item.
fn set_all<T: Copy>(items: &mut [T], fill: T)
    ensures { items.new ≡ replicate (length items.old) fill }
{
    for item in items.iter_mut() {
        *item = fill;
    }
}

impl<T: Copy> Pool<T> {
    ghost use Rattle.lis_region.specs.Region.{empty_region, get, HasFrame, free_frames, with_frame};

    /// A pool of `frames` frames of `width` items each, none of them taken. All memory that the pool will use is reserved here.
    pub fn new(alloc: Global, frames: u32, width: u32, fill: T) -> Result<Pool<T>, AllocError>
        requires { frames * width ≤ 2 ^ 28 }
        ensures { IfOk result (λ pool. pool ≡ empty_region frames width fill) }
    {
        Ok(Pool {
            width,
            fill,
            frames,
            items: Vec::with_capacity(alloc, frames as usize * width as usize)?,
            taken: Vec::with_capacity(alloc, frames as usize)?,
            given: Vec::with_capacity(alloc, frames as usize)?,
        })
    }

    /// How many frames are free.
    pub fn free(&self) -> u32
        ensures { result ≡ free_frames self.now }
    {
        self.frames - self.taken.len() as u32 + self.given.len() as u32
    }

    /// The items of a frame, as many as the pool's width.
    pub fn items(&self, frame: &Frame) -> &[T]
        requires { HasFrame self.now frame.now }
        ensures value { get self.now frame.now ≡ Some result.now }
        ensures width { length result.now ≡ self.now.width }
    {
        let start = start_of(frame.number, self.width);
        &self.items[start..start + self.width as usize]
    }

    /// Writes the items of a frame. Every other frame stays.
    pub fn write(&mut self, frame: &Frame, items: &[T])
        requires taken { HasFrame self.old frame.now }
        requires whole { length items.now ≡ self.old.width }
        ensures { self.new ≡ with_frame self.old frame.now (Some items.now) }
    {
        let start = start_of(frame.number, self.width);
        self.items
            .slice_mut(start..start + self.width as usize)
            .copy_from_slice(items);
    }

    /// Takes a free frame, and sets each of its items to the pool's fill.
    pub fn take(&mut self) -> Option<Frame>
        ensures none { IsNone result ↔ (free_frames self.old ≡ 0) }
        ensures stays { IfNone result (self.new ≡ self.old) }
        ensures new_number { IfSome result (λ frame. frame < length self.old.frames) }
        ensures was_free { IfSome result (λ frame. get self.old frame ≡ None) }
        ensures taken { IfSome result (λ frame. self.new
            ≡ with_frame self.old frame (Some (replicate self.old.width self.old.fill))) }
        ensures fewer { OnSome result (free_frames self.new + 1 ≡ free_frames self.old) }
    {
        if let Some(number) = self.given.pop() {
            let start = start_of(number, self.width);
            set_all(
                self.items.slice_mut(start..start + self.width as usize),
                self.fill,
            );
            self.taken[number as usize] = true;
            return Some(Frame { number });
        }
        let number = self.taken.len() as u32;
        if number == self.frames {
            return None;
        }
        let len = self.items.len() + self.width as usize;
        let Ok(()) = self.items.resize(len, self.fill) else {
            unreachable!()
        };
        let Ok(()) = self.taken.push(true) else {
            unreachable!()
        };
        Some(Frame { number })
    }

    /// Gives a frame back, to be taken again.
    pub fn give(&mut self, frame: Frame)
        requires { HasFrame self.old frame }
        ensures given { self.new ≡ with_frame self.old frame None }
        ensures more { free_frames self.new ≡ free_frames self.old + 1 }
    {
        let number = frame.number;
        self.taken[number as usize] = false;
        let Ok(()) = self.given.push(number) else {
            unreachable!()
        };
    }
}
