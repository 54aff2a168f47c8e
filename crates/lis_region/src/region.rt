ghost use Rattle.std.specs.Prelude.{◌≡◌, ℕ, ◌+◌, ◌*◌, ◌^◌, ◌<◌, ◌≤◌, ◌↔◌, length, replicate, IfOk, IfSome, IfNone, IsNone, OnSome, Some, None, vec_len};

use std::alloc::{AllocError, Global};
use std::marker::Model;

/// A frame that is taken from a region, by its number there. It stays taken if this value is dropped and not given back.
#[derive(Debug, Drop)]
pub struct Frame {
    pub(crate) number: u32,
}

impl Model for Frame {
    ghost Value = { ℕ };

    ghost view = { λ frame. frame.number };
}

/// Frames of equal width, all of whose memory is allocated by `new`.
#[derive(Drop)]
pub struct Region<T: Copy> {
    width: u32,
    fill: T,
    slots: Vec<Slot<T>>,
    // Each number of a frame once. The free frames are the first `free` of them.
    order: Vec<u32>,
    free: u32,
}

// A frame's memory. The items of a free frame may be anything.
#[derive(Drop)]
struct Slot<T> {
    is_taken: bool,
    items: Vec<T>,
}

impl<T: Copy> Model for Region<T> {
    ghost use Rattle.lis_region.specs.Region.{Region as Frames, region_code};

    ghost Value = { Frames T };

    ghost coded = { region_code T.code };

    ghost use Rattle.lis_region.specs.Inside.{frames_of, IsSoundRegion};

    ghost view = { λ r. record { width = r.width; fill = r.fill; frames = frames_of r.slots.items } };

    ghost invariant = { λ r. IsSoundRegion r.slots.items r.order.items r.free r.width };
}

impl<T: Copy> Region<T> {
    ghost use Rattle.lis_region.specs.Region.{empty_region, get, HasFrame, free_frames, with_frame};
    ghost use Rattle.lis_region.specs.Lends.{lends_frame};
    ghost use Rattle.std.specs.Borrow.{sem};

    /// A region of `frames` frames of `width` items each, none of them taken. All memory that the region will use is allocated here.
    pub fn new(alloc: Global, frames: u32, width: u32, fill: T) -> Result<Region<T>, AllocError>
        requires { frames * width ≤ 2 ^ 28 }
        ensures { IfOk result (λ region. region ≡ empty_region frames width fill) }
    {
        let mut slots = Vec::with_capacity(alloc, frames as usize)?;
        let mut order = Vec::with_capacity(alloc, frames as usize)?;
        for number in 0..frames {
            slots.push(Slot::new(alloc, width, fill)?)?;
            order.push(number)?;
        }
        Ok(Region {
            width,
            fill,
            slots,
            order,
            free: frames,
        })
    }

    /// How many frames are free.
    pub fn free(&self) -> u32
        ensures { result ≡ free_frames self.now }
    {
        self.free
    }

    /// The items of a frame, as many as the region's width.
    pub fn items(&self, frame: &Frame) -> &[T]
        requires { HasFrame self.now frame.now }
        ensures value { get self.now frame.now ≡ Some result.now }
        ensures width { length result.now ≡ self.now.width }
    {
        let slot = &self.slots[frame.number as usize];
        slot.items.as_slice()
    }

    /// The items of a frame, for writing. Every other frame stays.
    pub fn items_mut(&mut self, frame: &Frame) -> &mut [T]
        requires { HasFrame self.old frame.now }
        ensures* writes_back { sem 𝓛 (lends_frame T.row self.entry frame.now result) }
        ensures value { get self.old frame.now ≡ Some result.now }
        ensures width { length result.now ≡ self.old.width }
    {
        let slot = &mut self.slots[frame.number as usize];
        slot.items.as_mut_slice()
    }

    /// Takes a free frame, and sets each of its items to the region's fill.
    pub fn take(&mut self) -> Option<Frame>
        ensures none { IsNone result ↔ (free_frames self.old ≡ 0) }
        ensures stays { IfNone result (self.new ≡ self.old) }
        ensures new_number { IfSome result (λ frame. frame < length self.old.frames) }
        ensures was_free { IfSome result (λ frame. get self.old frame ≡ None) }
        ensures taken { IfSome result (λ frame. self.new
            ≡ with_frame self.old frame (Some (replicate self.old.width self.old.fill))) }
        ensures fewer { OnSome result (free_frames self.new + 1 ≡ free_frames self.old) }
    {
        if self.free == 0 {
            return None;
        }
        self.free -= 1;
        let number = self.order[self.free as usize];
        let fill = self.fill;
        let slot = &mut self.slots[number as usize];
        slot.take(fill);
        Some(Frame { number })
    }

    /// Gives a frame back, to be taken again.
    pub fn give(&mut self, frame: Frame)
        requires { HasFrame self.old frame }
        ensures given { self.new ≡ with_frame self.old frame None }
        ensures more { free_frames self.new ≡ free_frames self.old + 1 }
    {
        let number = frame.number;
        self.slots[number as usize].is_taken = false;
        self.order[self.free as usize] = number;
        self.free += 1;
    }
}

impl<T: Copy> Slot<T> {
    ghost use Rattle.lis_region.specs.Inside.{slot_items};

    fn new(alloc: Global, width: u32, fill: T) -> Result<Slot<T>, AllocError>
        ensures free { IfOk result (λ slot. slot_items slot ≡ None) }
        ensures width { IfOk result (λ slot. vec_len slot.items ≡ width) }
    {
        let items = vec![in alloc; fill; width as usize]?;
        Ok(Slot {
            is_taken: false,
            items,
        })
    }

    fn take(&mut self, fill: T)
        ensures items { slot_items self.new ≡ Some (replicate (vec_len self.old.items) fill) }
        ensures width { vec_len self.new.items ≡ vec_len self.old.items }
    {
        for item in self.items.iter_mut() {
            *item = fill;
        }
        self.is_taken = true;
    }
}
