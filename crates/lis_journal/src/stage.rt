//! Staged blocks, each in a frame, in the order of their homes.

ghost use Rattle.std.specs.Prelude.{if◌then◌else◌, false, [], ◌≡◌, ◌⊎◌, ◌+◌, ◌^◌, ◌<◌, ◌≤◌, ◌==◌, ℕ, List, Option, Some, length, take, IsTrue, IfOk, IfSome, IfNone, OnSome, MatchResult, true, slice_index_or, vec_capacity};
ghost use Rattle.lis_journal.specs.Record.{rises};
ghost use Rattle.lis_journal.specs.Inside.{home_list, FoundAt, PlaceFor};

use crate::layout::Layout;
use lis_limits::BLOCK_LEN;
use lis_region::{Frame, Pool};
use std::alloc::{AllocError, Global};
use std::marker::Model;

// A block, and the frame with its content.
#[derive(Drop)]
pub struct Staged {
    home: u32,
    frame: Frame,
}

/// A finite map from home blocks to contents, for an image of this layout. It has at most `capacity` contents.
#[derive(Drop)]
pub struct Stage {
    layout: Layout,
    capacity: u32,
    pool: Pool<u8>,
    staged: Vec<Staged>,
}

impl Model for Stage {
    ghost use Rattle.std.specs.Prelude.{vec_capacity};
    ghost use Rattle.lis_journal.specs.Staging.{Staging};

    ghost Value = { Staging };

    ghost use Rattle.lis_journal.specs.Inside.{staging_of, IsStage};

    ghost view = { λ s. staging_of s.pool s.staged.items s.layout s.capacity };

    ghost invariant = { λ s. IsStage s.pool s.staged.items (vec_capacity s.staged) s.layout s.capacity };
}

// The index of a block if it is staged, and otherwise the index that it would have.
fn find(staged: &[Staged], n: u32) -> Result<usize, usize>
    requires { (blocks : ℕ) × ((last : ℕ) × IsTrue (rises blocks last (home_list staged.now))) }
    ensures bound { MatchResult result (λ k. k < length staged.now) (λ k. k ≤ length staged.now) }
    ensures place { MatchResult result (λ k. FoundAt n k staged.now) (λ k. PlaceFor n k staged.now) }
{
    let mut low = 0;
    let mut high = staged.len();
    while low < high {
        let middle = low + (high - low) / 2;
        if staged[middle].home < n {
            low = middle + 1;
        } else {
            high = middle;
        }
    }
    if low < staged.len() && staged[low].home == n {
        Ok(low)
    } else {
        Err(low)
    }
}

impl Stage {
    ghost use Rattle.lis_journal.specs.Record.{HomeBlock, homes_start};
    ghost use Rattle.lis_journal.specs.Images.{look};
    ghost use Rattle.lis_journal.specs.Staging.{with_entry, has_entry, IsStaging};

    /// Nothing staged. All memory that the stage will use is reserved here, and touched when a block is staged.
    pub fn new(alloc: Global, layout: Layout, capacity: u32) -> Result<Self, AllocError>
        requires { capacity ≤ 2 ^ 16 }
        ensures { IfOk result (λ s. s ≡ record { layout = layout; capacity = capacity; entries = [] }) }
    {
        Ok(Stage {
            layout,
            capacity,
            pool: Pool::new(alloc, capacity, BLOCK_LEN as u32, 0)?,
            staged: Vec::with_capacity(alloc, capacity as usize)?,
        })
    }

    /// The layout of the image.
    pub fn layout(&self) -> Layout
        ensures { result ≡ self.now.layout }
    {
        self.layout
    }

    /// How many blocks can be staged.
    pub fn capacity(&self) -> u32
        ensures { result ≡ self.now.capacity }
    {
        self.capacity
    }

    pub fn len(&self) -> usize
        ensures len { result ≡ length self.now.entries }
        ensures staging { IsStaging self.now }
    {
        self.staged.len()
    }

    /// The home of the k-th block.
    pub fn home(&self, k: usize) -> u32
        requires { k < length self.now.entries }
        ensures { (d : HomeBlock) → result ≡ (slice_index_or self.now.entries k d).home }
    {
        self.staged[k].home
    }

    /// The content of the k-th block.
    pub fn bytes(&self, k: usize) -> &[u8]
        requires { k < length self.now.entries }
        ensures bytes { (d : HomeBlock) → result.now ≡ (slice_index_or self.now.entries k d).bytes }
        ensures whole { length result.now ≡ BLOCK_LEN }
    {
        self.pool.items(&self.staged[k].frame)
    }

    /// The content of a block, if it is staged.
    pub fn get(&self, n: u32) -> Option<&[u8]>
        ensures none { IfNone result (has_entry self.now.entries n ≡ false) }
        ensures has { OnSome result (has_entry self.now.entries n ≡ true) }
        ensures some { IfSome result (λ bytes. (old : List ℕ) → look self.now.entries n old ≡ bytes.now) }
        ensures whole { IfSome result (λ bytes. length bytes.now ≡ BLOCK_LEN) }
    {
        match find(&self.staged, n) {
            Ok(place) => Some(self.bytes(place)),
            Err(_) => None,
        }
    }

    /// Whether a block is staged.
    pub fn has(&self, n: u32) -> bool
        ensures { result ≡ has_entry self.now.entries n }
    {
        self.get(n).is_some()
    }

    /// Stages a block, instead of what is staged for it.
    pub fn put(&mut self, n: u32, bytes: &[u8])
        requires home { homes_start self.old.layout ≤ n }
        requires within { n < self.old.layout.blocks }
        requires whole { length bytes.now ≡ BLOCK_LEN }
        requires room { IsTrue (has_entry self.old.entries n) ⊎ (length self.old.entries < self.old.capacity) }
        ensures put { self.new ≡ record self.old { entries = with_entry self.old.entries n bytes.now } }
        ensures looks { (m : ℕ) (old : List ℕ) → look self.new.entries m old
            ≡ (if m == n then bytes.now else look self.old.entries m old) }
    {
        match find(&self.staged, n) {
            Ok(place) => self.pool.write(&self.staged[place].frame, bytes),
            Err(place) => {
                let Some(frame) = self.pool.take() else {
                    unreachable!()
                };
                self.pool.write(&frame, bytes);
                let Ok(()) = self.staged.insert(place, Staged { home: n, frame }) else {
                    unreachable!()
                };
            }
        }
    }

    /// Drops all that is staged.
    pub fn clear(&mut self)
        ensures { self.new ≡ record self.old { entries = [] } }
    {
        while let Some(last) = self.staged.pop() {
            self.pool.give(last.frame);
        }
    }
}
