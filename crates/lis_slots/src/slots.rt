//! Slots of equal width in consecutive blocks.

ghost use Rattle.std.specs.Prelude.{◌≡◌, ◌⊎◌, ◌+◌, ◌*◌, ◌%◌, ◌<◌, ◌≤◌, ℕ, List, false, length, IsTrue, OnOk};
ghost use Rattle.lis_ports.specs.Bytes.{put};
ghost use Rattle.lis_ports.specs.Calls.{ReadsDisk};
ghost use Rattle.lis_journal.specs.Images.{Fits, is_among, JournalIsUsable};
ghost use Rattle.lis_journal.specs.Phases.{looked};
ghost use Rattle.lis_journal.specs.Staging.{has_entry};
ghost use Rattle.lis_journal.specs.Record.{homes_start};

use lis_journal::Journal;
use lis_limits::BLOCK_LEN;
use lis_ports::{Disk, Failed};
use std::marker::Model;

/// Slots of equal width in consecutive blocks, as many in each block as it has room for.
#[derive(Clone, Copy)]
pub struct Slots {
    first: u32,
    count: u32,
    width: u32,
}

impl Model for Slots {
    ghost use Rattle.std.specs.Prelude.{◌≡◌, ◌<◌, ◌%◌};
    ghost use Rattle.lis_slots.specs.Slots as slots;

    ghost Value = { slots.Slots };

    ghost view = { λ s. record { first = s.first; count = s.count; width = s.width } };

    ghost inverse = { λ s. record { first = s.first; count = s.count; width = s.width } };

    ghost use Rattle.lis_limits.specs.declared.TheConstants.{BLOCK_LEN};

    ghost invariant = { λ s. (0 < s.width) × (BLOCK_LEN % s.width ≡ 0) };
}

// Writes the bytes over those of the block from index `at` on.
fn overwrite(block: &mut [u8], at: usize, bytes: &[u8])
    requires { at + length bytes.now ≤ length block.old }
    ensures { block.new ≡ put block.old at bytes.now }
{
    block[at..at + bytes.len()].copy_from_slice(bytes);
}

impl Slots {
    ghost use Rattle.lis_slots.specs.Slots.{per_block, home, place, slot, PutEnded};

    /// `count` slots of `width` bytes, from block `first` on. No slot crosses the end of a block.
    pub fn new(first: u32, count: u32, width: u32) -> Slots
        requires width { 0 < width }
        requires divides { BLOCK_LEN % width ≡ 0 }
        ensures { result ≡ record { first = first; count = count; width = width } }
    {
        Slots {
            first,
            count,
            width,
        }
    }

    /// How many slots there are.
    pub fn count(&self) -> u32
        ensures { result ≡ self.now.count }
    {
        self.count
    }

    // How many slots a block has.
    fn per_block(&self) -> u32
        ensures per_block { result ≡ per_block self.now }
        ensures some { 0 < result }
        ensures all { result * self.now.width ≡ BLOCK_LEN }
    {
        BLOCK_LEN as u32 / self.width
    }

    // The block of slot k, in an image of `blocks` blocks.
    fn home(&self, blocks: u32, k: u32) -> u32
        requires { home self.now k < blocks }
        ensures { result ≡ home self.now k }
    {
        self.first + k / self.per_block()
    }

    // Where in its block slot k begins.
    fn place(&self, k: u32) -> usize
        ensures place { result ≡ place self.now k }
        ensures within { result + self.now.width ≤ BLOCK_LEN }
        ensures all { per_block self.now * self.now.width ≡ BLOCK_LEN }
    {
        (self.width * (k % self.per_block())) as usize
    }

    /// Reads a slot, as it is staged or otherwise kept.
    pub fn get<D: Disk>(
        &self,
        journal: &Journal,
        disk: &mut D,
        k: u32,
        buf: &mut [u8],
    ) -> Result<(), Failed>
        requires k { k < self.now.count }
        requires whole { length buf.old ≡ self.now.width }
        requires home { homes_start journal.now.layout ≤ self.now.first }
        requires within { home self.now k < journal.now.layout.blocks }
        requires usable { JournalIsUsable journal.now (D.meaning disk.old) }
        ensures read { OnOk result ((kept : ℕ → List ℕ) → Fits journal.now (D.meaning disk.old) kept
            → buf.new ≡ slot self.now (looked journal.now.staged kept) k) }
        ensures disk { ReadsDisk (D.meaning disk.old) (D.meaning disk.new) result }
        ensures fits { (kept : ℕ → List ℕ) → Fits journal.now (D.meaning disk.old) kept
            → Fits journal.now (D.meaning disk.new) kept }
    {
        let mut block = [0; BLOCK_LEN];
        journal.read(disk, self.home(journal.blocks(), k), &mut block)?;
        let at = self.place(k);
        buf.copy_from_slice(&block[at..at + buf.len()]);
        Ok(())
    }

    /// Stages the block of a slot, with these bytes in the slot.
    pub fn put<D: Disk>(
        &self,
        journal: &mut Journal,
        disk: &mut D,
        k: u32,
        bytes: &[u8],
    ) -> Result<(), Failed>
        requires k { k < self.now.count }
        requires whole { length bytes.now ≡ self.now.width }
        requires home { homes_start journal.old.layout ≤ self.now.first }
        requires within { home self.now k < journal.old.layout.blocks }
        requires usable { JournalIsUsable journal.old (D.meaning disk.old) }
        requires unplaced { is_among journal.old.placed (home self.now k) ≡ false }
        requires room { IsTrue (has_entry journal.old.staged (home self.now k)) ⊎ (length journal.old.staged < journal.old.capacity.staged) }
        ensures ended { PutEnded self.now k bytes.now journal.old journal.new (D.meaning disk.old) result }
        ensures disk { ReadsDisk (D.meaning disk.old) (D.meaning disk.new) result }
        ensures fits { (kept : ℕ → List ℕ) → Fits journal.old (D.meaning disk.old) kept
            → Fits journal.old (D.meaning disk.new) kept }
    {
        let mut block = [0; BLOCK_LEN];
        let home = self.home(journal.blocks(), k);
        journal.read(disk, home, &mut block)?;
        overwrite(&mut block, self.place(k), bytes);
        journal.stage(home, &block);
        Ok(())
    }
}
