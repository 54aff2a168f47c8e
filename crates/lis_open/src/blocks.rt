//! Slots of an image, each block read once.

ghost use Rattle.std.specs.Prelude.{◌≡◌, ◌+◌, ◌/◌, ◌%◌, ◌^◌, ◌<◌, ◌≤◌, ℕ, List, [], None, Some, length, OnOk};
ghost use Rattle.lis_ports.specs.Calls.{ReadsDisk};
ghost use Rattle.lis_journal.specs.Images.{Fits, JournalIsUsable};
ghost use Rattle.lis_slots.specs.Slots.{slot};
ghost use Rattle.lis_open.specs.Reading.{Recalls};
ghost use Rattle.lis_journal.specs.Record.{homes_start};

use lis_journal::Journal;
use lis_limits::BLOCK_LEN;
use lis_ports::{Disk, Failed};

/// The block of a journal that was read last.
#[derive(Drop)]
pub struct LastBlock {
    // `None` if no block was read.
    number: Option<u32>,
    bytes: [u8; BLOCK_LEN],
}

impl LastBlock {
    /// No block yet.
    pub fn new() -> LastBlock
        ensures { result.number ≡ None }
    {
        LastBlock {
            number: None,
            bytes: [0; BLOCK_LEN],
        }
    }

    // Reads a block, unless it was read last.
    fn turn_to<D: Disk>(&mut self, disk: &mut D, journal: &Journal, n: u32) -> Result<(), Failed>
        requires home { homes_start journal.now.layout ≤ n }
        requires within { n < journal.now.layout.blocks }
        requires clean { journal.now.staged ≡ [] }
        requires usable { JournalIsUsable journal.now (D.meaning disk.old) }
        ensures disk { ReadsDisk (D.meaning disk.old) (D.meaning disk.new) result }
        ensures number { OnOk result (self.new.number ≡ Some n) }
        ensures recalls { (kept : ℕ → List ℕ) → Fits journal.now (D.meaning disk.old) kept
            → Recalls self.old kept → Recalls self.new kept }
    {
        if self.number == Some(n) {
            return Ok(());
        }
        self.number = None;
        journal.read(disk, n, &mut self.bytes)?;
        self.number = Some(n);
        Ok(())
    }

    /// Reads slot k. The slots begin at a block, and are as wide as the buffer.
    pub fn read_slot<D: Disk>(
        &mut self,
        disk: &mut D,
        journal: &Journal,
        first: u32,
        k: u32,
        buf: &mut [u8],
    ) -> Result<(), Failed>
        requires width { 0 < length buf.old }
        requires divides { BLOCK_LEN % length buf.old ≡ 0 }
        requires home { homes_start journal.now.layout ≤ first }
        requires within { first + k / (BLOCK_LEN / length buf.old) < journal.now.layout.blocks }
        requires few { journal.now.layout.blocks < 2 ^ 32 }
        requires clean { journal.now.staged ≡ [] }
        requires usable { JournalIsUsable journal.now (D.meaning disk.old) }
        ensures disk { ReadsDisk (D.meaning disk.old) (D.meaning disk.new) result }
        ensures len { length buf.new ≡ length buf.old }
        ensures read { OnOk result ((kept : ℕ → List ℕ) → Fits journal.now (D.meaning disk.old) kept → Recalls self.old kept
            → (count : ℕ) → buf.new ≡ slot (record { first = first; count = count; width = length buf.old }) kept k) }
        ensures recalls { (kept : ℕ → List ℕ) → Fits journal.now (D.meaning disk.old) kept
            → Recalls self.old kept → Recalls self.new kept }
    {
        let width = buf.len();
        let per_block = (BLOCK_LEN / width) as u32;
        self.turn_to(disk, journal, first + k / per_block)?;
        let at = width * (k % per_block) as usize;
        buf.copy_from_slice(&self.bytes[at..at + width]);
        Ok(())
    }
}
