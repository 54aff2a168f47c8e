//! The open records of a journal, with their latest contents in memory.

ghost use Rattle.std.specs.Prelude.{[], ◌++◌, ◌≡◌, ◌+◌, ◌*◌, ◌^◌, ◌<◌, ◌≤◌, ℕ, List, length, false, IsTrue, OnOk, OnErr, IfSome, IfNone};
ghost use Rattle.std.specs.List.{range_with_len};
ghost use Rattle.lis_ports.specs.Runs.{Leaves};
ghost use Rattle.lis_ports.specs.Calls.{UsesDisk};
ghost use Rattle.lis_journal.specs.Record.{homes_start, header_blocks, record_len, homes, homes_of, is_header};
ghost use Rattle.lis_journal.specs.Images.{StandsBut, StandsForAllOrNone, FitsAt, with_run, look};
ghost use Rattle.lis_journal.specs.Spreads.{Spreads, SamePast};
ghost use Rattle.lis_journal.specs.Staging.{IsStaging, has_entry, HasNone};
ghost use Rattle.lis_journal.specs.Phases.{Absorbs, looked};

use crate::commit::{append, checkpoint};
use crate::header::{has_end, record_len};
use crate::stage::Stage;
use lis_limits::{BLOCK_LEN, GATES};
use lis_ports::{Disk, Failed};
use std::marker::Model;

/// The block in which the first record begins.
pub const FIRST_RECORD: u32 = 2;

/// The open records: how many there are, the block after them, and the latest content of each block in them.
#[derive(Drop)]
pub struct Records {
    latest: Stage,
    count: u32,
    next: u32,
}

impl Model for Records {
    ghost use Rattle.lis_journal.specs.Journal.{records_of};
    ghost use Rattle.lis_journal.specs.Inside.{Log, IsLog};

    ghost Value = { Log };

    ghost view = { λ r. record { layout = r.latest.layout; records = records_of r.count r.next r.latest.entries } };

    ghost invariant = { λ r. IsLog (record { layout = r.latest.layout; records = records_of r.count r.next r.latest.entries }) r.latest.capacity };
}

// Puts all staged blocks over the latest contents.
fn absorb(latest: &mut Stage, stage: &Stage)
    requires same { latest.old.layout ≡ stage.now.layout }
    requires room { length latest.old.entries + length stage.now.entries ≤ latest.old.capacity }
    ensures absorbs { Absorbs latest.old.entries stage.now.entries latest.new.entries }
    ensures layout { latest.new.layout ≡ latest.old.layout }
    ensures capacity { latest.new.capacity ≡ latest.old.capacity }
    ensures few { length latest.new.entries ≤ length latest.old.entries + length stage.now.entries }
{
    for k in 0..stage.len() {
        latest.put(stage.home(k), stage.bytes(k));
    }
}

// Whether one of `count` blocks from `first` on is staged.
fn has_any(latest: &Stage, first: u32, count: u32) -> bool
    requires { first + count ≤ 2 ^ 32 }
    ensures none { result ≡ false → HasNone latest.now.entries first count }
    ensures some { IsTrue result → 0 < length latest.now.entries }
{
    for k in 0..count {
        if latest.has(first + k) {
            return true;
        }
    }
    false
}

impl Records {
    ghost use Rattle.lis_journal.specs.Journal.{no_records};
    ghost use Rattle.lis_journal.specs.Inside.{IsLog};

    /// No open record. Nothing may be staged in `latest`.
    pub fn new(latest: Stage) -> Self
        requires blocks { homes_start latest.layout < latest.layout.blocks }
        requires frames { latest.layout.records ≤ latest.capacity + 1 }
        requires empty { latest.entries ≡ [] }
        ensures { result ≡ record { layout = latest.layout; records = no_records } }
    {
        Records {
            latest,
            count: 0,
            next: FIRST_RECORD,
        }
    }

    /// The latest content of a block, if it is in an open record.
    pub fn get(&self, n: u32) -> Option<&[u8]>
        ensures none { IfNone result (has_entry self.now.records.latest n ≡ false) }
        ensures some { IfSome result (λ bytes. (old : List ℕ) → look self.now.records.latest n old ≡ bytes.now) }
        ensures whole { IfSome result (λ bytes. length bytes.now ≡ BLOCK_LEN) }
    {
        self.latest.get(n)
    }

    // Whether there is room for one more record of `blocks` contents. There always is if no record is open.
    fn has_room(&self, blocks: usize) -> bool
        requires { record_len blocks ≤ self.now.layout.records }
        ensures room { IsTrue result → (self.now.records.count < GATES) × (self.now.records.next + record_len blocks ≤ homes_start self.now.layout) }
        ensures full { result ≡ false → 0 < self.now.records.count }
    {
        if self.count == GATES {
            return false;
        }
        let layout = self.latest.layout();
        has_end(layout, self.next, blocks as u32)
    }

    // Makes a checkpoint, after which no record is open.
    fn clear<D: Disk>(&mut self, disk: &mut D) -> Result<(), Failed>
        requires long { BLOCK_LEN * self.old.layout.blocks ≤ (D.meaning disk.old).len }
        requires some { 0 < self.old.records.count }
        ensures disk { UsesDisk (D.meaning disk.old) (D.meaning disk.new) result }
        ensures any_moment { (placed : List ℕ) (kept : ℕ → List ℕ)
            → FitsAt self.old.layout self.old.records placed (D.meaning disk.old) kept
            → Leaves (D.meaning disk.old) (D.meaning disk.new) (StandsBut self.old.layout placed kept) }
        ensures kept { OnOk result ((placed : List ℕ) (kept : ℕ → List ℕ)
            → FitsAt self.old.layout self.old.records placed (D.meaning disk.old) kept
            → FitsAt self.old.layout no_records [] (D.meaning disk.new) kept) }
        ensures past { IsTrue (D.meaning disk.old).is_honest
            → Spreads (D.meaning disk.old) (D.meaning disk.new) (SamePast self.old.layout.blocks) }
        ensures done { OnOk result (self.new ≡ record self.old { records = no_records }) }
        ensures stays { OnErr result (self.new ≡ self.old) }
    {
        checkpoint(disk, &self.latest)?;
        self.latest.clear();
        self.count = 0;
        self.next = FIRST_RECORD;
        Ok(())
    }

    // Makes a checkpoint if there is no room for one more record of `blocks` contents.
    fn make_room<D: Disk>(&mut self, disk: &mut D, blocks: usize) -> Result<(), Failed>
        requires long { BLOCK_LEN * self.old.layout.blocks ≤ (D.meaning disk.old).len }
        requires few { record_len blocks ≤ self.old.layout.records }
        ensures disk { UsesDisk (D.meaning disk.old) (D.meaning disk.new) result }
        ensures any_moment { (placed : List ℕ) (kept : ℕ → List ℕ)
            → FitsAt self.old.layout self.old.records placed (D.meaning disk.old) kept
            → Leaves (D.meaning disk.old) (D.meaning disk.new) (StandsBut self.old.layout placed kept) }
        ensures kept { OnOk result ((placed : List ℕ) (kept : ℕ → List ℕ)
            → FitsAt self.old.layout self.old.records placed (D.meaning disk.old) kept
            → FitsAt self.new.layout self.new.records placed (D.meaning disk.new) kept) }
        ensures past { IsTrue (D.meaning disk.old).is_honest
            → Spreads (D.meaning disk.old) (D.meaning disk.new) (SamePast self.old.layout.blocks) }
        ensures room { OnOk result ((self.new.records.count < GATES) × (self.new.records.next + record_len blocks ≤ homes_start self.new.layout)) }
        ensures layout { self.new.layout ≡ self.old.layout }
    {
        if self.has_room(blocks) {
            return Ok(());
        }
        self.clear(disk)
    }

    // Commits the staged blocks by one more record, for which there is room.
    fn append<D: Disk>(&mut self, disk: &mut D, header: &[u8], stage: &Stage) -> Result<(), Failed>
        requires long { BLOCK_LEN * self.old.layout.blocks ≤ (D.meaning disk.old).len }
        requires same { stage.now.layout ≡ self.old.layout }
        requires staging { IsStaging stage.now }
        requires header { length header.now ≡ BLOCK_LEN * header_blocks (length stage.now.entries) }
        requires form { IsTrue (is_header stage.now.layout header.now) }
        requires homes { homes_of header.now ≡ homes stage.now.entries }
        requires few { self.old.records.count < GATES }
        requires room { self.old.records.next + record_len (length stage.now.entries) ≤ homes_start self.old.layout }
        ensures disk { UsesDisk (D.meaning disk.old) (D.meaning disk.new) result }
        ensures any_moment { (placed : List ℕ) (kept : ℕ → List ℕ)
            → FitsAt self.old.layout self.old.records placed (D.meaning disk.old) kept
            → Leaves (D.meaning disk.old) (D.meaning disk.new)
            (StandsForAllOrNone self.old.layout placed kept stage.now.entries) }
        ensures kept { OnOk result ((placed : List ℕ) (kept : ℕ → List ℕ)
            → FitsAt self.old.layout self.old.records placed (D.meaning disk.old) kept
            → FitsAt self.new.layout self.new.records [] (D.meaning disk.new) (looked stage.now.entries kept)) }
        ensures past { IsTrue (D.meaning disk.old).is_honest
            → Spreads (D.meaning disk.old) (D.meaning disk.new) (SamePast self.old.layout.blocks) }
        ensures layout { self.new.layout ≡ self.old.layout }
    {
        append(disk, header, stage, self.count, self.next)?;
        absorb(&mut self.latest, stage);
        self.count += 1;
        self.next += record_len(stage.len() as u32);
        Ok(())
    }

    /// Commits the staged blocks by one more record. If there is no room for it, it makes a checkpoint first.
    pub fn save<D: Disk>(
        &mut self,
        disk: &mut D,
        header: &[u8],
        stage: &Stage,
    ) -> Result<(), Failed>
        requires long { BLOCK_LEN * self.old.layout.blocks ≤ (D.meaning disk.old).len }
        requires same { stage.now.layout ≡ self.old.layout }
        requires staging { IsStaging stage.now }
        requires fits { record_len (length stage.now.entries) ≤ self.old.layout.records }
        requires header { length header.now ≡ BLOCK_LEN * header_blocks (length stage.now.entries) }
        requires form { IsTrue (is_header stage.now.layout header.now) }
        requires homes { homes_of header.now ≡ homes stage.now.entries }
        ensures disk { UsesDisk (D.meaning disk.old) (D.meaning disk.new) result }
        ensures any_moment { (placed : List ℕ) (kept : ℕ → List ℕ)
            → FitsAt self.old.layout self.old.records placed (D.meaning disk.old) kept
            → Leaves (D.meaning disk.old) (D.meaning disk.new)
            (StandsForAllOrNone self.old.layout placed kept stage.now.entries) }
        ensures kept { OnOk result ((placed : List ℕ) (kept : ℕ → List ℕ)
            → FitsAt self.old.layout self.old.records placed (D.meaning disk.old) kept
            → FitsAt self.new.layout self.new.records [] (D.meaning disk.new) (looked stage.now.entries kept)) }
        ensures past { IsTrue (D.meaning disk.old).is_honest
            → Spreads (D.meaning disk.old) (D.meaning disk.new) (SamePast self.old.layout.blocks) }
        ensures layout { self.new.layout ≡ self.old.layout }
    {
        self.make_room(disk, stage.len())?;
        self.append(disk, header, stage)
    }

    // Makes a checkpoint if one of `count` blocks from `first` on is in an open record.
    fn free_homes<D: Disk>(&mut self, disk: &mut D, first: u32, count: u32) -> Result<(), Failed>
        requires within { first + count ≤ 2 ^ 32 }
        requires long { BLOCK_LEN * self.old.layout.blocks ≤ (D.meaning disk.old).len }
        ensures disk { UsesDisk (D.meaning disk.old) (D.meaning disk.new) result }
        ensures any_moment { (placed : List ℕ) (kept : ℕ → List ℕ)
            → FitsAt self.old.layout self.old.records placed (D.meaning disk.old) kept
            → Leaves (D.meaning disk.old) (D.meaning disk.new) (StandsBut self.old.layout placed kept) }
        ensures kept { OnOk result ((placed : List ℕ) (kept : ℕ → List ℕ)
            → FitsAt self.old.layout self.old.records placed (D.meaning disk.old) kept
            → FitsAt self.new.layout self.new.records placed (D.meaning disk.new) kept) }
        ensures past { IsTrue (D.meaning disk.old).is_honest
            → Spreads (D.meaning disk.old) (D.meaning disk.new) (SamePast self.old.layout.blocks) }
        ensures free { OnOk result (HasNone self.new.records.latest first count) }
        ensures layout { self.new.layout ≡ self.old.layout }
    {
        if !has_any(&self.latest, first, count) {
            return Ok(());
        }
        self.clear(disk)
    }

    /// Writes `count` home blocks from `first` on, in one call and without a record. If one of them is in an open record, it makes a
    /// checkpoint first.
    pub fn write_homes<D: Disk>(
        &mut self,
        disk: &mut D,
        first: u32,
        count: u32,
        bytes: &[u8],
    ) -> Result<(), Failed>
        requires long { BLOCK_LEN * self.old.layout.blocks ≤ (D.meaning disk.old).len }
        requires home { homes_start self.old.layout ≤ first }
        requires within { first + count ≤ self.old.layout.blocks }
        requires wide { first + count ≤ 2 ^ 32 }
        requires whole { length bytes.now ≡ BLOCK_LEN * count }
        ensures disk { UsesDisk (D.meaning disk.old) (D.meaning disk.new) result }
        ensures any_moment { (placed : List ℕ) (kept : ℕ → List ℕ)
            → FitsAt self.old.layout self.old.records placed (D.meaning disk.old) kept
            → Leaves (D.meaning disk.old) (D.meaning disk.new) (StandsBut self.old.layout (range_with_len first count ++ placed) kept) }
        ensures kept { OnOk result ((placed : List ℕ) (kept : ℕ → List ℕ)
            → FitsAt self.old.layout self.old.records placed (D.meaning disk.old) kept
            → FitsAt self.new.layout self.new.records (range_with_len first count ++ placed) (D.meaning disk.new)
            (with_run first count bytes.now kept)) }
        ensures past { IsTrue (D.meaning disk.old).is_honest
            → Spreads (D.meaning disk.old) (D.meaning disk.new) (SamePast self.old.layout.blocks) }
        ensures layout { self.new.layout ≡ self.old.layout }
    {
        self.free_homes(disk, first, count)?;
        disk.write_at(u64::from(first) * BLOCK_LEN as u64, bytes)
    }
}
