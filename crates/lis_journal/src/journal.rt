//! The journal: blocks are staged, and committed all at once.

ghost use Rattle.std.specs.Prelude.{[], ◌≡◌, ◌⊎◌, ◌+◌, ◌-◌, ◌*◌, ◌^◌, ◌<◌, ◌≤◌, ◌∷◌, ◌++◌, ℕ, List, length, vec_capacity, true, false, IsTrue, IfOk, IfSome, IfNone, OnOk, OnErr, Ok, Err, if◌then◌else◌, ◌==◌};
ghost use Rattle.std.specs.List.{range_with_len};
ghost use Rattle.lis_ports.specs.Runs.{IsDiskRun, Leaves, IsSettled};
ghost use Rattle.lis_ports.specs.Calls.{DiskFaultEnds, UsesDisk, ReadsDisk};
ghost use Rattle.lis_journal.specs.Record.{homes_start, header_blocks, record_len, recovered};
ghost use Rattle.lis_journal.specs.Journal.{no_records};
ghost use Rattle.lis_journal.specs.Images.{StandsBut, StandsForAllOrNone, Fits, KeepsPast, look, held_in, is_among, with_placed, with_kept, with_run, JournalIsUsable};
ghost use Rattle.lis_journal.specs.Staging.{with_entry, has_entry, are_whole, HasNone};

use crate::header::{header_len, write_front};
use crate::layout::{Capacity, Layout};
use crate::mount::recover;
use crate::records::Records;
use crate::stage::Stage;
use lis_limits::BLOCK_LEN;
use lis_ports::{Disk, Failed};
use std::alloc::{AllocError, Global};
use std::marker::Model;
use thiserror::Error;

/// Why a journal was not mounted.
#[derive(Debug, Drop, Error)]
pub enum JournalFault {
    #[error("the disk failed")]
    DiskFault,
    #[error("the record in block {0} is not in form")]
    BadRecord(u32),
    #[error("out of memory")]
    NoMemory,
}

/// Blocks that are staged for an image of this layout until they are committed, over the open records on the disk. No call allocates memory
/// after the journal is made.
#[derive(Drop)]
pub struct Journal {
    stage: Stage,
    records: Records,
    // The numbers of the blocks that were placed since the last commit.
    placed: Vec<u32>,
    most_placed: u32,
    // Room for the longest header of a record. Its first bytes are the header that was last written or read.
    header: Vec<u8>,
    is_broken: bool,
}

impl Model for Journal {
    ghost use Rattle.std.specs.Prelude.{vec_capacity};
    ghost use Rattle.lis_journal.specs.Journal.{Held};

    ghost Value = { Held };

    ghost use Rattle.lis_journal.specs.Inside.{IsJournal};

    ghost view = { λ j. record { layout = j.stage.layout; capacity = record { staged = j.stage.capacity; placed = j.most_placed }; staged = j.stage.entries; records = j.records.records; placed = j.placed.items; is_broken = j.is_broken } };

    ghost invariant = { λ j. IsJournal j.stage.layout (record { staged = j.stage.capacity; placed = j.most_placed }) j.records j.header.items j.placed.items (vec_capacity j.placed) };
}

impl From<AllocError> for JournalFault {
    ghost use Rattle.std.specs.Prelude.{◌≡◌};
    ghost use Rattle.lis_journal.specs.declared.journal.JournalFault.TheVariants.{NoMemory};

    ghost from_gives = { λ _ fault. fault ≡ NoMemory };

    fn from(_: AllocError) -> Self {
        JournalFault::NoMemory
    }
}

// `len` zeros.
fn zeros(alloc: Global, len: usize) -> Result<Vec<u8>, AllocError>
    ensures { IfOk result (λ zeros. length zeros.items ≡ len) }
{
    vec![in alloc; 0; len]
}

// What a mounted journal keeps in memory, and a block to read into.
#[derive(Drop)]
struct Buffers {
    placed: Vec<u32>,
    most_placed: u32,
    header: Vec<u8>,
    block: Vec<u8>,
    stage: Stage,
    latest: Stage,
}

// Takes the buffers, the one with most parts last. If a later part can't be allocated, whatever was taken before is given back, and each
// such end is checked with all that it gives back. So `mount` has one end for all of them.
fn take_buffers(alloc: Global, layout: Layout, capacity: Capacity) -> Result<Buffers, AllocError>
    requires some { 1 ≤ layout.records }
    requires few { layout.records ≤ 2 ^ 16 }
    requires staged { capacity.staged ≤ 2 ^ 16 }
    requires placed { capacity.placed ≤ 2 ^ 16 }
    ensures stage { IfOk result (λ buffers. buffers.stage ≡ record { layout = layout; capacity = capacity.staged; entries = [] }) }
    ensures latest { IfOk result (λ buffers. buffers.latest ≡ record { layout = layout; capacity = layout.records - 1; entries = [] }) }
    ensures placed { IfOk result (λ buffers. buffers.placed.items ≡ []) }
    ensures many { IfOk result (λ buffers. (buffers.most_placed ≡ capacity.placed) × (capacity.placed ≤ vec_capacity buffers.placed)) }
    ensures header { IfOk result (λ buffers. length buffers.header.items ≡ BLOCK_LEN * header_blocks layout.records) }
    ensures block { IfOk result (λ buffers. length buffers.block.items ≡ BLOCK_LEN) }
{
    Ok(Buffers {
        placed: Vec::with_capacity(alloc, capacity.placed as usize)?,
        most_placed: capacity.placed,
        header: zeros(alloc, header_len(layout.records))?,
        block: zeros(alloc, BLOCK_LEN)?,
        stage: Stage::new(alloc, layout, capacity.staged)?,
        latest: Stage::new(alloc, layout, layout.records - 1)?,
    })
}

// A journal in these buffers, with nothing staged and no open record.
fn mounted(buffers: Buffers) -> Journal
    requires blocks { homes_start buffers.stage.layout < buffers.stage.layout.blocks }
    requires same { buffers.latest.layout ≡ buffers.stage.layout }
    requires frames { buffers.latest.layout.records ≤ buffers.latest.capacity + 1 }
    requires fits { record_len buffers.stage.capacity ≤ buffers.stage.layout.records }
    requires empty { buffers.stage.entries ≡ [] }
    requires placed { buffers.placed.items ≡ [] }
    requires many { buffers.most_placed ≤ vec_capacity buffers.placed }
    requires header { length buffers.header.items ≡ BLOCK_LEN * header_blocks buffers.stage.layout.records }
    ensures { result ≡ record { layout = buffers.stage.layout; capacity = record { staged = buffers.stage.capacity; placed = buffers.most_placed }; staged = []; records = no_records; placed = []; is_broken = false } }
{
    let mut latest = buffers.latest;
    latest.clear();
    Journal {
        stage: buffers.stage,
        records: Records::new(latest),
        placed: buffers.placed,
        most_placed: buffers.most_placed,
        header: buffers.header,
        is_broken: false,
    }
}

// Adds `count` numbers from `first` on after those that are there.
fn push_run(placed: &mut Vec<u32>, first: u32, count: u32)
    requires room { length placed.old.items + count ≤ vec_capacity placed.old }
    requires within { first + count ≤ 2 ^ 32 }
    ensures items { placed.new.items ≡ placed.old.items ++ range_with_len first count }
    ensures capacity { vec_capacity placed.old ≤ vec_capacity placed.new }
{
    for k in 0..count {
        let Ok(()) = placed.push(first + k) else {
            unreachable!()
        };
    }
}

impl Journal {
    ghost use Rattle.lis_journal.specs.Recovery.{HasMountCause, LeftOrRecovering, MountEnded, IsSettledPast};
    ghost use Rattle.lis_journal.specs.declared.journal.JournalFault.TheVariants.{DiskFault, NoMemory};
    ghost use Rattle.lis_journal.specs.Journal.{Held, no_records};

    /// Opens the journal of an image of this layout, with nothing staged, and with room for the given numbers of staged and placed blocks.
    /// It allocates its memory before its first disk call. Then it syncs. If a gate is open, it writes the open records to their homes and
    /// closes all gates.
    pub fn mount<D: Disk>(
        alloc: Global,
        disk: &mut D,
        layout: Layout,
        capacity: Capacity,
    ) -> Result<Journal, JournalFault>
        requires blocks { homes_start layout < layout.blocks }
        requires few { layout.records ≤ 2 ^ 16 }
        requires fits { record_len capacity.staged ≤ layout.records }
        requires placed { capacity.placed ≤ 2 ^ 16 }
        requires long { BLOCK_LEN * layout.blocks ≤ (D.meaning disk.old).len }
        ensures held { IfOk result (λ journal. journal
            ≡ record { layout = layout; capacity = capacity; staged = []; records = no_records; placed = []; is_broken = false }) }
        ensures run { IsDiskRun (D.meaning disk.old) (D.meaning disk.new) }
        ensures cause { HasMountCause (D.meaning disk.old).disk_faults (D.meaning disk.new).disk_faults result }
        ensures first_fault { DiskFaultEnds (D.meaning disk.old) (D.meaning disk.new) }

        // If memory runs out, it makes no disk call.
        ensures memory { result ≡ Err NoMemory → disk.new ≡ disk.old }

        // The bytes as they read at the start of the call decide the result: either the journal fits what the replayed image has, or there
        // is no replayed image, and the result is the block of the first malformed open record.
        ensures ended { IsTrue (D.meaning disk.old).is_honest
            → MountEnded layout (D.meaning disk.old) (D.meaning disk.new) result }

        // Nothing is written except what an open gate requires: the latest contents of the open records to their homes, and then the gates.
        // A crash in the call, and after it (`images`), leaves what it could have left before, or, if a gate was open, an image that
        // represents the replayed image, with the journal's bytes after the gates as before.
        ensures left { OnOk result (IsTrue (D.meaning disk.old).is_honest
            → IsSettled (D.meaning disk.new) (recovered layout (D.meaning disk.old).bytes)) }
        ensures any_moment { IsTrue (D.meaning disk.old).is_honest
            → Leaves (D.meaning disk.old) (D.meaning disk.new) (LeftOrRecovering layout (D.meaning disk.old)) }
        ensures images { OnOk result (IsTrue (D.meaning disk.old).is_honest → (image : List ℕ) → (D.meaning disk.new).images image
            → LeftOrRecovering layout (D.meaning disk.old) image) }

        // What follows the image reads as before; if the disk failed, then only if a crash at the start left it as it read.
        ensures past { IsTrue (D.meaning disk.old).is_honest → (result ≡ Err DiskFault → IsSettledPast layout.blocks (D.meaning disk.old))
            → KeepsPast layout.blocks (D.meaning disk.old) (D.meaning disk.new) }
    {
        let mut buffers = take_buffers(alloc, layout, capacity)?;
        match recover(
            disk,
            &mut buffers.latest,
            &mut buffers.header,
            &mut buffers.block,
        ) {
            Ok(None) => Ok(mounted(buffers)),
            Ok(Some(first)) => Err(JournalFault::BadRecord(first)),
            Err(Failed) => Err(JournalFault::DiskFault),
        }
    }

    /// The layout of the image.
    pub fn layout(&self) -> Layout
        ensures { result ≡ self.now.layout }
    {
        self.stage.layout()
    }

    /// How many blocks the image has.
    pub fn blocks(&self) -> u32
        ensures { result ≡ self.now.layout.blocks }
    {
        self.stage.layout().blocks
    }

    /// The homes of the blocks that were placed since the last commit.
    pub fn placed(&self) -> &[u32]
        ensures { result.now ≡ self.now.placed }
    {
        self.placed.as_slice()
    }

    /// How many blocks are staged, each of them whole.
    pub fn staged(&self) -> u32
        ensures count { result ≡ length self.now.staged }
        ensures whole { IsTrue (are_whole self.now.staged) }
    {
        self.stage.len() as u32
    }

    /// Whether a commit or a placing failed. Then only what is on the disk counts, and a journal must be mounted again.
    pub fn is_broken(&self) -> bool
        ensures { result ≡ self.now.is_broken }
    {
        self.is_broken
    }

    // What is staged for a block, or otherwise its latest content in the open records.
    fn content(&self, n: u32) -> Option<&[u8]>
        ensures none { IfNone result ((has_entry self.now.staged n ≡ false) × (has_entry self.now.records.latest n ≡ false)) }
        ensures some { IfSome result (λ bytes. (old : List ℕ)
            → look self.now.staged n (look self.now.records.latest n old) ≡ bytes.now) }
        ensures whole { IfSome result (λ bytes. length bytes.now ≡ BLOCK_LEN) }
    {
        match self.stage.get(n) {
            Some(bytes) => Some(bytes),
            None => self.records.get(n),
        }
    }

    /// Reads a block: what is staged for it, or otherwise what is kept. A block that is in an open record is read from memory.
    pub fn read<D: Disk>(&self, disk: &mut D, n: u32, buf: &mut [u8]) -> Result<(), Failed>
        requires home { homes_start self.now.layout ≤ n }
        requires within { n < self.now.layout.blocks }
        requires whole { length buf.old ≡ BLOCK_LEN }
        requires usable { JournalIsUsable self.now (D.meaning disk.old) }
        ensures read { OnOk result ((kept : ℕ → List ℕ) → Fits self.now (D.meaning disk.old) kept
            → buf.new ≡ look self.now.staged n (kept n)) }
        ensures held { OnOk result (IsTrue (D.meaning disk.old).is_honest
            → buf.new ≡ held_in self.now (D.meaning disk.old).bytes n) }
        ensures disk { ReadsDisk (D.meaning disk.old) (D.meaning disk.new) result }
        ensures fits { (kept : ℕ → List ℕ) → Fits self.now (D.meaning disk.old) kept
            → Fits self.now (D.meaning disk.new) kept }
    {
        match self.content(n) {
            Some(bytes) => {
                buf.copy_from_slice(bytes);
                Ok(())
            }
            None => disk.read_at(u64::from(n) * BLOCK_LEN as u64, buf),
        }
    }

    /// Stages the content of a block, instead of what is staged for it.
    pub fn stage(&mut self, n: u32, bytes: &[u8])
        requires home { homes_start self.old.layout ≤ n }
        requires within { n < self.old.layout.blocks }
        requires whole { length bytes.now ≡ BLOCK_LEN }
        requires unbroken { self.old.is_broken ≡ false }
        requires unplaced { is_among self.old.placed n ≡ false }
        requires room { IsTrue (has_entry self.old.staged n) ⊎ (length self.old.staged < self.old.capacity.staged) }
        ensures staged { self.new ≡ record self.old { staged = with_entry self.old.staged n bytes.now } }
        ensures looks { (m : ℕ) (old : List ℕ) → look self.new.staged m old
            ≡ (if m == n then bytes.now else look self.old.staged m old) }
    {
        self.stage.put(n, bytes);
    }

    /// Drops what is staged.
    pub fn abandon(&mut self)
        ensures { self.new ≡ record self.old { staged = [] } }
    {
        self.stage.clear();
    }

    /// Commits the staged blocks, all or none of them. With nothing staged it makes no disk call.
    pub fn commit<D: Disk>(&mut self, disk: &mut D) -> Result<(), Failed>
        requires usable { JournalIsUsable self.old (D.meaning disk.old) }
        ensures idle { self.old.staged ≡ [] → (result ≡ Ok _) × (disk.new ≡ disk.old) × (self.new ≡ self.old) }

        // A crash at any moment of the call leaves an image that represents the blocks as before, except for the placed ones, or all of
        // them with all that is staged.
        ensures any_moment { (kept : ℕ → List ℕ) → Fits self.old (D.meaning disk.old) kept
            → Leaves (D.meaning disk.old) (D.meaning disk.new)
            (StandsForAllOrNone self.old.layout self.old.placed kept self.old.staged) }
        ensures kept { OnOk result ((kept : ℕ → List ℕ) → Fits self.old (D.meaning disk.old) kept
            → Fits self.new (D.meaning disk.new) (λ n. look self.old.staged n (kept n))) }
        ensures past { (kept : ℕ → List ℕ) → Fits self.old (D.meaning disk.old) kept
            → KeepsPast self.old.layout.blocks (D.meaning disk.old) (D.meaning disk.new) }
        ensures disk { UsesDisk (D.meaning disk.old) (D.meaning disk.new) result }
        ensures done { OnOk result (self.new
            ≡ record self.old { staged = []; records = self.new.records; placed = self.new.placed }) }
        ensures none_placed { OnOk result (0 < length self.old.staged → self.new.placed ≡ []) }
        ensures broken { OnErr result (self.new ≡ record self.old { records = self.new.records; is_broken = true }) }
    {
        if self.stage.len() == 0 {
            return Ok(());
        }
        write_front(&mut self.header, &self.stage);
        let len = header_len(self.stage.len() as u32);
        match self.records.save(disk, &self.header[..len], &self.stage) {
            Ok(()) => {
                self.stage.clear();
                self.placed.clear();
                Ok(())
            }
            Err(Failed) => {
                self.is_broken = true;
                Err(Failed)
            }
        }
    }

    // Notes that a block is placed.
    fn note_placed(&mut self, n: u32)
        requires within { n < self.old.layout.blocks }
        requires room { IsTrue (is_among self.old.placed n) ⊎ (length self.old.placed < self.old.capacity.placed) }
        ensures { self.new ≡ record self.old { placed = with_placed self.old.placed n } }
    {
        if self.placed.contains(&n) {
            return;
        }
        let Ok(()) = self.placed.push(n) else {
            unreachable!()
        };
    }

    /// Writes a home block without a record. Until the next commit it is placed: a crash may leave any bytes in it. If it is in an open
    /// record, a checkpoint is made first.
    pub fn place<D: Disk>(&mut self, disk: &mut D, n: u32, bytes: &[u8]) -> Result<(), Failed>
        requires home { homes_start self.old.layout ≤ n }
        requires within { n < self.old.layout.blocks }
        requires whole { length bytes.now ≡ BLOCK_LEN }
        requires usable { JournalIsUsable self.old (D.meaning disk.old) }
        requires unstaged { has_entry self.old.staged n ≡ false }
        requires room { IsTrue (is_among self.old.placed n) ⊎ (length self.old.placed < self.old.capacity.placed) }

        // A crash at any moment of the call leaves an image that represents the blocks as before, except for this and the placed ones.
        ensures any_moment { (kept : ℕ → List ℕ) → Fits self.old (D.meaning disk.old) kept
            → Leaves (D.meaning disk.old) (D.meaning disk.new) (StandsBut self.old.layout (n ∷ self.old.placed) kept) }
        ensures kept { OnOk result ((kept : ℕ → List ℕ) → Fits self.old (D.meaning disk.old) kept
            → Fits self.new (D.meaning disk.new) (with_kept n bytes.now kept)) }
        ensures past { (kept : ℕ → List ℕ) → Fits self.old (D.meaning disk.old) kept
            → KeepsPast self.old.layout.blocks (D.meaning disk.old) (D.meaning disk.new) }
        ensures disk { UsesDisk (D.meaning disk.old) (D.meaning disk.new) result }
        ensures done { OnOk result (self.new
            ≡ record self.old { records = self.new.records; placed = with_placed self.old.placed n }) }
        ensures broken { OnErr result (self.new ≡ record self.old { records = self.new.records; is_broken = true }) }
    {
        match self.records.write_homes(disk, n, 1, bytes) {
            Ok(()) => {
                self.note_placed(n);
                Ok(())
            }
            Err(Failed) => {
                self.is_broken = true;
                Err(Failed)
            }
        }
    }

    /// Writes `count` home blocks from `first` on, in one call and without a record. `place` does so with one block.
    pub fn place_run<D: Disk>(
        &mut self,
        disk: &mut D,
        first: u32,
        count: u32,
        bytes: &[u8],
    ) -> Result<(), Failed>
        requires home { homes_start self.old.layout ≤ first }
        requires within { first + count ≤ self.old.layout.blocks }
        requires wide { first + count ≤ 2 ^ 32 }
        requires whole { length bytes.now ≡ BLOCK_LEN * count }
        requires usable { JournalIsUsable self.old (D.meaning disk.old) }
        requires unstaged { HasNone self.old.staged first count }
        requires room { length self.old.placed + count ≤ self.old.capacity.placed }

        // A crash at any moment of the call leaves an image that represents the blocks as before, except for these and the placed ones.
        ensures any_moment { (kept : ℕ → List ℕ) → Fits self.old (D.meaning disk.old) kept
            → Leaves (D.meaning disk.old) (D.meaning disk.new)
            (StandsBut self.old.layout (range_with_len first count ++ self.old.placed) kept) }
        ensures kept { OnOk result ((kept : ℕ → List ℕ) → Fits self.old (D.meaning disk.old) kept
            → Fits self.new (D.meaning disk.new) (with_run first count bytes.now kept)) }
        ensures past { (kept : ℕ → List ℕ) → Fits self.old (D.meaning disk.old) kept
            → KeepsPast self.old.layout.blocks (D.meaning disk.old) (D.meaning disk.new) }
        ensures disk { UsesDisk (D.meaning disk.old) (D.meaning disk.new) result }
        ensures done { OnOk result (self.new
            ≡ record self.old { records = self.new.records; placed = self.old.placed ++ range_with_len first count }) }
        ensures broken { OnErr result (self.new ≡ record self.old { records = self.new.records; is_broken = true }) }
    {
        match self.records.write_homes(disk, first, count, bytes) {
            Ok(()) => {
                push_run(&mut self.placed, first, count);
                Ok(())
            }
            Err(Failed) => {
                self.is_broken = true;
                Err(Failed)
            }
        }
    }
}
