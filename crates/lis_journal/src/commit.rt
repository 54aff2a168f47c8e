//! The phases of a commit and of a checkpoint: the record and its gate; the homes, gate 0 and the other gates.

ghost use Rattle.std.specs.Prelude.{◌-◌, [], ◌∷◌, ◌≡◌, ◌+◌, ◌*◌, ◌<◌, ◌≤◌, ℕ, List, length, replicate, true, IsTrue, OnOk, slice_index_or};
ghost use Rattle.lis_ports.specs.Bytes.{put, Torn};
ghost use Rattle.lis_ports.specs.Runs.{Leaves, IsSettled};
ghost use Rattle.lis_ports.specs.Calls.{UsesDisk};
ghost use Rattle.lis_journal.specs.Record.{homes_start, header_blocks, record_len, HomeBlock, gates_closed, apply, homes, homes_of, is_header};
ghost use Rattle.lis_journal.specs.Journal.{records_of, no_records};
ghost use Rattle.lis_journal.specs.Images.{StandsBut, StandsForAllOrNone, FitsAt};
ghost use Rattle.lis_journal.specs.Spreads.{Spreads, Touched, SamePast, SameAround};
ghost use Rattle.lis_journal.specs.Staging.{IsStaging};
ghost use Rattle.lis_journal.specs.Phases.{IsOpened, Absorbs, looked, renumbered, at_target, FitsTarget};

use crate::header::header_blocks;
use crate::stage::Stage;
use lis_limits::{BLOCK_LEN, GATES};
use lis_ports::{Disk, Failed};

/// Where the gates are, a byte each.
pub const GATES_AT: u64 = BLOCK_LEN as u64;

const CLOSED: u8 = 0;

const OPEN: u8 = 1;

/// Where staged blocks are written: in consecutive blocks from this one on, or in their homes.
#[derive(Clone, Copy)]
pub enum Target {
    Record(u32),
    Homes,
}

// Where the k-th staged block is written.
fn address(stage: &Stage, target: Target, k: usize) -> u64
    requires k { k < length stage.now.entries }
    requires blocks { homes_start stage.now.layout < stage.now.layout.blocks }
    requires staging { IsStaging stage.now }
    requires room { FitsTarget stage.now.layout target (length stage.now.entries) }
    ensures address { (d : HomeBlock) → result ≡ BLOCK_LEN * (slice_index_or (at_target target stage.now.entries) k d).home }
    ensures within { result + BLOCK_LEN ≤ BLOCK_LEN * stage.now.layout.blocks }
{
    match target {
        Target::Record(first) => (u64::from(first) + k as u64) * BLOCK_LEN as u64,
        Target::Homes => u64::from(stage.home(k)) * BLOCK_LEN as u64,
    }
}

// Writes all staged blocks, each in a separate call.
fn write_blocks<D: Disk>(disk: &mut D, stage: &Stage, target: Target) -> Result<(), Failed>
    requires blocks { homes_start stage.now.layout < stage.now.layout.blocks }
    requires long { BLOCK_LEN * stage.now.layout.blocks ≤ (D.meaning disk.old).len }
    requires room { FitsTarget stage.now.layout target (length stage.now.entries) }
    ensures disk { UsesDisk (D.meaning disk.old) (D.meaning disk.new) result }
    ensures staging { IsStaging stage.now }
    ensures spreads { IsTrue (D.meaning disk.old).is_honest
        → Spreads (D.meaning disk.old) (D.meaning disk.new) (Touched (at_target target stage.now.entries)) }
    ensures written { OnOk result (IsTrue (D.meaning disk.old).is_honest
        → (D.meaning disk.new).bytes ≡ apply (at_target target stage.now.entries) (D.meaning disk.old).bytes) }
{
    for k in 0..stage.len() {
        disk.write_at(address(stage, target, k), stage.bytes(k))?;
    }
    Ok(())
}

// Writes all staged blocks, and syncs.
fn write_synced<D: Disk>(disk: &mut D, stage: &Stage, target: Target) -> Result<(), Failed>
    requires blocks { homes_start stage.now.layout < stage.now.layout.blocks }
    requires long { BLOCK_LEN * stage.now.layout.blocks ≤ (D.meaning disk.old).len }
    requires room { FitsTarget stage.now.layout target (length stage.now.entries) }
    ensures disk { UsesDisk (D.meaning disk.old) (D.meaning disk.new) result }
    ensures staging { IsStaging stage.now }
    ensures spreads { IsTrue (D.meaning disk.old).is_honest
        → Spreads (D.meaning disk.old) (D.meaning disk.new) (Touched (at_target target stage.now.entries)) }
    ensures settled { OnOk result (IsTrue (D.meaning disk.old).is_honest
        → IsSettled (D.meaning disk.new) (apply (at_target target stage.now.entries) (D.meaning disk.old).bytes)) }
{
    write_blocks(disk, stage, target)?;
    disk.sync()
}

// Writes a gate, in a separate write, and syncs.
fn write_gate<D: Disk>(disk: &mut D, gate: u32, value: u8) -> Result<(), Failed>
    requires gate { gate < GATES }
    requires long { 2 * BLOCK_LEN ≤ (D.meaning disk.old).len }
    ensures disk { UsesDisk (D.meaning disk.old) (D.meaning disk.new) result }
    ensures spreads { IsTrue (D.meaning disk.old).is_honest
        → Spreads (D.meaning disk.old) (D.meaning disk.new) (Torn (BLOCK_LEN + gate) 1) }
    ensures settled { OnOk result (IsTrue (D.meaning disk.old).is_honest
        → IsSettled (D.meaning disk.new) (put (D.meaning disk.old).bytes (BLOCK_LEN + gate) (value ∷ []))) }
{
    disk.write_at(GATES_AT + u64::from(gate), &[value])?;
    disk.sync()
}

/// Closes the gates 1 to 63 in one write, and syncs. Gate 0 must be closed on the disk.
pub fn close_others<D: Disk>(disk: &mut D) -> Result<(), Failed>
    requires { 2 * BLOCK_LEN ≤ (D.meaning disk.old).len }
    ensures disk { UsesDisk (D.meaning disk.old) (D.meaning disk.new) result }
    ensures spreads { IsTrue (D.meaning disk.old).is_honest
        → Spreads (D.meaning disk.old) (D.meaning disk.new) (Torn (BLOCK_LEN + 1) (GATES - 1)) }
    ensures settled { OnOk result (IsTrue (D.meaning disk.old).is_honest
        → IsSettled (D.meaning disk.new) (put (D.meaning disk.old).bytes (BLOCK_LEN + 1) (replicate (GATES - 1) 0))) }
{
    disk.write_at(GATES_AT + 1, &[CLOSED; 63])?;
    disk.sync()
}

// Writes a record from this block on, and syncs.
fn write_record<D: Disk>(
    disk: &mut D,
    header: &[u8],
    stage: &Stage,
    first: u32,
) -> Result<(), Failed>
    requires blocks { homes_start stage.now.layout < stage.now.layout.blocks }
    requires long { BLOCK_LEN * stage.now.layout.blocks ≤ (D.meaning disk.old).len }
    requires header { length header.now ≡ BLOCK_LEN * header_blocks (length stage.now.entries) }
    requires room { first + record_len (length stage.now.entries) ≤ homes_start stage.now.layout }
    ensures disk { UsesDisk (D.meaning disk.old) (D.meaning disk.new) result }
    ensures spreads { IsTrue (D.meaning disk.old).is_honest
        → Spreads (D.meaning disk.old) (D.meaning disk.new) (Torn (BLOCK_LEN * first) (BLOCK_LEN * record_len (length stage.now.entries))) }
    ensures settled { OnOk result (IsTrue (D.meaning disk.old).is_honest → IsSettled (D.meaning disk.new)
        (apply (renumbered (first + header_blocks (length stage.now.entries)) stage.now.entries) (put (D.meaning disk.old).bytes (BLOCK_LEN * first) header.now))) }
{
    disk.write_at(u64::from(first) * BLOCK_LEN as u64, header)?;
    let contents = Target::Record(first + header_blocks(stage.len() as u32));
    write_synced(disk, stage, contents)
}

/// Commits the staged blocks by one more record: it writes the record after the open ones, and then opens its gate.
pub fn append<D: Disk>(
    disk: &mut D,
    header: &[u8],
    stage: &Stage,
    count: u32,
    next: u32,
) -> Result<(), Failed>
    requires blocks { homes_start stage.now.layout < stage.now.layout.blocks }
    requires long { BLOCK_LEN * stage.now.layout.blocks ≤ (D.meaning disk.old).len }
    requires staging { IsStaging stage.now }
    requires header { length header.now ≡ BLOCK_LEN * header_blocks (length stage.now.entries) }
    requires form { IsTrue (is_header stage.now.layout header.now) }
    requires homes { homes_of header.now ≡ homes stage.now.entries }
    requires few { count < GATES }
    requires room { next + record_len (length stage.now.entries) ≤ homes_start stage.now.layout }
    ensures disk { UsesDisk (D.meaning disk.old) (D.meaning disk.new) result }
    ensures any_moment { (latest : List HomeBlock) (placed : List ℕ) (kept : ℕ → List ℕ)
        → FitsAt stage.now.layout (records_of count next latest) placed (D.meaning disk.old) kept
        → Leaves (D.meaning disk.old) (D.meaning disk.new)
        (StandsForAllOrNone stage.now.layout placed kept stage.now.entries) }
    ensures kept { OnOk result ((latest later : List HomeBlock) (placed : List ℕ) (kept : ℕ → List ℕ)
        → Absorbs latest stage.now.entries later
        → FitsAt stage.now.layout (records_of count next latest) placed (D.meaning disk.old) kept
        → FitsAt stage.now.layout (records_of (count + 1) (next + record_len (length stage.now.entries)) later) [] (D.meaning disk.new)
        (looked stage.now.entries kept)) }
    ensures past { IsTrue (D.meaning disk.old).is_honest
        → Spreads (D.meaning disk.old) (D.meaning disk.new) (SamePast stage.now.layout.blocks) }
{
    write_record(disk, header, stage, next)?;
    write_gate(disk, count, OPEN)
}

/// Writes the latest contents of all open records to their homes, and then closes the gates: gate 0 first, and then all others.
pub fn checkpoint<D: Disk>(disk: &mut D, latest: &Stage) -> Result<(), Failed>
    requires blocks { homes_start latest.now.layout < latest.now.layout.blocks }
    requires long { BLOCK_LEN * latest.now.layout.blocks ≤ (D.meaning disk.old).len }
    ensures disk { UsesDisk (D.meaning disk.old) (D.meaning disk.new) result }
    ensures staging { IsStaging latest.now }
    ensures any_moment { (count next : ℕ) (placed : List ℕ) (kept : ℕ → List ℕ)
        → IsOpened latest.now.layout (records_of count next latest.now.entries) placed (D.meaning disk.old) kept
        → Leaves (D.meaning disk.old) (D.meaning disk.new) (StandsBut latest.now.layout placed kept) }
    ensures kept { OnOk result ((count next : ℕ) (placed : List ℕ) (kept : ℕ → List ℕ)
        → IsOpened latest.now.layout (records_of count next latest.now.entries) placed (D.meaning disk.old) kept
        → FitsAt latest.now.layout no_records [] (D.meaning disk.new) kept) }
    ensures around { IsTrue (D.meaning disk.old).is_honest
        → Spreads (D.meaning disk.old) (D.meaning disk.new) (SameAround latest.now.layout) }
    ensures settled { OnOk result (IsTrue (D.meaning disk.old).is_honest → IsSettled (D.meaning disk.new)
        (gates_closed true (apply latest.now.entries (D.meaning disk.old).bytes))) }
{
    write_synced(disk, latest, Target::Homes)?;
    write_gate(disk, 0, CLOSED)?;
    close_others(disk)
}
