//! Mounting a journal: the open records are written to their homes first, and then all gates are closed.

ghost use Rattle.std.specs.Prelude.{[], ◌≡◌, ◌+◌, ◌*◌, ◌^◌, ◌<◌, ◌≤◌, ◌==◌, ℕ, List, None, nat_le, length, true, false, IsTrue, IfOk, IfSome, OnOk, MatchOption};
ghost use Rattle.std.specs.List.{list_any, prefix_len};
ghost use Rattle.lis_ports.specs.Calls.{UsesDisk};
ghost use Rattle.lis_journal.specs.Record.{homes_start, header_blocks, record_len, count_of, count_at, gates, is_header, is_record, record_end, recorded, homes_of, entries_from, first_bad, all_recorded};
ghost use Rattle.lis_journal.specs.Images.{look};
ghost use Rattle.lis_journal.specs.Spreads.{IsQuiet};
ghost use Rattle.lis_journal.specs.Phases.{Absorbs, IsLoaded, Closes};
ghost use Rattle.lis_journal.specs.Recovery.{Recovers};

use crate::commit::{GATES_AT, checkpoint, close_others};
use crate::header::{has_end, header_blocks, header_len, is_header, record_len, word};
use crate::records::FIRST_RECORD;
use crate::stage::Stage;
use lis_limits::{BLOCK_LEN, GATES};
use lis_ports::{Disk, Failed};

// Reads all gates.
fn read_gates<D: Disk>(disk: &mut D) -> Result<[u8; GATES as usize], Failed>
    requires { 2 * BLOCK_LEN ≤ (D.meaning disk.old).len }
    ensures disk { UsesDisk (D.meaning disk.old) (D.meaning disk.new) result }
    ensures quiet { IsTrue (D.meaning disk.old).is_honest → IsQuiet (D.meaning disk.old) (D.meaning disk.new) }
    ensures gates { IfOk result (λ found. IsTrue (D.meaning disk.old).is_honest → found ≡ gates (D.meaning disk.old).bytes) }
{
    let mut gates = [0; GATES as usize];
    disk.read_at(GATES_AT, &mut gates)?;
    Ok(gates)
}

// Whether a gate is open.
fn is_any_open(gates: &[u8]) -> bool
    ensures { result ≡ list_any (λ gate. gate == 1) gates.now }
{
    gates.iter().any(|gate| *gate == 1)
}

// How many gates are open before the first closed one.
fn count_open(gates: &[u8]) -> u32
    requires { length gates.now ≡ GATES }
    ensures count { result ≡ prefix_len (λ gate. gate == 1) gates.now }
    ensures few { result ≤ GATES }
{
    let mut count = 0;
    for gate in gates {
        if *gate != 1 {
            return count;
        }
        count += 1;
    }
    count
}

// Puts the contents of a record, which begin at this block, over what is staged.
fn load<D: Disk>(
    disk: &mut D,
    contents: u32,
    header: &[u8],
    latest: &mut Stage,
    block: &mut [u8],
) -> Result<(), Failed>
    requires blocks { homes_start latest.old.layout < latest.old.layout.blocks }
    requires frames { latest.old.layout.records ≤ latest.old.capacity + 1 }
    requires long { BLOCK_LEN * latest.old.layout.blocks ≤ (D.meaning disk.old).len }
    requires header { length header.now ≡ BLOCK_LEN * header_blocks (count_of header.now) }
    requires form { IsTrue (is_header latest.old.layout header.now) }
    requires fits { contents + count_of header.now ≤ homes_start latest.old.layout }
    requires room { length latest.old.entries + 3 ≤ contents }
    requires whole { length block.old ≡ BLOCK_LEN }
    ensures disk { UsesDisk (D.meaning disk.old) (D.meaning disk.new) result }
    ensures quiet { IsTrue (D.meaning disk.old).is_honest → IsQuiet (D.meaning disk.old) (D.meaning disk.new) }
    ensures layout { latest.new.layout ≡ latest.old.layout }
    ensures capacity { latest.new.capacity ≡ latest.old.capacity }
    ensures few { length latest.new.entries ≤ length latest.old.entries + count_of header.now }
    ensures loaded { OnOk result (IsTrue (D.meaning disk.old).is_honest
        → Absorbs latest.old.entries (entries_from contents (homes_of header.now) (D.meaning disk.old).bytes) latest.new.entries) }
{
    let count = word(header, 0);
    for k in 0..count {
        disk.read_at(
            (u64::from(contents) + u64::from(k)) * BLOCK_LEN as u64,
            block,
        )?;
        latest.put(word(header, k as usize + 1), block);
    }
    Ok(())
}

// Reads the count of the record that begins at this block.
fn read_count<D: Disk>(disk: &mut D, first: u32) -> Result<u32, Failed>
    requires { BLOCK_LEN * first + 4 ≤ (D.meaning disk.old).len }
    ensures disk { UsesDisk (D.meaning disk.old) (D.meaning disk.new) result }
    ensures quiet { IsTrue (D.meaning disk.old).is_honest → IsQuiet (D.meaning disk.old) (D.meaning disk.new) }
    ensures count { IfOk result (λ count. IsTrue (D.meaning disk.old).is_honest → count ≡ count_at first (D.meaning disk.old).bytes) }
{
    let mut bytes = [0; 4];
    disk.read_at(u64::from(first) * BLOCK_LEN as u64, &mut bytes)?;
    Ok(u32::from_le_bytes(bytes))
}

// Reads the record that begins at this block, and puts its contents over what is staged. It returns the block after the record, or none if
// the record is malformed.
fn read_record<D: Disk>(
    disk: &mut D,
    first: u32,
    latest: &mut Stage,
    header: &mut [u8],
    block: &mut [u8],
) -> Result<Option<u32>, Failed>
    requires blocks { homes_start latest.old.layout < latest.old.layout.blocks }
    requires frames { latest.old.layout.records ≤ latest.old.capacity + 1 }
    requires long { BLOCK_LEN * latest.old.layout.blocks ≤ (D.meaning disk.old).len }
    requires room { length latest.old.entries + 2 ≤ first }
    requires within { first ≤ homes_start latest.old.layout }
    requires header { length header.old ≡ BLOCK_LEN * header_blocks latest.old.layout.records }
    requires whole { length block.old ≡ BLOCK_LEN }
    ensures disk { UsesDisk (D.meaning disk.old) (D.meaning disk.new) result }
    ensures quiet { IsTrue (D.meaning disk.old).is_honest → IsQuiet (D.meaning disk.old) (D.meaning disk.new) }
    ensures layout { latest.new.layout ≡ latest.old.layout }
    ensures capacity { latest.new.capacity ≡ latest.old.capacity }
    ensures form { IfOk result (λ end. IsTrue (D.meaning disk.old).is_honest → MatchOption end
        (is_record latest.old.layout first (D.meaning disk.old).bytes ≡ false)
        (λ behind. (is_record latest.old.layout first (D.meaning disk.old).bytes ≡ true)
        × (behind ≡ record_end first (D.meaning disk.old).bytes)
        × Absorbs latest.old.entries (recorded first (D.meaning disk.old).bytes) latest.new.entries)) }
    ensures room { IfOk result (λ end. IfSome end (λ behind.
        (length latest.new.entries + 2 ≤ behind) × (behind ≤ homes_start latest.old.layout))) }
{
    let layout = latest.layout();
    let count = read_count(disk, first)?;
    if !has_end(layout, first, count) {
        return Ok(None);
    }
    let header = &mut header[..header_len(count)];
    disk.read_at(u64::from(first) * BLOCK_LEN as u64, header)?;
    if !is_header(header, layout, count) {
        return Ok(None);
    }
    load(disk, first + header_blocks(count), header, latest, block)?;
    Ok(Some(first + record_len(count)))
}

// Stages the latest contents of `count` records. It returns the block of the first malformed one, if there is one.
fn load_records<D: Disk>(
    disk: &mut D,
    count: u32,
    latest: &mut Stage,
    header: &mut [u8],
    block: &mut [u8],
) -> Result<Option<u32>, Failed>
    requires empty { latest.old.entries ≡ [] }
    requires blocks { homes_start latest.old.layout < latest.old.layout.blocks }
    requires frames { latest.old.layout.records ≤ latest.old.capacity + 1 }
    requires long { BLOCK_LEN * latest.old.layout.blocks ≤ (D.meaning disk.old).len }
    requires header { length header.old ≡ BLOCK_LEN * header_blocks latest.old.layout.records }
    requires whole { length block.old ≡ BLOCK_LEN }
    ensures disk { UsesDisk (D.meaning disk.old) (D.meaning disk.new) result }
    ensures quiet { IsTrue (D.meaning disk.old).is_honest → IsQuiet (D.meaning disk.old) (D.meaning disk.new) }
    ensures layout { latest.new.layout ≡ latest.old.layout }
    ensures capacity { latest.new.capacity ≡ latest.old.capacity }
    ensures form { IfOk result (λ bad. IsTrue (D.meaning disk.old).is_honest
        → bad ≡ first_bad latest.old.layout 2 count (D.meaning disk.old).bytes) }
    ensures loaded { IfOk result (λ bad. IsTrue (D.meaning disk.old).is_honest → bad ≡ None
        → (n : ℕ) (old : List ℕ) → look (all_recorded 2 count (D.meaning disk.old).bytes) n old ≡ look latest.new.entries n old) }
{
    let mut first = FIRST_RECORD;
    for _k in 0..count {
        match read_record(disk, first, latest, header, block)? {
            Some(behind) => first = behind,
            None => return Ok(Some(first)),
        }
    }
    Ok(None)
}

// Writes the open records to their homes, if there are any, and closes all gates.
fn close_gates<D: Disk>(disk: &mut D, count: u32, latest: &Stage) -> Result<(), Failed>
    requires blocks { homes_start latest.now.layout < latest.now.layout.blocks }
    requires long { BLOCK_LEN * latest.now.layout.blocks ≤ (D.meaning disk.old).len }
    ensures disk { UsesDisk (D.meaning disk.old) (D.meaning disk.new) result }
    ensures closes { IsLoaded latest.now.layout count latest.now.entries (D.meaning disk.old)
        → Closes latest.now.layout count (D.meaning disk.old) (D.meaning disk.new) result }
{
    if count == 0 {
        return close_others(disk);
    }
    checkpoint(disk, latest)
}

/// Syncs. If a gate is open, it writes the open records to their homes and closes all gates. It returns the block of the first malformed
/// open record, if there is one; then it writes nothing.
pub fn recover<D: Disk>(
    disk: &mut D,
    latest: &mut Stage,
    header: &mut [u8],
    block: &mut [u8],
) -> Result<Option<u32>, Failed>
    requires empty { latest.old.entries ≡ [] }
    requires blocks { homes_start latest.old.layout < latest.old.layout.blocks }
    requires frames { latest.old.layout.records ≤ latest.old.capacity + 1 }
    requires long { BLOCK_LEN * latest.old.layout.blocks ≤ (D.meaning disk.old).len }
    requires header { length header.old ≡ BLOCK_LEN * header_blocks latest.old.layout.records }
    requires whole { length block.old ≡ BLOCK_LEN }
    ensures disk { UsesDisk (D.meaning disk.old) (D.meaning disk.new) result }
    ensures layout { latest.new.layout ≡ latest.old.layout }
    ensures capacity { latest.new.capacity ≡ latest.old.capacity }
    ensures recovers { IsTrue (D.meaning disk.old).is_honest
        → Recovers latest.old.layout (D.meaning disk.old) (D.meaning disk.new) result }
{
    disk.sync()?;
    let gates = read_gates(disk)?;
    if !is_any_open(&gates) {
        return Ok(None);
    }
    let count = count_open(&gates);
    if let Some(bad) = load_records(disk, count, latest, header, block)? {
        return Ok(Some(bad));
    }
    close_gates(disk, count, latest)?;
    Ok(None)
}
