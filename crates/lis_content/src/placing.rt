//! The bytes of a file, placed in free blocks without a record.

ghost use Rattle.std.specs.Prelude.{◌≡◌, ◌+◌, ◌*◌, ◌/◌, ◌<◌, ◌≤◌, ◌++◌, [], false, true, length, slice_set, IsTrue, IfOk, Err, MatchResult};
ghost use Rattle.std.specs.List.{flat_map, range_with_len};
ghost use Rattle.byteorder.specs.Endian.{little_bytes};
ghost use Rattle.lis_ports.specs.Runs.{IsDiskRun};
ghost use Rattle.lis_ports.specs.Calls.{DiskFaultEnds, UsesDisk};
ghost use Rattle.lis_journal.specs.Images.{JournalIsUsable};
ghost use Rattle.lis_model.specs.State.{blocks_needed, blocks_taken};
ghost use Rattle.lis_blockmap.specs.Bitmap.{free_count, is_taken};
ghost use Rattle.lis_model.specs.Sets.{fit};
ghost use Rattle.lis_model.specs.Ranges.{most_blocks};
ghost use Rattle.lis_fields.specs.Layouts.{number_width};
ghost use Rattle.lis_content.specs.Placing.{AreUnstaged, IsLaid, IsPlaced, IsTornOff, IsUnplaced, HasPlaceCause, TakesRow, RowOf, RowTorn, OnePlaced};
ghost use Rattle.lis_content.specs.declared.fault.PutFault.TheVariants.{NoSpace};
ghost use Rattle.lis_journal.specs.Record.{homes_start};

use crate::blocks::{fill, home};
use crate::fault::PutFault;
use crate::large::is_large;
use arrayvec::ArrayVec;
use lis_blockmap::BlockMap;
use lis_fields::{number_width, write_wide};
use lis_journal::Journal;
use lis_limits::{
    BLOCK_LEN, MAX_FILE_BLOCKS, NUMBERS_PER_INDEX, SLOT_BLOCKS, V3_MAX_BLOCKS, V3_MAX_FILE,
};
use lis_model::limits::blocks_taken;
use lis_ports::{Disk, Failed};

// Consecutive blocks.
#[derive(Clone, Copy)]
struct Row {
    first: u32,
    count: u32,
}

// Takes this block, if it is free.
fn take_next(map: &mut BlockMap, n: u32) -> bool
    requires within { n < length map.old }
    ensures was_free { IsTrue result → is_taken map.old n ≡ false }
    ensures taken { IsTrue result → map.new ≡ slice_set map.old n true }
    ensures fewer { IsTrue result → free_count map.new + 1 ≡ free_count map.old }
    ensures stays { result ≡ false → map.new ≡ map.old }
{
    if map.is_taken(n) {
        return false;
    }
    map.mark(n);
    true
}

// Takes consecutive free blocks, at least one and at most `most`. The search for them begins at block `from`.
fn take_row(map: &mut BlockMap, from: u32, most: u32) -> Row
    requires some { 0 < free_count map.old }
    requires most { (0 < most) × (most ≤ MAX_FILE_BLOCKS) }
    ensures row { TakesRow map.old map.new result.first result.count }
    ensures count { (0 < result.count) × (result.count ≤ most) }
{
    let Some(first) = map.take(from) else {
        unreachable!()
    };
    let limit = most.min(map.len() as u32 - first);
    let mut count = 1;
    while count < limit {
        if !take_next(map, first + count) {
            return Row { first, count };
        }
        count += 1;
    }
    Row { first, count }
}

// Takes consecutive free blocks, from block `from` on if there are any, and places the first whole blocks of the bytes in them, in one write.
fn place_row<D: Disk>(
    map: &mut BlockMap,
    journal: &mut Journal,
    disk: &mut D,
    base: u32,
    from: u32,
    bytes: &[u8],
) -> Result<Row, Failed>
    requires whole { BLOCK_LEN ≤ length bytes.now }
    requires few { length bytes.now ≤ V3_MAX_FILE }
    requires some { 0 < free_count map.old }
    requires home { homes_start journal.old.layout ≤ base }
    requires within { base + length map.old ≤ journal.old.layout.blocks }
    requires usable { JournalIsUsable journal.old (D.meaning disk.old) }
    requires unstaged { AreUnstaged base map.old journal.old.staged }
    requires room { length journal.old.placed + length bytes.now / BLOCK_LEN ≤ journal.old.capacity.placed }
    ensures ended { MatchResult result
        (λ row. RowOf base bytes.now map.old map.new journal.old journal.new (D.meaning disk.old) (D.meaning disk.new) row.first row.count)
        (λ _. RowTorn base map.old map.new journal.old journal.new (D.meaning disk.old) (D.meaning disk.new)) }
    ensures disk { UsesDisk (D.meaning disk.old) (D.meaning disk.new) result }
{
    let row = take_row(map, from, (bytes.len() / BLOCK_LEN) as u32);
    let first = home(journal.blocks(), base, row.first);
    let front = &bytes[..row.count as usize * BLOCK_LEN];
    journal.place_run(disk, first, row.count, front)?;
    Ok(row)
}

// Takes a free block, from block `from` on if there is one, and places the bytes as its first ones, with zeros after them.
fn place_block<D: Disk>(
    map: &mut BlockMap,
    journal: &mut Journal,
    disk: &mut D,
    base: u32,
    from: u32,
    bytes: &[u8],
) -> Result<u32, Failed>
    requires few { length bytes.now ≤ BLOCK_LEN }
    requires some { 0 < free_count map.old }
    requires home { homes_start journal.old.layout ≤ base }
    requires within { base + length map.old ≤ journal.old.layout.blocks }
    requires usable { JournalIsUsable journal.old (D.meaning disk.old) }
    requires unstaged { AreUnstaged base map.old journal.old.staged }
    requires room { length journal.old.placed < journal.old.capacity.placed }
    ensures ended { MatchResult result
        (λ n. OnePlaced base bytes.now map.old map.new journal.old journal.new (D.meaning disk.old) (D.meaning disk.new) n)
        (λ _. RowTorn base map.old map.new journal.old journal.new (D.meaning disk.old) (D.meaning disk.new)) }
    ensures disk { UsesDisk (D.meaning disk.old) (D.meaning disk.new) result }
{
    let mut block = [0; BLOCK_LEN];
    fill(&mut block, bytes);
    let row = place_row(map, journal, disk, base, from, &block)?;
    Ok(row.first)
}

// Appends the numbers of a row to those that are there.
fn push_row(taken: &mut ArrayVec<u32, MAX_FILE_BLOCKS>, row: Row)
    requires room { length taken.old.items + row.count ≤ MAX_FILE_BLOCKS }
    requires narrow { row.first + row.count ≤ V3_MAX_BLOCKS }
    ensures { taken.new.items ≡ taken.old.items ++ range_with_len row.first row.count }
{
    for k in 0..row.count {
        taken.push(row.first + k);
    }
}

// Places the bytes in free blocks: whole blocks row by row, and then what is left. Their numbers come into a list that is empty. The
// result is the number after the last of them. No block below it is free then, since the first search begins at block 0.
fn place_bytes<D: Disk>(
    map: &mut BlockMap,
    journal: &mut Journal,
    disk: &mut D,
    base: u32,
    bytes: &[u8],
    taken: &mut ArrayVec<u32, MAX_FILE_BLOCKS>,
) -> Result<u32, Failed>
    requires numbered { length map.old ≤ V3_MAX_BLOCKS }
    requires few { length bytes.now ≤ V3_MAX_FILE }
    requires enough { blocks_needed (length bytes.now) ≤ free_count map.old }
    requires home { homes_start journal.old.layout ≤ base }
    requires within { base + length map.old ≤ journal.old.layout.blocks }
    requires usable { JournalIsUsable journal.old (D.meaning disk.old) }
    requires unplaced { journal.old.placed ≡ [] }
    requires unstaged { AreUnstaged base map.old journal.old.staged }
    requires room { blocks_needed (length bytes.now) ≤ journal.old.capacity.placed }
    requires none { taken.old.items ≡ [] }
    ensures ended { MatchResult result
        (λ _. IsLaid base bytes.now map.old map.new journal.old journal.new (D.meaning disk.old) (D.meaning disk.new) taken.new.items)
        (λ _. IsTornOff base map.old map.new journal.old journal.new (D.meaning disk.old) (D.meaning disk.new)) }
    ensures disk { UsesDisk (D.meaning disk.old) (D.meaning disk.new) result }
{
    let mut rest = bytes;
    let mut from = 0;
    while rest.len() >= BLOCK_LEN {
        let row = place_row(map, journal, disk, base, from, rest)?;
        from = row.first + row.count;
        push_row(taken, row);
        let (_, behind) = rest.split_at(row.count as usize * BLOCK_LEN);
        rest = behind;
    }
    if rest.is_empty() {
        return Ok(from);
    }
    let n = place_block(map, journal, disk, base, from, rest)?;
    taken.push(n);
    Ok(n + 1)
}

// Places an index block with these numbers. The search for a free block begins at block `from`.
fn place_index<D: Disk>(
    map: &mut BlockMap,
    journal: &mut Journal,
    disk: &mut D,
    version: u32,
    base: u32,
    from: u32,
    numbers: &[u32],
) -> Result<u32, Failed>
    requires count { length numbers.now ≤ NUMBERS_PER_INDEX }
    requires fit { IsTrue (fit (number_width version) numbers.now) }
    requires some { 0 < free_count map.old }
    requires home { homes_start journal.old.layout ≤ base }
    requires within { base + length map.old ≤ journal.old.layout.blocks }
    requires usable { JournalIsUsable journal.old (D.meaning disk.old) }
    requires unstaged { AreUnstaged base map.old journal.old.staged }
    requires room { length journal.old.placed < journal.old.capacity.placed }
    ensures ended { MatchResult result
        (λ n. OnePlaced base (flat_map (little_bytes (number_width version)) numbers.now) map.old map.new journal.old journal.new
        (D.meaning disk.old) (D.meaning disk.new) n)
        (λ _. RowTorn base map.old map.new journal.old journal.new (D.meaning disk.old) (D.meaning disk.new)) }
    ensures disk { UsesDisk (D.meaning disk.old) (D.meaning disk.new) result }
{
    let mut held = [0; BLOCK_LEN];
    let (used, _) = held.split_at_mut(number_width(version) * numbers.len());
    write_wide(numbers, used, version);
    place_block(map, journal, disk, base, from, used)
}

// The numbers, as a slot has them.
fn slot_of(numbers: &[u32]) -> ArrayVec<u32, 16>
    requires { length numbers.now ≤ SLOT_BLOCKS }
    ensures { result.items ≡ numbers.now }
{
    let mut slot = ArrayVec::new();
    slot.try_extend_from_slice(numbers).unwrap();
    slot
}

// Places the bytes, and then the index blocks if there are any, which number at most 1,024 blocks each.
fn place_all<D: Disk>(
    map: &mut BlockMap,
    journal: &mut Journal,
    disk: &mut D,
    version: u32,
    base: u32,
    bytes: &[u8],
) -> Result<ArrayVec<u32, 16>, Failed>
    requires numbered { length map.old ≤ most_blocks version }
    requires few { length bytes.now ≤ V3_MAX_FILE }
    requires enough { blocks_taken 2 (length bytes.now) ≤ free_count map.old }
    requires home { homes_start journal.old.layout ≤ base }
    requires within { base + length map.old ≤ journal.old.layout.blocks }
    requires usable { JournalIsUsable journal.old (D.meaning disk.old) }
    requires unplaced { journal.old.placed ≡ [] }
    requires unstaged { AreUnstaged base map.old journal.old.staged }
    requires room { blocks_taken 2 (length bytes.now) ≤ journal.old.capacity.placed }
    ensures ended { MatchResult result
        (λ slot. IsPlaced version base bytes.now map.old map.new journal.old journal.new (D.meaning disk.old) (D.meaning disk.new) slot.items)
        (λ _. IsTornOff base map.old map.new journal.old journal.new (D.meaning disk.old) (D.meaning disk.new)) }
    ensures disk { UsesDisk (D.meaning disk.old) (D.meaning disk.new) result }
{
    let mut numbers = ArrayVec::new();
    let mut from = place_bytes(map, journal, disk, base, bytes, &mut numbers)?;
    if !is_large(bytes.len() as u32) {
        return Ok(slot_of(&numbers));
    }
    let mut slot = ArrayVec::new();
    let mut rest = numbers.as_slice();
    while !rest.is_empty() {
        let (front, behind) = rest.split_at(rest.len().min(NUMBERS_PER_INDEX as usize));
        let n = place_index(map, journal, disk, version, base, from, front)?;
        slot.push(n);
        from = n + 1;
        rest = behind;
    }
    Ok(slot)
}

/// Takes free blocks, and places the bytes and the index blocks in them: no record is written, and until the next commit a crash may leave
/// any bytes there. The result is the numbers for the slot. After a disk fault the journal is broken.
pub fn place_file<D: Disk>(
    map: &mut BlockMap,
    journal: &mut Journal,
    disk: &mut D,
    version: u32,
    base: u32,
    bytes: &[u8],
) -> Result<ArrayVec<u32, 16>, PutFault>
    requires numbered { length map.old ≤ most_blocks version }
    requires few { length bytes.now ≤ V3_MAX_FILE }
    requires home { homes_start journal.old.layout ≤ base }
    requires within { base + length map.old ≤ journal.old.layout.blocks }
    requires usable { JournalIsUsable journal.old (D.meaning disk.old) }
    requires unplaced { journal.old.placed ≡ [] }
    requires unstaged { AreUnstaged base map.old journal.old.staged }
    requires room { blocks_taken 2 (length bytes.now) ≤ journal.old.capacity.placed }
    ensures ended { MatchResult result
        (λ slot. IsPlaced version base bytes.now map.old map.new journal.old journal.new (D.meaning disk.old) (D.meaning disk.new) slot.items)
        (λ fault. IsUnplaced base bytes.now map.old map.new journal.old journal.new (D.meaning disk.old) (D.meaning disk.new) fault) }
    ensures refused { result ≡ Err NoSpace → disk.new ≡ disk.old }
    ensures run { IsDiskRun (D.meaning disk.old) (D.meaning disk.new) }
    ensures cause { HasPlaceCause (D.meaning disk.old).disk_faults (D.meaning disk.new).disk_faults result }
    ensures first_fault { DiskFaultEnds (D.meaning disk.old) (D.meaning disk.new) }
{
    if u64::from(map.free()) < blocks_taken(2, bytes.len() as u64) {
        return Err(PutFault::NoSpace);
    }
    match place_all(map, journal, disk, version, base, bytes) {
        Ok(slot) => Ok(slot),
        Err(Failed) => Err(PutFault::Disk),
    }
}
