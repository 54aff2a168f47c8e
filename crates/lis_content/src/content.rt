//! The bytes of a file: put into data blocks, and dropped.

ghost use Rattle.std.specs.Prelude.{◌≡◌, ◌+◌, ◌≤◌, [], false, length, slice_set, IsTrue, MatchResult};
ghost use Rattle.lis_model.specs.State.{blocks_needed};
ghost use Rattle.lis_journal.specs.Images.{JournalIsUsable};
ghost use Rattle.lis_blockmap.specs.Bitmap.{free_count};
ghost use Rattle.lis_content.specs.Content.{given, are_taken};
ghost use Rattle.lis_content.specs.Putting.{IsPut, IsRefused};
ghost use Rattle.lis_model.specs.Sets.{are_distinct};
ghost use Rattle.lis_journal.specs.Record.{homes_start};

use crate::blocks::{home, stage_front};
use crate::fault::PutFault;
use arrayvec::ArrayVec;
use lis_blockmap::BlockMap;
use lis_journal::Journal;
use lis_limits::{BLOCK_LEN, MAX_FILE, SLOT_BLOCKS};
use lis_ports::Disk;

/// Frees the old blocks, and stages the bytes in blocks that it takes. Whole blocks are staged, so it makes no disk call.
pub fn put<D: Disk>(
    map: &mut BlockMap,
    journal: &mut Journal,
    disk: &mut D,
    base: u32,
    old: &[u32],
    bytes: &[u8],
) -> Result<ArrayVec<u32, 16>, PutFault>
    requires few { length bytes.now ≤ MAX_FILE }
    requires distinct { IsTrue (are_distinct old.now) }
    requires taken { IsTrue (are_taken map.old old.now) }
    requires home { homes_start journal.old.layout ≤ base }
    requires within { base + length map.old ≤ journal.old.layout.blocks }
    requires usable { JournalIsUsable journal.old (D.meaning disk.old) }
    requires unplaced { journal.old.placed ≡ [] }
    requires room { length journal.old.staged + SLOT_BLOCKS ≤ journal.old.capacity.staged }
    ensures ended { MatchResult result
        (λ blocks. IsPut base old.now bytes.now map.old map.new journal.old journal.new blocks.items)
        (λ fault. IsRefused old.now bytes.now map.old map.new journal.old journal.new fault) }
    ensures disk { disk.new ≡ disk.old }
{
    let needed = bytes.len().div_ceil(BLOCK_LEN);
    if map.free() as usize + old.len() < needed {
        return Err(PutFault::NoSpace);
    }
    drop_file(map, old);
    Ok(stage_bytes(map, journal, base, bytes))
}

// Stages the bytes in blocks that it takes. All blocks except the last are whole.
fn stage_bytes(
    map: &mut BlockMap,
    journal: &mut Journal,
    base: u32,
    bytes: &[u8],
) -> ArrayVec<u32, 16>
    requires few { length bytes.now ≤ MAX_FILE }
    requires enough { blocks_needed (length bytes.now) ≤ free_count map.old }
    requires home { homes_start journal.old.layout ≤ base }
    requires within { base + length map.old ≤ journal.old.layout.blocks }
    requires unbroken { journal.old.is_broken ≡ false }
    requires unplaced { journal.old.placed ≡ [] }
    requires room { length journal.old.staged + SLOT_BLOCKS ≤ journal.old.capacity.staged }
    ensures { IsPut base [] bytes.now map.old map.new journal.old journal.new result.items }
{
    let mut taken = ArrayVec::new();
    let mut rest = bytes;
    while !rest.is_empty() {
        let (front, behind) = rest.split_at(rest.len().min(BLOCK_LEN));
        let Some(n) = map.take(0) else { unreachable!() };
        stage_front(journal, home(journal.blocks(), base, n), front);
        taken.push(n);
        rest = behind;
    }
    taken
}

/// Frees these blocks.
pub fn drop_file(map: &mut BlockMap, blocks: &[u32])
    requires distinct { IsTrue (are_distinct blocks.now) }
    requires taken { IsTrue (are_taken map.old blocks.now) }
    ensures given { map.new ≡ given map.old blocks.now }
    ensures len { length map.new ≡ length map.old }
    ensures more { free_count map.new ≡ free_count map.old + length blocks.now }
{
    for n in blocks {
        map.give(*n);
    }
}

// Frees a block, if it is taken.
fn give_taken(map: &mut BlockMap, n: u32)
    ensures { map.new ≡ slice_set map.old n false }
{
    if map.is_taken(n) {
        map.give(n);
    }
}

/// Frees those of these blocks that are taken. In a well-formed image all blocks of a file are.
pub fn give_all(map: &mut BlockMap, blocks: &[u32])
    ensures { map.new ≡ given map.old blocks.now }
{
    for n in blocks {
        give_taken(map, *n);
    }
}
