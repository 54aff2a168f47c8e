//! The blocks of files: those that a slot lists, and those that index blocks list.

ghost use Rattle.std.specs.Prelude.{◌≡◌, ◌≤◌, ℕ, List, [], nat_lt, not, ◌&&◌, length, IsTrue, IfOk};
ghost use Rattle.std.specs.Bool.{OnTrue};
ghost use Rattle.lis_ports.specs.Calls.{ReadsDisk};
ghost use Rattle.lis_journal.specs.Images.{Fits};
ghost use Rattle.lis_blockmap.specs.Bitmap.{is_taken};
ghost use Rattle.lis_content.specs.Content.{are_free};
ghost use Rattle.lis_fields.specs.Layouts.{is_record};
ghost use Rattle.lis_model.specs.State.{blocks_needed};
ghost use Rattle.lis_open.specs.Reading.{IsReadable};
ghost use Rattle.lis_open.specs.ReadFiles.{AreUsable, AreItsBlocks};
ghost use Rattle.lis_model.specs.Sets.{are_distinct, has_number};

use arrayvec::ArrayVec;
use lis_blockmap::BlockMap;
use lis_content::{MOST_BLOCKS, read_blocks};
use lis_fields::FileRec;
use lis_journal::Journal;
use lis_kept::laid_by;
use lis_model::limits::Limits;
use lis_ports::{Disk, Failed};

// Whether there is this data block, and it is free.
fn is_free(map: &BlockMap, block: u32) -> bool
    ensures { result ≡ (nat_lt block (length map.now) && not (is_taken map.now block)) }
{
    (block as usize) < map.len() && !map.is_taken(block)
}

// Whether there are these data blocks, and they are free.
fn are_free(map: &BlockMap, blocks: &[u32]) -> bool
    ensures { result ≡ are_free map.now blocks.now }
{
    blocks.iter().all(|block| is_free(map, *block))
}

// Whether the number is one of the others.
fn is_among(number: u32, others: &[u32]) -> bool
    ensures { result ≡ has_number others.now number }
{
    others.iter().any(|other| *other == number)
}

// Whether no number occurs twice.
fn are_distinct(numbers: &[u32]) -> bool
    ensures { result ≡ are_distinct numbers.now }
{
    for (k, number) in numbers.iter().enumerate() {
        let (_, behind) = numbers.split_at(k + 1);
        if is_among(*number, behind) {
            return false;
        }
    }
    true
}

/// Reads all blocks of a file, those of its content first, into a list that is empty. The result is false if an index block is malformed,
/// if there is no block of one of the numbers, if an earlier file uses one, or if one occurs twice.
pub fn free_blocks<D: Disk>(
    disk: &mut D,
    journal: &Journal,
    limits: &Limits,
    map: &BlockMap,
    rec: &FileRec,
    blocks: &mut ArrayVec<u32, MOST_BLOCKS>,
) -> Result<bool, Failed>
    requires readable { IsReadable limits.now journal.now (D.meaning disk.old) }
    requires form { IsTrue (is_record limits.now rec.now) }
    requires map { length map.now ≡ limits.now.blocks }
    requires none { blocks.old.items ≡ [] }
    ensures disk { ReadsDisk (D.meaning disk.old) (D.meaning disk.new) result }
    ensures count { IfOk result (λ usable. OnTrue usable (blocks_needed rec.now.size ≤ length blocks.new.items)) }
    ensures usable { IfOk result (λ usable. OnTrue usable (AreUsable map.now rec.now.blocks blocks.new.items)) }
    ensures found { IfOk result (λ usable. (kept : ℕ → List ℕ) → Fits journal.now (D.meaning disk.old) kept
        → AreItsBlocks limits.now kept map.now rec.now blocks.new.items usable) }
{
    if !are_free(map, rec.blocks.as_slice()) {
        return Ok(false);
    }
    let are_formed = read_blocks(journal, disk, laid_by(limits, rec), blocks)?;
    Ok(are_formed && are_free(map, blocks.as_slice()) && are_distinct(blocks.as_slice()))
}
