//! What is read of a file's content: enough of it to derive the same words as from all of it.

ghost use Rattle.std.specs.Prelude.{◌≡◌, ◌^◌, ◌<◌, ◌≤◌, nat_lt, ℕ, List, [], length, IsTrue, OnOk};
ghost use Rattle.std.specs.List.{list_all};
ghost use Rattle.lis_ports.specs.Calls.{ReadsDisk};
ghost use Rattle.lis_journal.specs.Images.{Fits, JournalIsUsable};
ghost use Rattle.lis_journal.specs.Record.{homes_start};
ghost use Rattle.lis_content.specs.Content.{are_within, content};
ghost use Rattle.lis_fields.specs.Layouts.{is_record};
ghost use Rattle.lis_kept.specs.Telling.{blocks_told, bytes_told};
ghost use Rattle.lis_model.specs.State.{blocks_needed};
ghost use Rattle.lis_open.specs.Reading.{IsReadable};
ghost use Rattle.lis_open.specs.ReadFiles.{HaveWordsOf};

use lis_content::Buffer;
use lis_derive::gives_all;
use lis_fields::FileRec;
use lis_journal::Journal;
use lis_kept::data_start;
use lis_limits::{BLOCK_LEN, V3_MAX_FILE};
use lis_model::limits::Limits;
use lis_ports::{Disk, Failed};
use lis_words::Name;

// Reads the blocks of a content in order, until those that were read give all words. The other bytes may have any value.
fn read_front<D: Disk>(
    disk: &mut D,
    journal: &Journal,
    base: u32,
    name: &Name,
    blocks: &[u32],
    bytes: &mut Buffer,
) -> Result<(), Failed>
    requires few { length bytes.old ≤ V3_MAX_FILE }
    requires count { length blocks.now ≡ blocks_needed (length bytes.old) }
    requires home { homes_start journal.now.layout ≤ base }
    requires within { IsTrue (are_within base journal.now.layout.blocks blocks.now) }
    requires image { journal.now.layout.blocks < 2 ^ 32 }
    requires clean { journal.now.staged ≡ [] }
    requires usable { JournalIsUsable journal.now (D.meaning disk.old) }
    ensures disk { ReadsDisk (D.meaning disk.old) (D.meaning disk.new) result }
    ensures size { OnOk result (length bytes.new ≡ length bytes.old) }
    ensures words { OnOk result ((kept : ℕ → List ℕ) → Fits journal.now (D.meaning disk.old) kept
        → HaveWordsOf name.now (content base blocks.now (length bytes.old) kept) bytes.new) }
{
    for (n, block) in blocks.iter().enumerate() {
        let end = BLOCK_LEN * n;
        let seen = end.saturating_sub(BLOCK_LEN);
        if gives_all(name, &bytes.bytes()[..end], seen) {
            return Ok(());
        }
        bytes.read_block(journal, disk, base + *block, n as u32)?;
    }
    Ok(())
}

/// Reads enough of a file to derive all words of its bytes; the buffer has as many bytes as the file. The blocks are all that the file has,
/// those of its content first.
pub fn read_content<D: Disk>(
    disk: &mut D,
    journal: &Journal,
    limits: &Limits,
    rec: &FileRec,
    blocks: &[u32],
    bytes: &mut Buffer,
) -> Result<(), Failed>
    requires readable { IsReadable limits.now journal.now (D.meaning disk.old) }
    requires form { IsTrue (is_record limits.now rec.now) }
    requires below { IsTrue (list_all (λ n. nat_lt n limits.now.blocks) blocks.now) }
    requires count { blocks_needed rec.now.size ≤ length blocks.now }
    ensures disk { ReadsDisk (D.meaning disk.old) (D.meaning disk.new) result }
    ensures size { OnOk result (length bytes.new ≡ rec.now.size) }
    ensures words { OnOk result ((kept : ℕ → List ℕ) → Fits journal.now (D.meaning disk.old) kept
        → blocks.now ≡ blocks_told limits.now kept rec.now
        → HaveWordsOf rec.now.name (bytes_told limits.now kept rec.now) bytes.new) }
{
    bytes.resize(rec.size);
    let count = rec.size.div_ceil(BLOCK_LEN as u32) as usize;
    let (content, _) = blocks.split_at(count);
    read_front(disk, journal, data_start(limits), &rec.name, content, bytes)
}
