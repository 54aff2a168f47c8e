//! One data block, or its first bytes.

ghost use Rattle.std.specs.Prelude.{◌≡◌, ◌⊎◌, ◌+◌, ◌<◌, ◌≤◌, ◌==◌, if◌then◌else◌, ℕ, List, false, length, take, IsTrue, OnOk};
ghost use Rattle.lis_ports.specs.Calls.{ReadsDisk};
ghost use Rattle.lis_journal.specs.Images.{Fits, look, is_among, JournalIsUsable};
ghost use Rattle.lis_journal.specs.Staging.{with_entry, has_entry};
ghost use Rattle.lis_words.specs.Bytes.{padded};
ghost use Rattle.lis_journal.specs.Record.{homes_start};

use lis_journal::Journal;
use lis_limits::BLOCK_LEN;
use lis_ports::{Disk, Failed};

/// The home of a data block, in an image of `blocks` blocks.
pub fn home(blocks: u32, base: u32, n: u32) -> u32
    requires { base + n < blocks }
    ensures { result ≡ base + n }
{
    base + n
}

/// Reads as many bytes of a block as the buffer has. A whole block is read straight into the buffer.
pub fn read_front<D: Disk>(
    journal: &Journal,
    disk: &mut D,
    n: u32,
    buf: &mut [u8],
) -> Result<(), Failed>
    requires home { homes_start journal.now.layout ≤ n }
    requires within { n < journal.now.layout.blocks }
    requires few { length buf.old ≤ BLOCK_LEN }
    requires usable { JournalIsUsable journal.now (D.meaning disk.old) }
    ensures front { OnOk result ((kept : ℕ → List ℕ) → Fits journal.now (D.meaning disk.old) kept
        → buf.new ≡ take (length buf.old) (look journal.now.staged n (kept n))) }
    ensures whole { OnOk result ((kept : ℕ → List ℕ) → Fits journal.now (D.meaning disk.old) kept
        → length (look journal.now.staged n (kept n)) ≡ BLOCK_LEN) }
    ensures disk { ReadsDisk (D.meaning disk.old) (D.meaning disk.new) result }
    ensures fits { (kept : ℕ → List ℕ) → Fits journal.now (D.meaning disk.old) kept
        → Fits journal.now (D.meaning disk.new) kept }
{
    if buf.len() == BLOCK_LEN {
        return journal.read(disk, n, buf);
    }
    let mut block = [0; BLOCK_LEN];
    journal.read(disk, n, &mut block)?;
    buf.copy_from_slice(&block[..buf.len()]);
    Ok(())
}

/// Writes the bytes into a block, and zeros after them.
pub fn fill(block: &mut [u8], bytes: &[u8])
    requires whole { length block.old ≡ BLOCK_LEN }
    requires few { length bytes.now ≤ BLOCK_LEN }
    ensures { block.new ≡ padded BLOCK_LEN bytes.now }
{
    let (front, rest) = block.split_at_mut(bytes.len());
    front.copy_from_slice(bytes);
    rest.fill(0);
}

/// Stages bytes as the first ones of a block that ends in zeros. A whole block is staged straight from them.
pub fn stage_front(journal: &mut Journal, n: u32, bytes: &[u8])
    requires home { homes_start journal.old.layout ≤ n }
    requires within { n < journal.old.layout.blocks }
    requires few { length bytes.now ≤ BLOCK_LEN }
    requires unbroken { journal.old.is_broken ≡ false }
    requires unplaced { is_among journal.old.placed n ≡ false }
    requires room { IsTrue (has_entry journal.old.staged n) ⊎ (length journal.old.staged < journal.old.capacity.staged) }
    ensures staged { journal.new ≡ record journal.old { staged = with_entry journal.old.staged n (padded BLOCK_LEN bytes.now) } }
    ensures looks { (m : ℕ) (old : List ℕ) → look journal.new.staged m old
        ≡ (if m == n then padded BLOCK_LEN bytes.now else look journal.old.staged m old) }
{
    if bytes.len() == BLOCK_LEN {
        journal.stage(n, bytes);
        return;
    }
    let mut block = [0; BLOCK_LEN];
    fill(&mut block, bytes);
    journal.stage(n, &block);
}
