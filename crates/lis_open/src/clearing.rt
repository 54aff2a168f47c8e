//! What making an image writes: its first byte in a separate write, and the blocks that it does not leave as they are.

ghost use Rattle.std.specs.Prelude.{[], ◌∷◌, ◌≡◌, ◌-◌, ◌*◌, ◌≤◌, IsTrue, IfOk, OnOk};
ghost use Rattle.lis_ports.specs.Bytes.{put, Torn};
ghost use Rattle.lis_ports.specs.Runs.{Leaves, Always, IsSettled};
ghost use Rattle.lis_ports.specs.Calls.{UsesDisk};
ghost use Rattle.lis_journal.specs.Spreads.{Spreads};
ghost use Rattle.lis_model.specs.Ranges.{are_in_range};
ghost use Rattle.lis_model.specs.Image.{image_blocks};
ghost use Rattle.lis_open.specs.Makes.{Same, first_byte, IsNameless, IsSpared, AreZeros, IsWiped, IsWiping, rest_of_super};

use lis_fields::write_super;
use lis_kept::{data_start, properties_start};
use lis_limits::BLOCK_LEN;
use lis_model::limits::Limits;
use lis_ports::{Disk, Failed};

/// The byte that an image begins with.
pub const FIRST_BYTE: u8 = b'L';

// The block of the gates.
const GATE_BLOCK: u32 = 1;

// Syncs, and reads the first byte.
fn read_first<D: Disk>(disk: &mut D) -> Result<u8, Failed>
    requires { 1 ≤ (D.meaning disk.old).len }
    ensures disk { UsesDisk (D.meaning disk.old) (D.meaning disk.new) result }
    ensures quiet { IsTrue (D.meaning disk.old).is_honest → Spreads (D.meaning disk.old) (D.meaning disk.new) Same }
    ensures read { IfOk result (λ first. IsTrue (D.meaning disk.old).is_honest
        → IsSettled (D.meaning disk.new) (D.meaning disk.old).bytes × (first ≡ first_byte (D.meaning disk.old).bytes)) }
{
    disk.sync()?;
    let mut first = [0; 1];
    disk.read_at(0, &mut first)?;
    Ok(first[0])
}

/// Writes the first byte, in a separate write, and syncs.
pub fn write_first<D: Disk>(disk: &mut D, value: u8) -> Result<(), Failed>
    requires { 1 ≤ (D.meaning disk.old).len }
    ensures disk { UsesDisk (D.meaning disk.old) (D.meaning disk.new) result }
    ensures spreads { IsTrue (D.meaning disk.old).is_honest → Spreads (D.meaning disk.old) (D.meaning disk.new) (Torn 0 1) }
    ensures settled { OnOk result (IsTrue (D.meaning disk.old).is_honest
        → IsSettled (D.meaning disk.new) (put (D.meaning disk.old).bytes 0 (value ∷ []))) }
{
    disk.write_at(0, &[value])?;
    disk.sync()
}

/// Syncs. If the image begins with the first byte of an image, it then gets another first byte, and this is synced.
pub fn take_name<D: Disk>(disk: &mut D) -> Result<(), Failed>
    requires { 1 ≤ (D.meaning disk.old).len }
    ensures disk { UsesDisk (D.meaning disk.old) (D.meaning disk.new) result }
    ensures spreads { IsTrue (D.meaning disk.old).is_honest → Spreads (D.meaning disk.old) (D.meaning disk.new) (Torn 0 1) }
    ensures torn { OnOk result (IsTrue (D.meaning disk.old).is_honest
        → Always (D.meaning disk.new) (Torn 0 1 (D.meaning disk.old).bytes)) }

    // If nothing is unsynced at the start, each image is the initial one or begins with another byte.
    ensures any_moment { IsTrue (D.meaning disk.old).is_honest → IsSettled (D.meaning disk.old) (D.meaning disk.old).bytes
        → Leaves (D.meaning disk.old) (D.meaning disk.new) (IsSpared (D.meaning disk.old).bytes) }
    ensures nameless { OnOk result (IsTrue (D.meaning disk.old).is_honest → Always (D.meaning disk.new) IsNameless) }
{
    if read_first(disk)? == FIRST_BYTE {
        return write_first(disk, 0);
    }
    Ok(())
}

// Fills the blocks from `first` up to `end` with zeros.
fn clear_blocks<D: Disk>(disk: &mut D, first: u32, end: u32) -> Result<(), Failed>
    requires order { first ≤ end }
    requires long { BLOCK_LEN * end ≤ (D.meaning disk.old).len }
    ensures disk { UsesDisk (D.meaning disk.old) (D.meaning disk.new) result }
    ensures spreads { IsTrue (D.meaning disk.old).is_honest
        → Spreads (D.meaning disk.old) (D.meaning disk.new) (Torn (BLOCK_LEN * first) (BLOCK_LEN * (end - first))) }
    ensures torn { OnOk result (IsTrue (D.meaning disk.old).is_honest
        → Torn (BLOCK_LEN * first) (BLOCK_LEN * (end - first)) (D.meaning disk.old).bytes (D.meaning disk.new).bytes) }
    ensures cleared { OnOk result (IsTrue (D.meaning disk.old).is_honest → AreZeros first end (D.meaning disk.new).bytes) }
{
    let zeros = [0; BLOCK_LEN];
    for n in first..end {
        disk.write_at(u64::from(n) * BLOCK_LEN as u64, &zeros)?;
    }
    Ok(())
}

// Writes the super block, except its first byte.
fn write_rest<D: Disk>(disk: &mut D, limits: &Limits) -> Result<(), Failed>
    requires range { IsTrue (are_in_range limits.now) }
    requires long { BLOCK_LEN ≤ (D.meaning disk.old).len }
    ensures disk { UsesDisk (D.meaning disk.old) (D.meaning disk.new) result }
    ensures spreads { IsTrue (D.meaning disk.old).is_honest → Spreads (D.meaning disk.old) (D.meaning disk.new) (Torn 1 (BLOCK_LEN - 1)) }
    ensures written { OnOk result (IsTrue (D.meaning disk.old).is_honest
        → (D.meaning disk.new).bytes ≡ put (D.meaning disk.old).bytes 1 (rest_of_super limits.now)) }
{
    let mut bytes = [0; BLOCK_LEN];
    write_super(limits, &mut bytes);
    let (_, rest) = bytes.split_at(1);
    disk.write_at(1, rest)
}

/// Writes all of an empty image except its first byte, and syncs: the super block, the gates, and the home blocks before the data blocks.
pub fn wipe<D: Disk>(disk: &mut D, limits: &Limits) -> Result<(), Failed>
    requires range { IsTrue (are_in_range limits.now) }
    requires long { BLOCK_LEN * image_blocks limits.now ≤ (D.meaning disk.old).len }
    ensures disk { UsesDisk (D.meaning disk.old) (D.meaning disk.new) result }
    ensures spreads { IsTrue (D.meaning disk.old).is_honest
        → Spreads (D.meaning disk.old) (D.meaning disk.new) (IsWiping limits.now) }
    ensures wiped { OnOk result (IsTrue (D.meaning disk.old).is_honest → Always (D.meaning disk.new) (IsWiped limits.now)) }
{
    write_rest(disk, limits)?;
    clear_blocks(disk, GATE_BLOCK, GATE_BLOCK + 1)?;
    clear_blocks(disk, properties_start(limits), data_start(limits))?;
    disk.sync()
}
