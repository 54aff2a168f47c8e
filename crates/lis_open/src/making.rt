//! Making an empty image.

ghost use Rattle.std.specs.Prelude.{◌≡◌, ◌*◌, ◌≤◌, ℕ, IsTrue, OnOk, OnErr, Err};
ghost use Rattle.lis_ports.specs.Runs.{IsDiskRun, Leaves, Always, IsSettled};
ghost use Rattle.lis_ports.specs.Calls.{DiskFaultEnds, UsesDisk};
ghost use Rattle.lis_journal.specs.Record.{block};
ghost use Rattle.lis_model.specs.Ranges.{are_in_range};
ghost use Rattle.lis_model.specs.Image.{image_blocks};
ghost use Rattle.lis_model.specs.State.{empty_state};
ghost use Rattle.lis_store.specs.Stands.{Stands};
ghost use Rattle.lis_open.specs.Makes.{InMaking, IsMade, IsSettledAt, IsSpare};
ghost use Rattle.lis_open.specs.Faults.{IsShortWhere, HasMakeCause};
ghost use Rattle.lis_open.specs.declared.making.MakeFault.TheVariants.{TooShort, DiskFault as DiskFailed};

use crate::clearing::{FIRST_BYTE, take_name, wipe, write_first};
use lis_limits::BLOCK_LEN;
use lis_model::limits::{Limits, image_blocks};
use lis_ports::{Disk, Failed};
use thiserror::Error;

/// Why an image was not made.
#[derive(Debug, Drop, Error)]
pub enum MakeFault {
    /// How many bytes the disk has, and how many the image takes.
    #[error("the disk has {0} bytes, and the image takes {1}")]
    TooShort(u64, u64),
    #[error("the disk failed")]
    DiskFault,
}

impl From<Failed> for MakeFault {
    ghost use Rattle.std.specs.Prelude.{◌≡◌};
    ghost use Rattle.lis_open.specs.declared.making.MakeFault.TheVariants.{DiskFault};

    ghost from_gives = { λ _ fault. fault ≡ DiskFault };

    fn from(_: Failed) -> Self {
        MakeFault::DiskFault
    }
}

// Makes an image on a disk that is long enough.
fn write_image<D: Disk>(disk: &mut D, limits: &Limits) -> Result<(), Failed>
    requires range { IsTrue (are_in_range limits.now) }
    requires long { BLOCK_LEN * image_blocks limits.now ≤ (D.meaning disk.old).len }
    ensures disk { UsesDisk (D.meaning disk.old) (D.meaning disk.new) result }
    ensures made { OnOk result (IsTrue (D.meaning disk.old).is_honest
        → Always (D.meaning disk.new) (λ image. Stands image (empty_state limits.now))) }
    ensures any_moment { IsTrue (D.meaning disk.old).is_honest → IsSettled (D.meaning disk.old) (D.meaning disk.old).bytes
        → Leaves (D.meaning disk.old) (D.meaning disk.new) (InMaking limits.now (D.meaning disk.old).bytes) }
    ensures left { OnOk result (IsTrue (D.meaning disk.old).is_honest
        → Always (D.meaning disk.new) (IsMade limits.now (D.meaning disk.old).bytes)) }
    ensures settled { OnOk result (IsTrue (D.meaning disk.old).is_honest → IsSettled (D.meaning disk.new) (D.meaning disk.new).bytes) }
    ensures spare { (n : ℕ) → IsTrue (D.meaning disk.old).is_honest → IsSpare limits.now n
        → OnErr result (IsSettledAt (D.meaning disk.old) n)
        → block n (D.meaning disk.new).bytes ≡ block n (D.meaning disk.old).bytes }
{
    take_name(disk)?;
    wipe(disk, limits)?;
    write_first(disk, FIRST_BYTE)
}

/// Makes an image of the empty state. It allocates no memory.
pub fn make<D: Disk>(disk: &mut D, limits: &Limits) -> Result<(), MakeFault>
    requires range { IsTrue (are_in_range limits.now) }
    ensures run { IsDiskRun (D.meaning disk.old) (D.meaning disk.new) }

    // A disk is too short if it has fewer bytes than the image. Then it is left as it was.
    ensures short { IsShortWhere (D.meaning disk.old).len (BLOCK_LEN * image_blocks limits.now) result }
    ensures untouched { (len need : ℕ) → result ≡ Err (TooShort len need) → disk.new ≡ disk.old }
    ensures cause { HasMakeCause (D.meaning disk.old).disk_faults (D.meaning disk.new).disk_faults result }
    ensures first_fault { DiskFaultEnds (D.meaning disk.old) (D.meaning disk.new) }
    ensures made { OnOk result (IsTrue (D.meaning disk.old).is_honest
        → Always (D.meaning disk.new) (λ image. Stands image (empty_state limits.now))) }

    // If nothing is unsynced at the start, a crash leaves the initial image, one of the empty state, or one of no state. In each of them
    // the records, the data blocks and what is past the image are as they were.
    ensures any_moment { IsTrue (D.meaning disk.old).is_honest → IsSettled (D.meaning disk.old) (D.meaning disk.old).bytes
        → Leaves (D.meaning disk.old) (D.meaning disk.new) (InMaking limits.now (D.meaning disk.old).bytes) }

    // It writes the super block, and zeros to the gate block and the home blocks before the data blocks. Every other block is as it was. If
    // the disk failed, this holds of each block that a crash at the start left as it read.
    ensures left { OnOk result (IsTrue (D.meaning disk.old).is_honest
        → Always (D.meaning disk.new) (IsMade limits.now (D.meaning disk.old).bytes)) }

    // After that nothing is unsynced: a crash leaves the bytes as they read.
    ensures settled { OnOk result (IsTrue (D.meaning disk.old).is_honest → IsSettled (D.meaning disk.new) (D.meaning disk.new).bytes) }
    ensures spare { (n : ℕ) → IsTrue (D.meaning disk.old).is_honest → IsSpare limits.now n
        → (result ≡ Err DiskFailed → IsSettledAt (D.meaning disk.old) n)
        → block n (D.meaning disk.new).bytes ≡ block n (D.meaning disk.old).bytes }
{
    let need = u64::from(image_blocks(limits)) * BLOCK_LEN as u64;
    let len = disk.len();
    if len < need {
        return Err(MakeFault::TooShort(len, need));
    }
    write_image(disk, limits)?;
    Ok(())
}
