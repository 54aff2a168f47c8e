//! Opening an image.

ghost use Rattle.std.specs.Prelude.{◌≡◌, ◌⊎◌, ◌*◌, ◌≤◌, ◌<◌, ℕ, false, IsTrue, IfOk, Err};
ghost use Rattle.lis_ports.specs.Calls.{DiskFaultEnds, OnlyReads};
ghost use Rattle.lis_ports.specs.Runs.{IsDiskRun, Leaves};
ghost use Rattle.lis_journal.specs.Images.{KeepsPast};
ghost use Rattle.lis_journal.specs.Record.{has_open};
ghost use Rattle.lis_journal.specs.Recovery.{IsSettledPast};
ghost use Rattle.lis_model.specs.Ranges.{are_in_range};
ghost use Rattle.lis_model.specs.declared.limits.Limits.{Limits as LimitsOf};
ghost use Rattle.lis_model.specs.Image.{image_blocks};
ghost use Rattle.lis_model.specs.State.{State};
ghost use Rattle.lis_store.specs.Stands.{Stands};
ghost use Rattle.lis_store.specs.Stored.{IsSound};
ghost use Rattle.lis_open.specs.Opens.{HasOpenCause, HasSuper, OpenEnded, OpenLeft, OpenUnwritten, InOpening};
ghost use Rattle.lis_open.specs.Checks.{FailsFirst};
ghost use Rattle.lis_open.specs.Reading.{Opened, LimitsRead};
ghost use Rattle.lis_open.specs.declared.mounting.OpenFault.TheVariants.{TooShort, Damaged, DiskFault as DiskFailed};
ghost use Rattle.lis_model.specs.declared.spot.Spot.{Spot as SpotOf};

use crate::memory::take_memory;
use crate::reading::read_store;
use lis_fields::read_super;
use lis_journal::{Journal, JournalFault};
use lis_kept::{image_capacity, image_layout};
use lis_limits::BLOCK_LEN;
use lis_model::limits::{Limits, image_blocks};
use lis_model::spot::Spot;
use lis_ports::{Disk, Failed};
use lis_store::Store;
use std::alloc::{AllocError, Global};
use thiserror::Error;

/// Why an image was not opened.
#[derive(Clone, Copy, Debug, PartialEq, Eq, Error)]
pub enum OpenFault {
    /// How many bytes the disk has, and how many are needed.
    #[error("the disk has {0} bytes, and {1} are needed")]
    TooShort(u64, u64),
    /// The image represents no state. The spot is that of the first check that fails.
    #[error("the image stands for no state")]
    Damaged(Spot),
    #[error("the disk failed")]
    DiskFault,
    #[error("there is no memory")]
    NoMemory,
}

impl From<Failed> for OpenFault {
    ghost use Rattle.std.specs.Prelude.{◌≡◌};
    ghost use Rattle.lis_open.specs.declared.mounting.OpenFault.TheVariants.{DiskFault};

    ghost from_gives = { λ _ fault. fault ≡ DiskFault };

    fn from(_: Failed) -> Self {
        OpenFault::DiskFault
    }
}

impl From<AllocError> for OpenFault {
    ghost use Rattle.std.specs.Prelude.{◌≡◌};
    ghost use Rattle.lis_open.specs.declared.mounting.OpenFault.TheVariants.{NoMemory};

    ghost from_gives = { λ _ fault. fault ≡ NoMemory };

    fn from(_: AllocError) -> Self {
        OpenFault::NoMemory
    }
}

impl From<JournalFault> for OpenFault {
    ghost use Rattle.std.specs.Prelude.{◌≡◌};
    ghost use Rattle.lis_open.specs.Opens.{journal_fault};

    ghost from_gives = { λ fault opened. opened ≡ journal_fault fault };

    fn from(fault: JournalFault) -> Self {
        match fault {
            JournalFault::DiskFault => OpenFault::DiskFault,
            JournalFault::BadRecord(block) => OpenFault::Damaged(Spot::BadRecord(block)),
            JournalFault::NoMemory => OpenFault::NoMemory,
        }
    }
}

// Reads the limits of the super block. If it returns them, the disk is as long as they require.
fn read_limits<D: Disk>(disk: &mut D) -> Result<Limits, OpenFault>
    ensures reads { OnlyReads (D.meaning disk.old) (D.meaning disk.new) }
    ensures cause { HasOpenCause (D.meaning disk.old).disk_faults (D.meaning disk.new).disk_faults result }
    ensures first_fault { DiskFaultEnds (D.meaning disk.old) (D.meaning disk.new) }
    ensures small { (D.meaning disk.old).len < BLOCK_LEN
        → (result ≡ Err (TooShort (D.meaning disk.old).len BLOCK_LEN)) × (disk.new ≡ disk.old) }
    ensures numbers { (len need : ℕ) → result ≡ Err (TooShort len need) → (len ≡ (D.meaning disk.old).len) × (len < need) }
    ensures range { IfOk result (λ limits. IsTrue (are_in_range limits)) }
    ensures long { IfOk result (λ limits. BLOCK_LEN * image_blocks limits ≤ (D.meaning disk.new).len) }
    ensures ended { IsTrue (D.meaning disk.old).is_honest → LimitsRead (D.meaning disk.old) (D.meaning disk.new) result }
{
    let len = disk.len();
    if len < BLOCK_LEN as u64 {
        return Err(OpenFault::TooShort(len, BLOCK_LEN as u64));
    }
    let mut block = [0; BLOCK_LEN];
    disk.read_at(0, &mut block)?;
    let Some(limits) = read_super(&block) else {
        return Err(OpenFault::Damaged(Spot::Super));
    };
    let need = u64::from(image_blocks(&limits)) * BLOCK_LEN as u64;
    if len < need {
        return Err(OpenFault::TooShort(len, need));
    }
    Ok(limits)
}

// Opens the image that follows a super block of these limits.
fn mount_image<D: Disk>(alloc: Global, disk: &mut D, limits: Limits) -> Result<Store, OpenFault>
    requires range { IsTrue (are_in_range limits) }
    requires long { BLOCK_LEN * image_blocks limits ≤ (D.meaning disk.old).len }
    requires begins { IsTrue (D.meaning disk.old).is_honest → HasSuper limits (D.meaning disk.old).bytes }
    ensures run { IsDiskRun (D.meaning disk.old) (D.meaning disk.new) }
    ensures cause { HasOpenCause (D.meaning disk.old).disk_faults (D.meaning disk.new).disk_faults result }
    ensures first_fault { DiskFaultEnds (D.meaning disk.old) (D.meaning disk.new) }
    ensures fits_disk { (len need : ℕ) → result ≡ Err (TooShort len need) → ⊥ }
    ensures opened { IsTrue (D.meaning disk.old).is_honest → Opened (D.meaning disk.old) (D.meaning disk.new) result }
    ensures sound { IfOk result IsSound }
    ensures ready { IfOk result (λ store. store.is_broken ≡ false) }
    ensures long { IfOk result (λ store. BLOCK_LEN * store.journal.layout.blocks ≤ (D.meaning disk.new).len) }
    ensures any_moment { IsTrue (D.meaning disk.old).is_honest
        → Leaves (D.meaning disk.old) (D.meaning disk.new) (InOpening (D.meaning disk.old)) }
    ensures past { IsTrue (D.meaning disk.old).is_honest
        → (result ≡ Err DiskFailed → IsSettledPast (image_blocks limits) (D.meaning disk.old))
        → KeepsPast (image_blocks limits) (D.meaning disk.old) (D.meaning disk.new) }
{
    let memory = take_memory(alloc, &limits)?;
    let layout = image_layout(&limits);
    match Journal::mount(alloc, disk, layout, image_capacity(&limits)) {
        Ok(journal) => read_store(disk, limits, journal, memory),
        // Dropped by a call, since a function's end is checked with all that is dropped there.
        Err(fault) => {
            memory.close();
            Err(OpenFault::from(fault))
        }
    }
}

/// Opens the image on a disk. It writes only what unfinished records require.
pub fn mount<D: Disk>(alloc: Global, disk: &mut D) -> Result<Store, OpenFault>
    ensures run { IsDiskRun (D.meaning disk.old) (D.meaning disk.new) }
    ensures cause { HasOpenCause (D.meaning disk.old).disk_faults (D.meaning disk.new).disk_faults result }
    ensures first_fault { DiskFaultEnds (D.meaning disk.old) (D.meaning disk.new) }
    ensures ended { IsTrue (D.meaning disk.old).is_honest → OpenEnded (D.meaning disk.old) (D.meaning disk.new) result }

    // The spot is that of the first check that fails.
    ensures spot { (spot : SpotOf) → result ≡ Err (Damaged spot) → IsTrue (D.meaning disk.old).is_honest → FailsFirst (D.meaning disk.old).bytes spot }

    // Of any disk: at `TooShort` the first number is the disk's length, and the second is greater. A disk that is shorter than a super
    // block is not read.
    ensures numbers { (len need : ℕ) → result ≡ Err (TooShort len need) → (len ≡ (D.meaning disk.old).len) × (len < need) }
    ensures small { (D.meaning disk.old).len < BLOCK_LEN
        → (result ≡ Err (TooShort (D.meaning disk.old).len BLOCK_LEN)) × (disk.new ≡ disk.old) }
    ensures sound { IfOk result IsSound }
    ensures ready { IfOk result (λ store. store.is_broken ≡ false) }
    ensures long { IfOk result (λ store. BLOCK_LEN * store.journal.layout.blocks ≤ (D.meaning disk.new).len) }

    // Whatever the image, only what an open gate requires is written. If the image represented a state, each moment represents the same
    // one, or is an image that a crash could have left before.
    ensures left { IsTrue (D.meaning disk.old).is_honest → OpenLeft (D.meaning disk.old) (D.meaning disk.new) result }
    ensures any_moment { IsTrue (D.meaning disk.old).is_honest
        → Leaves (D.meaning disk.old) (D.meaning disk.new) (InOpening (D.meaning disk.old)) }
    ensures same_state { (s : State) → IsTrue (D.meaning disk.old).is_honest → Stands (D.meaning disk.old).bytes s
        → Leaves (D.meaning disk.old) (D.meaning disk.new) (λ image. (D.meaning disk.old).images image ⊎ Stands image s) }

    // If no gate is open nothing is written, whatever the image.
    ensures unwritten { IsTrue (D.meaning disk.old).is_honest → has_open (D.meaning disk.old).bytes ≡ false
        → OpenUnwritten (D.meaning disk.old) (D.meaning disk.new) result }

    // What is past the image stays. If the disk failed, this holds if a crash at the start left it as it read.
    ensures past { (limits : LimitsOf) → IsTrue (D.meaning disk.old).is_honest → HasSuper limits (D.meaning disk.old).bytes
        → (result ≡ Err DiskFailed → IsSettledPast (image_blocks limits) (D.meaning disk.old))
        → KeepsPast (image_blocks limits) (D.meaning disk.old) (D.meaning disk.new) }
{
    let limits = read_limits(disk)?;
    mount_image(alloc, disk, limits)
}
