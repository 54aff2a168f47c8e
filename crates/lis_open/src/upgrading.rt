//! Images of version 1 that become images of version 2.

ghost use Rattle.std.specs.Prelude.{◌≡◌, ◌≢◌, ◌⊎◌, ℕ, ◌<◌, ◌≤◌, [], ◌∷◌, false, Err, IsTrue, OnOk};
ghost use Rattle.lis_ports.specs.Bytes.{put, Torn};
ghost use Rattle.lis_ports.specs.Calls.{DiskFaultEnds, UsesDisk};
ghost use Rattle.lis_ports.specs.Runs.{IsDiskRun, IsSettled, Leaves};
ghost use Rattle.lis_journal.specs.Images.{KeepsPast};
ghost use Rattle.lis_journal.specs.Record.{has_open};
ghost use Rattle.lis_journal.specs.Recovery.{IsSettledPast};
ghost use Rattle.lis_journal.specs.Spreads.{Spreads};
ghost use Rattle.lis_model.specs.declared.limits.Limits.{Limits as LimitsOf};
ghost use Rattle.lis_model.specs.declared.spot.Spot.{Spot as SpotOf};
ghost use Rattle.lis_model.specs.Image.{image_blocks};
ghost use Rattle.lis_model.specs.State.{State};
ghost use Rattle.lis_store.specs.Stands.{Stands};
ghost use Rattle.lis_open.specs.Checks.{FailsFirst};
ghost use Rattle.lis_open.specs.Opens.{HasOpenCause, HasSuper, InOpening, OpenUnwritten};
ghost use Rattle.lis_open.specs.Upgrades.{upgraded, UpgradeEnded, UpgradeLeft};
ghost use Rattle.lis_open.specs.declared.mounting.OpenFault.{OpenFault as FaultOf};
ghost use Rattle.lis_open.specs.declared.mounting.OpenFault.TheVariants.{TooShort, Damaged, DiskFault as DiskFailed};

use crate::mounting::{OpenFault, mount};
use lis_limits::BLOCK_LEN;
use lis_ports::{Disk, Failed};
use std::alloc::Global;

/// The byte of a super block that is the gate of its version.
const GATE: u64 = 24;

/// The gate of version 2.
const SECOND: u8 = 2;

// Writes the gate of version 2, in a separate write, and syncs.
fn write_gate<D: Disk>(disk: &mut D) -> Result<(), Failed>
    requires { 25 ≤ (D.meaning disk.old).len }
    ensures disk { UsesDisk (D.meaning disk.old) (D.meaning disk.new) result }
    ensures spreads { IsTrue (D.meaning disk.old).is_honest → Spreads (D.meaning disk.old) (D.meaning disk.new) (Torn 24 1) }
    ensures settled { OnOk result (IsTrue (D.meaning disk.old).is_honest
        → IsSettled (D.meaning disk.new) (put (D.meaning disk.old).bytes 24 (2 ∷ []))) }
{
    disk.write_at(GATE, &[SECOND])?;
    disk.sync()
}

/// Makes the image on a disk one of version 2, unless it is of version 2 or 3 already. It opens the image first, and refuses it as `mount` does. Then it writes the gate, in a
/// separate write, and syncs. All memory is allocated before.
///
/// Whenever it stops, the image represents its state, or if that is of version 1 the same state in version 2, or is one that a crash could have left before.
pub fn upgrade<D: Disk>(alloc: Global, disk: &mut D) -> Result<(), OpenFault>
    ensures run { IsDiskRun (D.meaning disk.old) (D.meaning disk.new) }
    ensures cause { HasOpenCause (D.meaning disk.old).disk_faults (D.meaning disk.new).disk_faults result }
    ensures first_fault { DiskFaultEnds (D.meaning disk.old) (D.meaning disk.new) }
    ensures ended { IsTrue (D.meaning disk.old).is_honest → UpgradeEnded (D.meaning disk.old) (D.meaning disk.new) result }
    ensures spot { (spot : SpotOf) → result ≡ Err (Damaged spot) → IsTrue (D.meaning disk.old).is_honest → FailsFirst (D.meaning disk.old).bytes spot }
    ensures moments { (s : State) → IsTrue (D.meaning disk.old).is_honest → Stands (D.meaning disk.old).bytes s
        → Leaves (D.meaning disk.old) (D.meaning disk.new) (λ image. (D.meaning disk.old).images image ⊎ (Stands image s ⊎ Stands image (upgraded s))) }

    // If the image is refused, only what an open gate requires is written. If it represents no state, each moment is one of opening.
    ensures left { IsTrue (D.meaning disk.old).is_honest → UpgradeLeft (D.meaning disk.old) (D.meaning disk.new) result }
    ensures refused { IsTrue (D.meaning disk.old).is_honest → ((s : State) → Stands (D.meaning disk.old).bytes s → ⊥)
        → Leaves (D.meaning disk.old) (D.meaning disk.new) (InOpening (D.meaning disk.old)) }

    // If the image is refused for any reason other than a disk fault, only opening was done.
    ensures unbegun { (s : State) (fault : FaultOf) → result ≡ Err fault → fault ≢ DiskFailed → IsTrue (D.meaning disk.old).is_honest
        → Stands (D.meaning disk.old).bytes s → Leaves (D.meaning disk.old) (D.meaning disk.new) (λ image. (D.meaning disk.old).images image ⊎ Stands image s) }
    ensures unwritten { (fault : FaultOf) → result ≡ Err fault → fault ≢ DiskFailed → IsTrue (D.meaning disk.old).is_honest
        → has_open (D.meaning disk.old).bytes ≡ false → OpenUnwritten (D.meaning disk.old) (D.meaning disk.new) (Err fault) }

    // Of any disk: how the result depends on its length.
    ensures numbers { (len need : ℕ) → result ≡ Err (TooShort len need) → (len ≡ (D.meaning disk.old).len) × (len < need) }
    ensures small { (D.meaning disk.old).len < BLOCK_LEN
        → (result ≡ Err (TooShort (D.meaning disk.old).len BLOCK_LEN)) × (disk.new ≡ disk.old) }

    // What is past the image stays. If the disk failed, this holds if a crash at the start left it as it read.
    ensures past { (limits : LimitsOf) → IsTrue (D.meaning disk.old).is_honest → HasSuper limits (D.meaning disk.old).bytes
        → (result ≡ Err DiskFailed → IsSettledPast (image_blocks limits) (D.meaning disk.old))
        → KeepsPast (image_blocks limits) (D.meaning disk.old) (D.meaning disk.new) }
{
    let store = mount(alloc, disk)?;
    let version = store.limits().version;
    store.close();
    if version == 1 {
        write_gate(disk)?;
    }
    Ok(())
}
