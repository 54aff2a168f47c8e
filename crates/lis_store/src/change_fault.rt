//! Why a state was not changed.

use lis_model::refusal::Refusal;
use lis_ports::Failed;

/// Why a state was not changed.
#[derive(Clone, Copy, Debug, PartialEq, Eq)]
pub enum ChangeFault {
    /// The command is refused, and nothing was changed.
    Refused(Refusal),
    /// A disk call failed. The store is broken, and only what is on the disk counts.
    Disk,
}

impl From<Refusal> for ChangeFault {
    ghost use Rattle.std.specs.Prelude.{◌≡◌};
    ghost use Rattle.lis_store.specs.declared.change_fault.ChangeFault.TheVariants.{Refused};

    ghost from_gives = { λ refusal change. change ≡ Refused refusal };

    fn from(refusal: Refusal) -> Self {
        ChangeFault::Refused(refusal)
    }
}

impl From<Failed> for ChangeFault {
    ghost use Rattle.std.specs.Prelude.{◌≡◌};
    ghost use Rattle.lis_store.specs.declared.change_fault.ChangeFault.TheVariants.{Disk as DiskChange};

    ghost from_gives = { λ _ change. change ≡ DiskChange };

    fn from(_: Failed) -> Self {
        ChangeFault::Disk
    }
}
