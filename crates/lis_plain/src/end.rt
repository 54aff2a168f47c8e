//! Why an item could not be run, or its reply could not be shown.

use lis_ports::Failed;
use std::alloc::{AllocError, AllocFailed};

/// Why running an item stopped.
#[derive(Clone, Copy, Debug, PartialEq, Eq)]
pub enum PlainEnd {
    /// The station counted a show fault. The step was made, and a prefix of the reply was shown.
    OutputFault,
    /// Out of memory. State and place are as before, and nothing of the reply was shown.
    NoMemory,
}

impl From<Failed> for PlainEnd {
    ghost use Rattle.std.specs.Prelude.{◌≡◌};
    ghost use Rattle.lis_plain.specs.declared.end.PlainEnd.TheVariants.{OutputFault};

    ghost from_gives = { λ _ end. end ≡ OutputFault };

    fn from(_failed: Failed) -> PlainEnd {
        PlainEnd::OutputFault
    }
}

impl From<AllocError> for PlainEnd {
    ghost use Rattle.std.specs.Prelude.{◌≡◌};
    ghost use Rattle.lis_plain.specs.declared.end.PlainEnd.TheVariants.{NoMemory};

    ghost from_gives = { λ _ end. end ≡ NoMemory };

    fn from(_error: AllocError) -> PlainEnd {
        PlainEnd::NoMemory
    }
}

impl<T: Drop> From<AllocFailed<T>> for PlainEnd {
    ghost use Rattle.std.specs.Prelude.{◌≡◌};
    ghost use Rattle.lis_plain.specs.declared.end.PlainEnd.TheVariants.{NoMemory};

    ghost from_gives = { λ _ end. end ≡ NoMemory };

    fn from(_failed: AllocFailed<T>) -> PlainEnd {
        PlainEnd::NoMemory
    }
}
