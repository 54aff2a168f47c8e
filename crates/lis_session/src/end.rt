//! Why an item could not be run, or its reply could not be shown.

use lis_ports::Failed;

/// Why running an item stopped.
#[derive(Clone, Copy, Debug, PartialEq, Eq)]
pub enum End {
    /// The disk counted a fault. Only the moments say what is on it then.
    DiskFault,
    /// The station counted a show fault. The step was made, and a prefix of the reply was shown.
    OutputFault,
}

// For a call that shows.
impl From<Failed> for End {
    ghost use Rattle.std.specs.Prelude.{◌≡◌};
    ghost use Rattle.lis_session.specs.declared.end.End.TheVariants.{OutputFault};

    ghost from_gives = { λ _ end. end ≡ OutputFault };

    fn from(_failed: Failed) -> End {
        End::OutputFault
    }
}
