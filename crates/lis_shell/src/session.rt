//! A session over a plain state.

ghost use Rattle.std.specs.Prelude.{◌≡◌, ℕ, ◌≤◌, ◌^◌, List, Some};
ghost use Rattle.lis_ports.specs.Calls.{IsShowCall, StationFaultEnds, FaultEnds};
ghost use Rattle.lis_line.specs.Taking.{TakesFew};
ghost use Rattle.lis_shell.specs.Causes.{counts, HasStatusCause, IsTryStatus};
ghost use Rattle.lis_shell.specs.Tries.{Tries, try_status};

use crate::status::Status;
use lis_line::carrier::{Halt, carry_all};
use lis_line::reader::Payload;
use lis_open::OpenFault;
use lis_plain::end::PlainEnd;
use lis_plain::plain::Plain;
use lis_ports::{Source, Station};
use lis_session::end::End;

// The status at which a session over a plain state ends.
fn status_at(halt: Halt<PlainEnd>) -> Status
    ensures { result ≡ try_status halt }
{
    match halt {
        Halt::End => Status::Ended(Halt::End),
        Halt::Limit => Status::Ended(Halt::Limit),
        Halt::InputFault => Status::Ended(Halt::InputFault),
        Halt::Stopped(PlainEnd::OutputFault) => Status::Ended(Halt::Stopped(End::OutputFault)),
        Halt::Stopped(PlainEnd::NoMemory) => Status::Opening(OpenFault::NoMemory),
    }
}

/// Runs the items of the input on a plain state, up to its end, its limit or the first fault. It takes at most one byte past the limit.
/// What an honest disk reads as, and what a crash leaves of it, stays.
pub fn try_session<S: Source, T: Station>(
    plain: &mut Plain,
    payload: &mut Payload,
    input: &mut S,
    station: &mut T,
    limit: u64,
) -> Status
    requires { limit ≤ 2 ^ 40 }
    ensures only { IsTryStatus result }
    ensures cause { HasStatusCause (counts (T.meaning station.old) (S.faults input.old)) (counts (T.meaning station.new) (S.faults input.new)) result }
    ensures first_fault { StationFaultEnds (T.meaning station.old) (T.meaning station.new) }
    ensures input_first_fault { FaultEnds (S.faults input.old) (S.behind input.old) (S.behind input.new) }
    ensures disk { IsShowCall (T.meaning station.old) (T.meaning station.new) }
    ensures few { TakesFew limit (S.left input.old) (S.left input.new) }
    ensures tries { (bytes : List ℕ) → S.left input.old ≡ Some bytes
        → Tries plain.old limit bytes (S.left input.new) (T.meaning station.old).shown (T.meaning station.new).shown plain.new result }
{
    let halt = carry_all(plain, payload, input, station, limit);
    status_at(halt)
}
