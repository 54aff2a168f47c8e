//! Running the session.

ghost use Rattle.std.specs.Prelude.{◌≡◌, false, IfOk};
ghost use Rattle.lis_ports.specs.Runs.{IsDiskRun};
ghost use Rattle.lis_ports.specs.Calls.{HasCause, DiskFaultEnds, StationFaultEnds};
ghost use Rattle.lis_model.specs.State.{State};
ghost use Rattle.lis_store.specs.Stored.{IsSound, StoreFits, IsUsable};
ghost use Rattle.lis_session.specs.Item.{HasEndCause, IsSameStation, StoreLeft};
ghost use Rattle.lis_grow.specs.Session.{grow_items, Summed, Grows, GrowEnded};
ghost use Rattle.lis_journal.specs.Journal.{shape_of};

use crate::source::GrowSource;
use crate::summary::{Sum, show_summary};
use crate::summing::Summing;
use lis_line::carrier::{Halt, carry_all};
use lis_line::reader::Payload;
use lis_ports::{Failed, Station};
use lis_session::end::End;
use lis_session::session::Session;

/// A session has fewer bytes than this.
const LIMIT: u64 = 1 << 17;

// Runs all items, and shows nothing.
fn carry_out<T: Station>(
    session: &mut Session,
    payload: &mut Payload,
    station: &mut T,
    n: u32,
) -> Result<Sum, Failed>
    requires sound { IsSound session.old.store }
    requires usable { IsUsable session.old.store (T.meaning station.old) }
    ensures carries { (state : State) → StoreFits session.old.store (T.meaning station.old) state
        → Summed (record { state = state; place = session.old.place }) (grow_items n) (T.meaning station.old) (T.meaning station.new) result (StoreFits session.new.store (T.meaning station.new)) }
    ensures run { IsDiskRun (T.meaning station.old) (T.meaning station.new) }
    ensures cause { HasCause (T.meaning station.old).disk_faults (T.meaning station.new).disk_faults result }
    ensures first_fault { DiskFaultEnds (T.meaning station.old) (T.meaning station.new) }
    ensures limits { session.new.store.metadata.limits ≡ session.old.store.metadata.limits }
    ensures image { shape_of session.new.store.journal ≡ shape_of session.old.store.journal }
    ensures unbroken { IfOk result (λ _. session.new.store.is_broken ≡ false) }
    ensures sound { IsSound session.new.store }
{
    let mut source = GrowSource::new(n);
    let mut summing = Summing {
        session,
        sum: Sum::none(),
    };
    match carry_all(&mut summing, payload, &mut source, station, LIMIT) {
        Halt::End => Ok(summing.sum),
        Halt::Stopped(failed) => Err(failed),
        Halt::Limit | Halt::InputFault => unreachable!(),
    }
}

/// Runs the session that is made from the number, and shows its summary instead of the replies. It allocates no memory.
///
/// Whenever it stops, the image represents the state after some first items, and what was shown is a prefix of the summary. The summary
/// begins only after all items were run.
pub fn grow_session<T: Station>(
    session: &mut Session,
    payload: &mut Payload,
    station: &mut T,
    n: u32,
) -> Result<(), End>
    requires sound { IsSound session.old.store }
    requires usable { IsUsable session.old.store (T.meaning station.old) }
    ensures grows { (state : State) → StoreFits session.old.store (T.meaning station.old) state
        → Grows (record { state = state; place = session.old.place }) (grow_items n) (T.meaning station.old) (T.meaning station.new)
        (GrowEnded (record { state = state; place = session.old.place }) (grow_items n) (T.meaning station.old).shown (T.meaning station.new) result) }
    ensures cause { HasEndCause (T.meaning station.old) (T.meaning station.new) result }
    ensures first_fault { StationFaultEnds (T.meaning station.old) (T.meaning station.new) }
    ensures same { IsSameStation (T.meaning station.old) (T.meaning station.new) }
    ensures left { StoreLeft session.old.store session.new.store result }
    ensures sound { IsSound session.new.store }
{
    let Ok(sum) = carry_out(session, payload, station, n) else {
        return Err(End::DiskFault);
    };
    show_summary(station, &sum, &session.store().counts())
}
