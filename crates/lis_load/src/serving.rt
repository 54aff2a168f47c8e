//! The items of an input, loaded on an image.

ghost use Rattle.std.specs.Prelude.{◌≡◌, ℕ, ◌≤◌, ◌^◌, List, [], Some};
ghost use Rattle.lis_ports.specs.Calls.{FaultEnds};
ghost use Rattle.lis_line.specs.Endings.{HasHaltCause};
ghost use Rattle.lis_line.specs.Taking.{TakesFew};
ghost use Rattle.lis_model.specs.Script.{script};
ghost use Rattle.lis_model.specs.State.{State};
ghost use Rattle.lis_store.specs.Stored.{IsSound, StoreFits, IsUsable};
ghost use Rattle.lis_session.specs.Ending.{result_of, InputRead};
ghost use Rattle.lis_session.specs.Served.{SessionKeeps, situation_at};
ghost use Rattle.lis_load.specs.Load.{Loads, LoadServed, FullLoadHeadline};

use crate::loader::Loader;
use lis_line::carrier::Halt;
use lis_line::holder::carry_held;
use lis_line::reader::Payload;
use lis_ports::{Source, Station};
use lis_session::end::End;

/// Runs the items of the input, up to its end, its limit or the first fault, with many changes in one commit. It takes at most one byte
/// past the limit, and allocates no memory. While it waits for input no change is held back, and no reply waits.
///
/// Whenever it stops, the image represents the state after some first items, and what was shown is a prefix of their replies. Of these
/// items at most the last 256 have replies that were not shown whole. No reply is shown before the image has its change, and no change is
/// lost whose reply was begun.
pub fn serve_load<S: Source, T: Station>(
    loader: &mut Loader,
    payload: &mut Payload,
    input: &mut S,
    station: &mut T,
    limit: u64,
) -> Halt<End>
    requires limit { limit ≤ 2 ^ 40 }
    requires idle { loader.old.held.items ≡ [] }
    requires sound { IsSound loader.old.session.store }
    requires usable { IsUsable loader.old.session.store (T.meaning station.old) }
    ensures keeps { SessionKeeps loader.old.session (T.meaning station.old) loader.new.session (T.meaning station.new) (result_of result) }
    ensures input_cause { HasHaltCause (S.faults input.old) (S.faults input.new) result }
    ensures input_first_fault { FaultEnds (S.faults input.old) (S.behind input.old) (S.behind input.new) }
    ensures few { TakesFew limit (S.left input.old) (S.left input.new) }
    ensures input { (bytes : List ℕ) → S.left input.old ≡ Some bytes → InputRead limit bytes (S.left input.new) result }
    ensures serves { (state : State) (bytes : List ℕ) → StoreFits loader.old.session.store (T.meaning station.old) state → S.left input.old ≡ Some bytes
        → Loads (situation_at loader.old.session state) (script bytes limit) (T.meaning station.old) (T.meaning station.new)
        (LoadServed (situation_at loader.old.session state) limit bytes (S.left input.new) (T.meaning station.old).shown (T.meaning station.new) result) }
    ensures headline { (state : State) (bytes : List ℕ) → StoreFits loader.old.session.store (T.meaning station.old) state → S.left input.old ≡ Some bytes
        → FullLoadHeadline (situation_at loader.old.session state) (script bytes limit) (T.meaning station.old) (T.meaning station.new) }
{
    carry_held(loader, payload, input, station, limit)
}
