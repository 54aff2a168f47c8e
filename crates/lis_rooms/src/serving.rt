//! The session of all rooms over an image.

ghost use Rattle.std.specs.Prelude.{◌≡◌, ℕ, ◌≤◌, ◌^◌, List, Some};
ghost use Rattle.lis_ports.specs.Calls.{FaultEnds};
ghost use Rattle.lis_line.specs.Endings.{HasHaltCause};
ghost use Rattle.lis_line.specs.Taking.{TakesFew};
ghost use Rattle.lis_line.specs.Tagged.{tagged_cut, room_script};
ghost use Rattle.lis_model.specs.State.{State};
ghost use Rattle.lis_model.specs.Step.{after_by};
ghost use Rattle.lis_store.specs.Stored.{IsSound, StoreFits, IsUsable};
ghost use Rattle.lis_session.specs.Ending.{result_of, InputRead, GoesOn, Served};
ghost use Rattle.lis_session.specs.Runs.{Serves};
ghost use Rattle.lis_session.specs.Served.{SessionKeeps, situation_at};
ghost use Rattle.lis_session.specs.Session.{FullHeadline};
ghost use Rattle.lis_rooms.specs.Rooms.{room_step};

use crate::rooms::Rooms;
use lis_line::carrier::{Halt, carry_all};
use lis_line::reader::Payload;
use lis_ports::{Source, Station};
use lis_session::end::End;

/// Runs the items of the input, each in its room, up to the end of the input, its limit or the first fault. It takes at most one byte past
/// the limit, and allocates no memory: the rooms have all of it.
///
/// Whenever it stops, the image represents the state after some first items, and what was shown is a prefix of their replies that lacks at
/// most the last one. The line of a room is the last of a reply, so it comes after the change.
pub fn serve_rooms<S: Source, T: Station>(
    rooms: &mut Rooms,
    payload: &mut Payload,
    input: &mut S,
    station: &mut T,
    limit: u64,
) -> Halt<End>
    requires limit { limit ≤ 2 ^ 40 }
    requires sound { IsSound rooms.old.store }
    requires usable { IsUsable rooms.old.store (T.meaning station.old) }
    ensures keeps { SessionKeeps rooms.old (T.meaning station.old) rooms.new (T.meaning station.new) (result_of result) }
    ensures input_cause { HasHaltCause (S.faults input.old) (S.faults input.new) result }
    ensures input_first_fault { FaultEnds (S.faults input.old) (S.behind input.old) (S.behind input.new) }
    ensures few { TakesFew limit (S.left input.old) (S.left input.new) }
    ensures input { (bytes : List ℕ) → S.left input.old ≡ Some bytes → InputRead limit bytes (S.left input.new) result }
    ensures serves { (state : State) (bytes : List ℕ) → StoreFits rooms.old.store (T.meaning station.old) state → S.left input.old ≡ Some bytes
        → Serves room_step (situation_at rooms.old state) (room_script bytes limit) (T.meaning station.old) (T.meaning station.new)
        (Served room_step tagged_cut (situation_at rooms.old state) limit bytes (S.left input.new) (T.meaning station.old).shown (T.meaning station.new) result) }
    ensures goes_on { (state : State) (bytes : List ℕ) → StoreFits rooms.old.store (T.meaning station.old) state → S.left input.old ≡ Some bytes
        → GoesOn (after_by room_step (situation_at rooms.old state) (room_script bytes limit)) rooms.new.store rooms.new.place (T.meaning station.new) result }
    ensures headline { (state : State) (bytes : List ℕ) → StoreFits rooms.old.store (T.meaning station.old) state → S.left input.old ≡ Some bytes
        → FullHeadline room_step (situation_at rooms.old state) (room_script bytes limit) (T.meaning station.old) (T.meaning station.new) }
{
    carry_all(rooms, payload, input, station, limit)
}
