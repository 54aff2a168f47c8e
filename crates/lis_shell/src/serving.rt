//! A session over an image.

ghost use Rattle.std.specs.Prelude.{◌≡◌, ℕ, ◌≤◌, ◌^◌, List, Some};
ghost use Rattle.lis_ports.specs.Calls.{FaultEnds};
ghost use Rattle.lis_line.specs.Taking.{TakesFew};
ghost use Rattle.lis_model.specs.State.{State};
ghost use Rattle.lis_model.specs.Step.{step, situation_after};
ghost use Rattle.lis_model.specs.Script.{script, session_cut};
ghost use Rattle.lis_store.specs.Stored.{IsSound, StoreFits, IsUsable};
ghost use Rattle.lis_session.specs.Ending.{result_of, InputRead, GoesOn, Served};
ghost use Rattle.lis_session.specs.Served.{SessionKeeps};
ghost use Rattle.lis_session.specs.Runs.{Serves};
ghost use Rattle.lis_session.specs.Session.{root_of, FullHeadline};
ghost use Rattle.lis_session.proofs.Moments.{moment_none};
ghost use Rattle.lis_shell.specs.Causes.{counts, HasStatusCause};
ghost use Rattle.lis_shell.specs.declared.status.Status.TheVariants.{Ended};
ghost use Rattle.lis_shell.specs.Runs.{running};

use crate::image::{ImageWork, open_session};
use lis_line::carrier::{Halt, carry_all};
use lis_line::reader::Payload;
use lis_ports::{Source, Station};
use lis_session::end::End;
use lis_session::session::Session;
use lis_store::Store;
use std::alloc::{AllocError, Global};

/// The most bytes of an input.
pub const INPUT_LIMIT: u64 = 1 << 40;

/// Runs the items of the input on the image, up to its end, its limit or the first fault. It takes at most one byte past the limit, and
/// allocates no memory: the session has made room for any state within the limits.
///
/// Whenever it stops, the image represents the state after some first items, and what was shown is a prefix of their replies that lacks at
/// most the last one. No reply is shown before the image has its change, and no change is lost whose reply was begun.
pub fn serve<S: Source, T: Station>(
    session: &mut Session,
    payload: &mut Payload,
    input: &mut S,
    station: &mut T,
    limit: u64,
) -> Halt<End>
    requires limit { limit ≤ 2 ^ 40 }
    requires sound { IsSound session.old.store }
    requires usable { IsUsable session.old.store (T.meaning station.old) }
    ensures keeps { SessionKeeps session.old (T.meaning station.old) session.new (T.meaning station.new) (result_of result) }
    ensures cause { HasStatusCause (counts (T.meaning station.old) (S.faults input.old)) (counts (T.meaning station.new) (S.faults input.new)) (Ended result) }
    ensures input_first_fault { FaultEnds (S.faults input.old) (S.behind input.old) (S.behind input.new) }
    ensures few { TakesFew limit (S.left input.old) (S.left input.new) }
    ensures input { (bytes : List ℕ) → S.left input.old ≡ Some bytes → InputRead limit bytes (S.left input.new) result }
    ensures serves { (state : State) (bytes : List ℕ) → StoreFits session.old.store (T.meaning station.old) state → S.left input.old ≡ Some bytes
        → Serves step (record { state = state; place = session.old.place }) (script bytes limit) (T.meaning station.old) (T.meaning station.new)
        (Served step session_cut (record { state = state; place = session.old.place }) limit bytes (S.left input.new) (T.meaning station.old).shown (T.meaning station.new) result) }
    ensures goes_on { (state : State) (bytes : List ℕ) → StoreFits session.old.store (T.meaning station.old) state → S.left input.old ≡ Some bytes
        → GoesOn (situation_after (record { state = state; place = session.old.place }) (script bytes limit)) session.new.store session.new.place (T.meaning station.new) result }
    ensures headline { (state : State) (bytes : List ℕ) → StoreFits session.old.store (T.meaning station.old) state → S.left input.old ≡ Some bytes
        → FullHeadline step (record { state = state; place = session.old.place }) (script bytes limit) (T.meaning station.old) (T.meaning station.new) }
{
    carry_all(session, payload, input, station, limit)
}

/// `run`: the session of the commands of the input.
#[derive(Clone, Copy)]
pub struct Running;

impl ImageWork for Running {
    ghost says = { λ _. running };

    ghost quiet = { λ _ state bytes image stands. moment_none step (root_of state) (script bytes (2 ^ 40)) image stands };

    fn carry_on<S: Source, T: Station>(
        &self,
        alloc: Global,
        store: Store,
        input: &mut S,
        station: &mut T,
    ) -> Result<Halt<End>, AllocError> {
        let (mut session, mut payload) = open_session(alloc, store)?;
        let halt = serve(&mut session, &mut payload, input, station, INPUT_LIMIT);
        session.close();
        Ok(halt)
    }
}
