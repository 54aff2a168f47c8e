//! The loop over an input whose carrier may hold back what it did.

ghost use Rattle.std.specs.Prelude.{◌≡◌, ℕ, ◌+◌, ◌^◌, ◌≤◌, false, List, [], ◌∷◌, ◌++◌, IsSome, IfOk, IfSome, MatchResult};
ghost use Rattle.lis_ports.specs.Meaning.{Meaning};
ghost use Rattle.lis_ports.specs.Calls.{FaultEnds};
ghost use Rattle.lis_model.specs.Step.{Item as Asked};
ghost use Rattle.lis_model.specs.Script.{session_cut};
ghost use Rattle.lis_line.specs.Reading.{asked_by};
ghost use Rattle.lis_line.specs.Taking.{TakesFew};
ghost use Rattle.lis_line.specs.Endings.{HoldEnded, HasHaltCause};

use crate::carrier::Halt;
use crate::input::InputItem;
use crate::reader::{Item, LineReader, Next, Payload};
use lis_ports::{Source, Station};

/// What runs the items of a session, and may hold back what it did until it is told to settle.
pub trait Holder {
    /// Why an item could not be run, or why what is held back could not be settled.
    type Fault;

    /// Whether it can run this many more items on such a station.
    ghost is_ready: { Self → Meaning → ℕ → Type 0 };

    /// Nothing is held back.
    ghost is_settled: { Self → Type 0 };

    /// What it and the station have become since a start: these items were run, in this order.
    ghost has_done: { Self → Meaning → List Asked → Self → Meaning → Type 0 };

    /// The same, if there was this fault in the last of these items, or in settling after it.
    ghost has_stopped: { Self → Meaning → List Asked → Self.Fault → Self → Meaning → Type 0 };

    /// Runs an item.
    fn carry<T: Station>(
        &mut self,
        item: &Item,
        payload: &Payload,
        station: &mut T,
    ) -> Result<(), Self::Fault>
        requires asked { IsSome (asked_by item.now payload.now) }
        requires ready { (more : ℕ) × is_ready self.old (T.meaning station.old) (more + 1) }
        ensures ready { (more : ℕ) → is_ready self.old (T.meaning station.old) (more + 1)
            → IfOk result (λ _. is_ready self.new (T.meaning station.new) more) }
        ensures carried { (start : Self) (entry : T) (first : List Asked) → has_done start (T.meaning entry) first self.old (T.meaning station.old)
            → IfSome (asked_by item.now payload.now) (λ asked. MatchResult result
            (λ _. has_done start (T.meaning entry) (first ++ asked ∷ []) self.new (T.meaning station.new))
            (λ fault. has_stopped start (T.meaning entry) (first ++ asked ∷ []) fault self.new (T.meaning station.new))) };

    /// Settles what is held back.
    fn settle<T: Station>(&mut self, station: &mut T) -> Result<(), Self::Fault>
        requires ready { (more : ℕ) × is_ready self.old (T.meaning station.old) more }
        ensures ready { (more : ℕ) → is_ready self.old (T.meaning station.old) more
            → IfOk result (λ _. is_ready self.new (T.meaning station.new) more) }
        ensures settled { IfOk result (λ _. is_settled self.new) }
        ensures done { (start : Self) (entry : T) (first : List Asked) → has_done start (T.meaning entry) first self.old (T.meaning station.old)
            → MatchResult result
            (λ _. has_done start (T.meaning entry) first self.new (T.meaning station.new))
            (λ fault. has_stopped start (T.meaning entry) first fault self.new (T.meaning station.new)) };
}

/// Settles, unless an item is complete in what was taken from the source.
fn settle_unless<C: Holder, T: Station>(
    lies_whole: bool,
    carrier: &mut C,
    station: &mut T,
) -> Result<(), C::Fault>
    requires ready { (more : ℕ) × C.is_ready carrier.old (T.meaning station.old) more }
    ensures ready { (more : ℕ) → C.is_ready carrier.old (T.meaning station.old) more
        → IfOk result (λ _. C.is_ready carrier.new (T.meaning station.new) more) }
    ensures settled { lies_whole ≡ false → IfOk result (λ _. C.is_settled carrier.new) }
    ensures done { (start : C) (entry : T) (first : List Asked) → C.has_done start (T.meaning entry) first carrier.old (T.meaning station.old)
        → MatchResult result
        (λ _. C.has_done start (T.meaning entry) first carrier.new (T.meaning station.new))
        (λ fault. C.has_stopped start (T.meaning entry) first fault carrier.new (T.meaning station.new)) }
{
    if lies_whole {
        return Ok(());
    }
    carrier.settle(station)
}

/// Runs the items of an input of at most `limit` bytes, up to its end, its limit or the first fault. If no item is complete in what was
/// taken from the source, the carrier settles before it reads on. So nothing is held back while the source is called.
pub fn carry_held<C: Holder, S: Source, T: Station>(
    carrier: &mut C,
    payload: &mut Payload,
    input: &mut S,
    station: &mut T,
    limit: u64,
) -> Halt<C::Fault>
    requires limit { limit ≤ 2 ^ 40 }
    requires ready { C.is_ready carrier.old (T.meaning station.old) limit }
    requires start { C.has_done carrier.old (T.meaning station.old) [] carrier.old (T.meaning station.old) }
    ensures few { TakesFew limit (S.left input.old) (S.left input.new) }
    ensures cause { HasHaltCause (S.faults input.old) (S.faults input.new) result }
    ensures first_fault { FaultEnds (S.faults input.old) (S.behind input.old) (S.behind input.new) }
    ensures ended { HoldEnded session_cut limit (S.left input.old) (S.left input.new) (C.is_settled carrier.new)
        (λ first. C.has_done carrier.old (T.meaning station.old) first carrier.new (T.meaning station.new))
        (λ first fault. C.has_stopped carrier.old (T.meaning station.old) first fault carrier.new (T.meaning station.new)) result }
{
    let mut reader = LineReader::new(limit);
    loop {
        let lies_whole = reader.lies_whole();
        if let Err(fault) = settle_unless(lies_whole, carrier, station) {
            return Halt::Stopped(fault);
        }
        let item = match reader.read_held(lies_whole, input, payload) {
            Ok(Next::Item(request)) => Item::of(request),
            Ok(Next::End) => return Halt::End,
            Ok(Next::Limit) => {
                return match carrier.settle(station) {
                    Ok(()) => Halt::Limit,
                    Err(fault) => Halt::Stopped(fault),
                };
            }
            Err(_) => return Halt::InputFault,
        };
        if let Err(fault) = carrier.carry(&item, payload, station) {
            return Halt::Stopped(fault);
        }
    }
}
