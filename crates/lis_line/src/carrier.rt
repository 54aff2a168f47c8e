//! The one loop over an input: it reads the items one after another, and runs them.

ghost use Rattle.std.specs.Prelude.{ℕ, ◌+◌, ◌≤◌, ◌^◌, List, [], ◌∷◌, ◌++◌, IfOk, IfSome, IsSome, MatchResult};
ghost use Rattle.lis_ports.specs.Calls.{FaultEnds};
ghost use Rattle.lis_ports.specs.Meaning.{Meaning};
ghost use Rattle.lis_line.specs.Taking.{TakesFew};
ghost use Rattle.lis_line.specs.Endings.{HasEnded, HasHaltCause};

use crate::input::InputItem;
use crate::reader::{LineReader, Next, Payload};
use lis_ports::{Source, Station};

/// What runs the items of an input on a station.
pub trait Carrier {
    /// What the input is made of.
    type Item: InputItem;

    /// Why an item could not be run.
    type Fault;

    /// Whether it can run this many more items on such a station.
    ghost is_ready: { Self → Meaning → ℕ → Type 0 };

    /// What it and the station have become since a start: these items were run, in this order.
    ghost has_done: { Self → Meaning → List Self.Item.Asked → Self → Meaning → Type 0 };

    /// What they have become since a start, if these items were run and then there was a fault in this one.
    ghost has_stopped: { Self → Meaning → List Self.Item.Asked → Self.Item.Asked → Self.Fault → Self → Meaning → Type 0 };

    /// Runs an item.
    fn carry<T: Station>(
        &mut self,
        item: &Self::Item,
        payload: &Payload,
        station: &mut T,
    ) -> Result<(), Self::Fault>
        requires asked { IsSome (Self.Item.asked item.now payload.now) }
        requires said { Self.Item.is_said item.now }
        requires ready { (more : ℕ) × is_ready self.old (T.meaning station.old) (more + 1) }
        ensures ready { (more : ℕ) → is_ready self.old (T.meaning station.old) (more + 1)
            → IfOk result (λ _. is_ready self.new (T.meaning station.new) more) }
        ensures carried { (start : Self) (entry : T) (first : List Self.Item.Asked) → has_done start (T.meaning entry) first self.old (T.meaning station.old)
            → IfSome (Self.Item.asked item.now payload.now) (λ asked. MatchResult result
            (λ _. has_done start (T.meaning entry) (first ++ asked ∷ []) self.new (T.meaning station.new))
            (λ fault. has_stopped start (T.meaning entry) first asked fault self.new (T.meaning station.new))) };
}

/// How the loop over an input ended.
#[derive(Clone, Copy, Debug, PartialEq, Eq)]
pub enum Halt<F> {
    /// The input has ended.
    End,
    /// The input is longer than its limit.
    Limit,
    /// A source call failed.
    InputFault,
    /// An item could not be run.
    Stopped(F),
}

/// Runs the items of an input of at most `limit` bytes, up to its end, its limit or the first fault. It takes at most one byte past the
/// limit. Each item takes at least one byte, so there are at most `limit` items.
pub fn carry_all<C: Carrier, S: Source, T: Station>(
    carrier: &mut C,
    payload: &mut Payload,
    input: &mut S,
    station: &mut T,
    limit: u64,
) -> Halt<C::Fault>
    requires limit { limit ≤ 2 ^ 40 }
    requires ready { C.is_ready carrier.old (T.meaning station.old) limit }
    requires start { C.has_done carrier.old (T.meaning station.old) [] carrier.old (T.meaning station.old) }
    ensures few { TakesFew limit (S.left input.old) (S.left input.new) }
    ensures cause { HasHaltCause (S.faults input.old) (S.faults input.new) result }
    ensures first_fault { FaultEnds (S.faults input.old) (S.behind input.old) (S.behind input.new) }
    ensures ended { HasEnded C.Item.cut limit (S.left input.old) (S.left input.new)
        (λ first. C.has_done carrier.old (T.meaning station.old) first carrier.new (T.meaning station.new))
        (λ first item fault. C.has_stopped carrier.old (T.meaning station.old) first item fault carrier.new (T.meaning station.new)) result }
{
    let mut reader = LineReader::new(limit);
    loop {
        let item = match reader.read::<C::Item, S>(input, payload) {
            Ok(Next::Item(request)) => C::Item::of(request),
            Ok(Next::End) => return Halt::End,
            Ok(Next::Limit) => return Halt::Limit,
            Err(_) => return Halt::InputFault,
        };
        if let Err(fault) = carrier.carry(&item, payload, station) {
            return Halt::Stopped(fault);
        }
    }
}
