//! Inputs of any kind of items, taken segment by segment.

ghost use Rattle.std.specs.Prelude.{◌≡◌, ◌<◌, ◌≤◌, length, Option, Some, ⊤};
ghost use Rattle.lis_model.specs.Step.{Payload as Told};
ghost use Rattle.lis_model.specs.Script.{Cut};
ghost use Rattle.lis_line.specs.Reading.{GivesSegment};
ghost use Rattle.lis_line.specs.Taking.{UsesSource};

use crate::payload::Payload;
use crate::stock::Stock;
use lis_ports::{Failed, Source};

/// What was taken of the input, and what it requests; `None` if it requests nothing.
pub enum Segment<R> {
    /// A segment with its own line feed.
    Whole(Option<R>),
    /// The last segment, at the end of the input.
    Last(Option<R>),
    /// The byte past the limit.
    PastLimit,
}

/// An item of some kind of input.
pub trait InputItem: Drop {
    /// What an item requests, as clauses state it.
    type Asked;

    /// What a segment requests, without its payload.
    type Request: Drop;

    /// How an input is cut into items.
    ghost cut: { Cut Self.Asked };

    /// What a segment requests, with its payload.
    ghost asks: { Told → Self.Request → Self.Asked };

    /// What an item requests, with its payload; the end and the limit request nothing.
    ghost asked: { Self → Told → Option Self.Asked };

    /// Whether a reader may give this.
    ghost is_said: { Self → Type 0 } = { λ _. ⊤ };

    /// Takes a line, and its payload.
    fn take_segment<S: Source>(
        stock: &mut Stock,
        payload: &mut Payload,
        source: &mut S,
    ) -> Result<Segment<Self::Request>, Failed>
        requires { 0 < stock.old.rest }
        ensures gives { GivesSegment cut (asks payload.new) stock.old stock.new (S.left source.old) (S.left source.new) result }
        ensures few { length stock.new.ahead ≤ stock.new.rest }
        ensures source { UsesSource (S.faults source.old) (S.faults source.new) (S.behind source.old) (S.behind source.new) result };

    /// The item that requests this.
    fn of(request: Self::Request) -> Self
        ensures asks { (payload : Told) → asked result payload ≡ Some (asks payload request) }
        ensures said { is_said result };
}
