//! What the input requests, from a stock of bytes.

ghost use Rattle.std.specs.Prelude.{◌<◌, ◌≤◌, length};
ghost use Rattle.lis_line.specs.Reading.{GivesAsked};
ghost use Rattle.lis_line.specs.Taking.{UsesSource};

use crate::input::{InputItem, Segment};
use crate::payload::Payload;
use crate::stock::Stock;
use lis_ports::{Failed, Source};

/// What was taken of the input.
pub enum Taken<R> {
    /// A segment with its own line feed, and what it requests.
    Whole(R),
    /// The last segment, which does not have its own line feed.
    Last(R),
    /// The end of the input.
    NoMore,
    /// The byte past the limit.
    PastLimit,
}

/// Takes segments up to the first one that requests something.
pub fn take_asked<I: InputItem, S: Source>(
    stock: &mut Stock,
    payload: &mut Payload,
    source: &mut S,
) -> Result<Taken<I::Request>, Failed>
    requires { 0 < stock.old.rest }
    ensures gives { GivesAsked I.cut (I.asks payload.new) stock.old stock.new (S.left source.old) (S.left source.new) result }
    ensures few { length stock.new.ahead ≤ stock.new.rest }
    ensures source { UsesSource (S.faults source.old) (S.faults source.new) (S.behind source.old) (S.behind source.new) result }
{
    loop {
        match I::take_segment(stock, payload, source)? {
            Segment::Whole(Some(asked)) => return Ok(Taken::Whole(asked)),
            Segment::Whole(None) => {}
            Segment::Last(Some(asked)) => return Ok(Taken::Last(asked)),
            Segment::Last(None) => return Ok(Taken::NoMore),
            Segment::PastLimit => return Ok(Taken::PastLimit),
        }
    }
}
