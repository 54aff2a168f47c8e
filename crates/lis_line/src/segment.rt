//! Segments of a session's input: a line, and the payload after it.

ghost use Rattle.std.specs.Prelude.{◌≡◌, ℕ, ◌<◌, ◌≤◌, List, ◌∷◌, ◌++◌, false, length};
ghost use Rattle.std.specs.Option.{option_map};
ghost use Rattle.std.specs.List.{list_any};
ghost use Rattle.lis_model.specs.Step.{Payload as Told, no_payload};
ghost use Rattle.lis_model.specs.Script.{item_of, first_of, first_with, first_ended, session_cut};
ghost use Rattle.lis_line.specs.Reading.{item_with, asked_by};
ghost use Rattle.lis_line.specs.Taking.{UsesSource};
ghost use Rattle.lis_line.specs.Segments.{TakesSegment, first_dropped};
ghost use Rattle.lis_words.specs.Bytes.{is_feed};

use crate::asked::{Request, asked};
use crate::input::{InputItem, Segment};
use crate::payload::{Filled, Payload, fill};
use crate::reader::{AskedItem, Item};
use crate::stock::{LineEnd, Stock, is_feed, read_line};
use arrayvec::ArrayVec;
use lis_model::refusal::Refusal;
use lis_ports::{Failed, Source};

/// Drops everything up to the next line feed, and the line feed, after a byte that does not end a payload.
fn drop_line<S: Source>(stock: &mut Stock, source: &mut S) -> Result<Segment<Request>, Failed>
    requires { 0 < stock.old.rest }
    ensures takes { (payload : Told) → TakesSegment first_dropped (item_with payload) stock.old stock.new (S.left source.old) (S.left source.new) result }
    ensures few { length stock.new.ahead ≤ stock.new.rest }
    ensures source { UsesSource (S.faults source.old) (S.faults source.new) (S.behind source.old) (S.behind source.new) result }
{
    let mut dropped = ArrayVec::new();
    match read_line(stock, &mut dropped, source)? {
        LineEnd::Feed => Ok(Segment::Whole(Some(Err(Refusal::PayloadEnd)))),
        LineEnd::Last => Ok(Segment::Last(Some(Err(Refusal::PayloadEnd)))),
        LineEnd::Spent => Ok(Segment::PastLimit),
    }
}

/// Takes what must end a payload: one line feed, or nothing at the end of the input.
fn take_end<S: Source>(
    stock: &mut Stock,
    request: Option<Request>,
    source: &mut S,
) -> Result<Segment<Request>, Failed>
    requires { 0 < stock.old.rest }
    ensures takes { (payload : Told) → TakesSegment (first_ended (option_map (item_with payload) request)) (item_with payload) stock.old stock.new (S.left source.old) (S.left source.new) result }
    ensures few { length stock.new.ahead ≤ stock.new.rest }
    ensures source { UsesSource (S.faults source.old) (S.faults source.new) (S.behind source.old) (S.behind source.new) result }
{
    let Some(byte) = stock.next_byte(source)? else {
        return Ok(Segment::Last(request));
    };
    if stock.rest() == 0 {
        return Ok(Segment::PastLimit);
    }
    if is_feed(byte) {
        return Ok(Segment::Whole(request));
    }
    drop_line(stock, source)
}

/// Takes the payload after a line, and what ends it. The request is that of the line.
fn take_payload<S: Source>(
    stock: &mut Stock,
    payload: &mut Payload,
    request: Option<Request>,
    size: u64,
    source: &mut S,
) -> Result<Segment<Request>, Failed>
    requires some { 0 < stock.old.rest }
    requires few { length stock.old.ahead ≤ stock.old.rest }
    ensures takes { (line : List ℕ) → ((told : Told) → option_map (item_with told) request ≡ item_of line told)
        → TakesSegment (first_with line size) (item_with payload.new) stock.old stock.new (S.left source.old) (S.left source.new) result }
    ensures few { length stock.new.ahead ≤ stock.new.rest }
    ensures source { UsesSource (S.faults source.old) (S.faults source.new) (S.behind source.old) (S.behind source.new) result }
{
    match fill(stock, payload, size, source)? {
        Filled::All => take_end(stock, request, source),
        Filled::Cut => Ok(Segment::Last(Some(Err(Refusal::CutPayload)))),
        Filled::Spent => Ok(Segment::PastLimit),
    }
}

/// Takes what follows a line and its line feed.
pub fn take_behind<S: Source>(
    stock: &mut Stock,
    payload: &mut Payload,
    line: &[u8],
    source: &mut S,
) -> Result<Segment<Request>, Failed>
    requires some { 0 < stock.old.rest }
    requires few { length stock.old.ahead ≤ stock.old.rest }
    requires empty { payload.old ≡ no_payload }
    requires one_line { list_any is_feed line.now ≡ false }
    ensures takes { TakesSegment (λ more. first_of (line.now ++ 10 ∷ more)) (item_with payload.new) stock.old stock.new (S.left source.old) (S.left source.new) result }
    ensures few { length stock.new.ahead ≤ stock.new.rest }
    ensures source { UsesSource (S.faults source.old) (S.faults source.new) (S.behind source.old) (S.behind source.new) result }
{
    let parsed = asked(line);
    match parsed.size {
        None => Ok(Segment::Whole(parsed.request)),
        Some(size) => take_payload(stock, payload, parsed.request, size, source),
    }
}

/// What a last line without a line feed requests.
pub fn asked_last(line: &[u8]) -> Option<Request>
    requires { list_any is_feed line.now ≡ false }
    ensures { option_map (item_with no_payload) result ≡ (first_of line.now).item }
{
    let parsed = asked(line);
    if parsed.size.unwrap_or(0) > 0 {
        return Some(Err(Refusal::CutPayload));
    }
    parsed.request
}

impl InputItem for Item {
    type Asked = AskedItem;

    type Request = Request;

    ghost cut = { session_cut };

    ghost asks = { item_with };

    ghost asked = { asked_by };

    fn take_segment<S: Source>(
        stock: &mut Stock,
        payload: &mut Payload,
        source: &mut S,
    ) -> Result<Segment<Request>, Failed> {
        payload.clear();
        let mut line = ArrayVec::new();
        match read_line(stock, &mut line, source)? {
            LineEnd::Feed => take_behind(stock, payload, line.as_slice(), source),
            LineEnd::Last => Ok(Segment::Last(asked_last(line.as_slice()))),
            LineEnd::Spent => Ok(Segment::PastLimit),
        }
    }

    fn of(request: Request) -> Item {
        match request {
            Ok(command) => Item::Command(command),
            Err(refusal) => Item::Bad(refusal),
        }
    }
}
