//! Items of an input of rooms, each with its room.

ghost use Rattle.std.specs.Prelude.{◌≡◌, ℕ, ◌<◌, ◌≤◌, List, ◌∷◌, ◌++◌, length, drop, false, Option, None, Some, IsSome};
ghost use Rattle.std.specs.Option.{option_map};
ghost use Rattle.std.specs.List.{list_any};
ghost use Rattle.lis_model.specs.Step.{Payload as Told, no_payload};
ghost use Rattle.lis_model.specs.Script.{line_words, First};
ghost use Rattle.lis_line.specs.Stock.{Stocked};
ghost use Rattle.lis_line.specs.Reading.{item_with};
ghost use Rattle.lis_line.specs.Taking.{UsesSource};
ghost use Rattle.lis_line.specs.Segments.{TookSegment, TakesSegment};
ghost use Rattle.lis_line.specs.Tagged.{after_blanks, spoken_in, no_room, in_room, first_tagged, tagged_cut};
ghost use Rattle.lis_line.specs.Spoken.{tagged_with, tagged_by, IsTagged};
ghost use Rattle.lis_words.specs.Bytes.{is_feed};

use crate::asked::Request;
use crate::input::{InputItem, Segment};
use crate::line::{after_blanks, is_long, next_word, no_words, without_return};
use crate::payload::Payload;
use crate::reader::Item;
use crate::room::{Room, room_of};
use crate::segment::{asked_last, take_behind};
use crate::stock::{LineEnd, Stock, read_line};
use arrayvec::ArrayVec;
use lis_model::refusal::Refusal;
use lis_ports::{Failed, Source};
use std::marker::Model;

/// How many bytes a tag has.
const TAG_LEN: usize = 2;

/// What an input of rooms has next, and its room, if it has one.
#[derive(Drop, Debug)]
pub struct Tagged {
    /// A number from 0 to 7.
    pub room: Option<u8>,
    pub item: Item,
}

/// What an item of rooms requests, as clauses state it. Code has no use for its value.
pub struct AskedTagged;

impl Model for AskedTagged {
    ghost use Rattle.std.specs.Prelude.{None};
    ghost use Rattle.lis_model.specs.Script.{bad_line};
    ghost use Rattle.lis_line.specs.Tagged.{Tagged};

    ghost Value = { Tagged };

    ghost view = { λ _. record { room = None; item = bad_line } };
}

/// What a segment of an input of rooms requests.
#[derive(Drop)]
pub enum Spoken {
    /// A line in a room.
    Inside(Room, Request),
    /// A line in no room, which is refused.
    Outside(Refusal),
}

/// The room of a line.
fn spoken_in(line: &[u8]) -> Option<Room>
    ensures { option_map (λ room. room.number) result ≡ spoken_in line.now }
{
    if is_long(line) {
        return None;
    }
    let (word, _) = next_word(without_return(line))?;
    room_of(word)
}

/// The text after the tag of a line: its words are those after the tag.
fn behind_tag(line: &[u8]) -> &[u8]
    requires { IsSome (spoken_in line.now) }
    ensures text { result.now ≡ drop 2 (after_blanks line.now) }
    ensures words { (word : List ℕ) (words : List (List ℕ)) → line_words line.now ≡ word ∷ words → line_words result.now ≡ words }
{
    let (_, behind) = after_blanks(line).split_at(TAG_LEN);
    behind
}

/// What a line in no room requests; `None` for a line without words.
fn refused(line: &[u8]) -> Option<Spoken>
    ensures { (payload : Told) → option_map (tagged_with payload) result ≡ no_room line.now }
{
    if is_long(line) {
        return Some(Spoken::Outside(Refusal::LongLine));
    }
    if no_words(without_return(line)) {
        return None;
    }
    Some(Spoken::Outside(Refusal::BadLine))
}

/// What follows a tag. A tag without further words is a bad line.
fn inside(room: Room, asked: Option<Request>) -> Spoken
    ensures { (payload : Told) (first : First) → option_map (item_with payload) asked ≡ first.item
        → Some (tagged_with payload result) ≡ (in_room room.number first).item }
{
    Spoken::Inside(room, asked.unwrap_or(Err(Refusal::BadLine)))
}

/// The segment of a room.
fn in_room(room: Room, segment: Segment<Request>) -> Segment<Spoken>
    ensures { (payload : Told) (first : List ℕ → First) (old new : Stocked) (left_before left : Option (List ℕ))
        → TookSegment first (item_with payload) old new left_before left segment
        → TookSegment (λ bytes. in_room room.number (first bytes)) (tagged_with payload) old new left_before left result }
{
    match segment {
        Segment::Whole(asked) => Segment::Whole(Some(inside(room, asked))),
        Segment::Last(asked) => Segment::Last(Some(inside(room, asked))),
        Segment::PastLimit => Segment::PastLimit,
    }
}

/// Takes what follows a line and its line feed.
fn take_spoken<S: Source>(
    stock: &mut Stock,
    payload: &mut Payload,
    line: &[u8],
    source: &mut S,
) -> Result<Segment<Spoken>, Failed>
    requires some { 0 < stock.old.rest }
    requires few { length stock.old.ahead ≤ stock.old.rest }
    requires empty { payload.old ≡ no_payload }
    requires one_line { list_any is_feed line.now ≡ false }
    ensures takes { TakesSegment (λ more. first_tagged (line.now ++ 10 ∷ more)) (tagged_with payload.new) stock.old stock.new (S.left source.old) (S.left source.new) result }
    ensures few { length stock.new.ahead ≤ stock.new.rest }
    ensures source { UsesSource (S.faults source.old) (S.faults source.new) (S.behind source.old) (S.behind source.new) result }
{
    match spoken_in(line) {
        None => Ok(Segment::Whole(refused(line))),
        Some(room) => {
            let segment = take_behind(stock, payload, behind_tag(line), source)?;
            Ok(in_room(room, segment))
        }
    }
}

/// What a last line without a line feed requests.
fn spoken_last(line: &[u8]) -> Option<Spoken>
    requires { list_any is_feed line.now ≡ false }
    ensures { option_map (tagged_with no_payload) result ≡ (first_tagged line.now).item }
{
    match spoken_in(line) {
        None => refused(line),
        Some(room) => Some(inside(room, asked_last(behind_tag(line)))),
    }
}

impl InputItem for Tagged {
    type Asked = AskedTagged;

    type Request = Spoken;

    ghost cut = { tagged_cut };

    ghost asks = { tagged_with };

    ghost asked = { tagged_by };

    ghost is_said = { IsTagged };

    fn take_segment<S: Source>(
        stock: &mut Stock,
        payload: &mut Payload,
        source: &mut S,
    ) -> Result<Segment<Spoken>, Failed> {
        payload.clear();
        let mut line = ArrayVec::new();
        match read_line(stock, &mut line, source)? {
            LineEnd::Feed => take_spoken(stock, payload, line.as_slice(), source),
            LineEnd::Last => Ok(Segment::Last(spoken_last(line.as_slice()))),
            LineEnd::Spent => Ok(Segment::PastLimit),
        }
    }

    fn of(spoken: Spoken) -> Tagged {
        match spoken {
            Spoken::Inside(room, Ok(command)) => Tagged {
                room: Some(room.number),
                item: Item::Command(command),
            },
            Spoken::Inside(room, Err(refusal)) => Tagged {
                room: Some(room.number),
                item: Item::Bad(refusal),
            },
            Spoken::Outside(refusal) => Tagged {
                room: None,
                item: Item::Bad(refusal),
            },
        }
    }
}
