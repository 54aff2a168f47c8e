//! The reader of items.

ghost use Rattle.std.specs.Prelude.{◌≡◌, ◌^◌, ◌≤◌, false, [], length, IfOk, IsTrue};
ghost use Rattle.lis_model.specs.Script.{session_cut};
ghost use Rattle.lis_line.specs.Taking.{UsesSource};

use crate::ahead::{Nothing, lies_whole};
use crate::asked::Request;
use crate::input::InputItem;
pub use crate::payload::Payload;
use crate::stock::Stock;
use crate::tagged::Tagged;
use crate::taken::{Taken, take_asked};
use lis_model::command::Command;
use lis_model::refusal::Refusal;
use lis_ports::{Failed, Source};
use std::marker::Model;

/// What the input of a session has next.
#[derive(Drop, Debug)]
pub enum Item {
    /// A command. The payload after its line is in the `Payload` that was passed to `next`.
    Command(Command),
    /// A segment of the input that is refused.
    Bad(Refusal),
    /// The end of the input.
    End,
    /// The input is longer than its limit.
    Limit,
}

/// What an item of a session requests, as clauses state it. Code has no use for its value.
pub struct AskedItem;

impl Model for AskedItem {
    ghost use Rattle.lis_model.specs.Step.{Item};
    ghost use Rattle.lis_model.specs.Script.{bad_line};

    ghost Value = { Item };

    ghost view = { λ _. bad_line };
}

/// What an input has next.
#[derive(Drop)]
pub enum Next<R> {
    /// What is requested.
    Item(R),
    /// The end of the input.
    End,
    /// The input is longer than its limit.
    Limit,
}

/// A reader of items, which ends after the end of the input, its limit or a fault.
#[derive(Drop)]
pub struct LineReader {
    stock: Stock,
    is_closed: bool,
    is_ended: bool,
}

impl Model for LineReader {
    ghost use Rattle.std.specs.Prelude.{◌≡◌, ◌<◌, ◌≤◌, Bool, false, length};
    ghost use Rattle.lis_line.specs.Reading.{Reading};

    ghost Value = { Reading };

    ghost view = { λ r. record { stock = r.stock; is_closed = r.is_closed; is_ended = r.is_ended } };

    ghost invariant = { λ r. (r.is_ended ≡ false → 0 < r.stock.rest) × (length r.stock.ahead ≤ r.stock.rest) };
}

impl LineReader {
    ghost use Rattle.lis_line.specs.Reading.{fresh, LiesWhole, Says, GoesOn, told, next_map, item_with, says_by};
    ghost use Rattle.lis_line.specs.Tagged.{tagged_cut};
    ghost use Rattle.lis_line.specs.Spoken.{says_tagged, IsTagged};

    /// A reader that gives the items of an input of at most `limit` bytes.
    pub fn new(limit: u64) -> LineReader
        requires { limit ≤ 2 ^ 40 }
        ensures { result ≡ fresh limit }
    {
        LineReader {
            stock: Stock::new(limit + 1),
            is_closed: false,
            is_ended: false,
        }
    }

    /// Whether the end, the limit or a fault was returned.
    pub fn is_ended(&self) -> bool
        ensures { result ≡ self.now.is_ended }
    {
        self.is_ended
    }

    /// Whether an item of a session is complete in what was taken. If so, `read_held` returns the next one without a source call.
    pub fn lies_whole(&self) -> bool
        ensures whole { IsTrue result → (self.now.is_closed ≡ false) × LiesWhole session_cut self.now.stock.ahead }
        ensures none { result ≡ false → self.now.is_closed ≡ false → session_cut.whole self.now.stock.ahead ≡ [] }
    {
        !self.is_closed && lies_whole(self.stock.ahead())
    }

    /// What the next item of an input of any kind requests, with its payload. Segments that request nothing are skipped.
    pub fn read<I: InputItem, S: Source>(
        &mut self,
        source: &mut S,
        payload: &mut Payload,
    ) -> Result<Next<I::Request>, Failed>
        requires { self.old.is_ended ≡ false }
        ensures says { Says I.cut self.old self.new (S.left source.old) (S.left source.new) (told (next_map (I.asks payload.new)) result) }
        ensures few { length self.new.stock.ahead ≤ self.new.stock.rest }
        ensures source { UsesSource (S.faults source.old) (S.faults source.new) (S.behind source.old) (S.behind source.new) result }
    {
        if self.is_closed {
            self.is_ended = true;
            return Ok(Next::End);
        }
        match take_asked::<I, S>(&mut self.stock, payload, source) {
            Ok(Taken::Whole(asked)) => Ok(Next::Item(asked)),
            Ok(Taken::Last(asked)) => {
                self.is_closed = true;
                Ok(Next::Item(asked))
            }
            Ok(Taken::NoMore) => {
                self.is_ended = true;
                Ok(Next::End)
            }
            Ok(Taken::PastLimit) => {
                self.is_ended = true;
                Ok(Next::Limit)
            }
            Err(failed) => {
                self.is_ended = true;
                Err(failed)
            }
        }
    }

    /// What the next item of a session requests, as `read` returns it. If one is complete in what was taken, the source is not called, and
    /// the result is neither the end nor a fault.
    pub fn read_held<S: Source>(
        &mut self,
        lies_whole: bool,
        source: &mut S,
        payload: &mut Payload,
    ) -> Result<Next<Request>, Failed>
        requires going { self.old.is_ended ≡ false }
        requires whole { IsTrue lies_whole → (self.old.is_closed ≡ false) × LiesWhole session_cut self.old.stock.ahead }
        ensures says { Says session_cut self.old self.new (S.left source.old) (S.left source.new) (told (next_map (item_with payload.new)) result) }
        ensures few { length self.new.stock.ahead ≤ self.new.stock.rest }
        ensures source { UsesSource (S.faults source.old) (S.faults source.new) (S.behind source.old) (S.behind source.new) result }
        ensures still { IsTrue lies_whole → source.new ≡ source.old }
        ensures goes_on { IsTrue lies_whole → GoesOn result }
    {
        if lies_whole {
            return self.read::<Item, Nothing>(&mut Nothing, payload);
        }
        self.read::<Item, S>(source, payload)
    }

    /// The next item of a session, with its payload. Lines without words are skipped.
    pub fn next<S: Source>(&mut self, source: &mut S, payload: &mut Payload) -> Result<Item, Failed>
        requires { self.old.is_ended ≡ false }
        ensures says { Says session_cut self.old self.new (S.left source.old) (S.left source.new) (told (says_by payload.new) result) }
        ensures few { length self.new.stock.ahead ≤ self.new.stock.rest }
        ensures source { UsesSource (S.faults source.old) (S.faults source.new) (S.behind source.old) (S.behind source.new) result }
    {
        match self.read::<Item, S>(source, payload)? {
            Next::Item(request) => Ok(Item::of(request)),
            Next::End => Ok(Item::End),
            Next::Limit => Ok(Item::Limit),
        }
    }

    /// The next item of an input of rooms, with its payload. Lines without words are skipped.
    pub fn next_tagged<S: Source>(
        &mut self,
        source: &mut S,
        payload: &mut Payload,
    ) -> Result<Tagged, Failed>
        requires { self.old.is_ended ≡ false }
        ensures says { Says tagged_cut self.old self.new (S.left source.old) (S.left source.new) (told (says_tagged payload.new) result) }
        ensures said { IfOk result IsTagged }
        ensures few { length self.new.stock.ahead ≤ self.new.stock.rest }
        ensures source { UsesSource (S.faults source.old) (S.faults source.new) (S.behind source.old) (S.behind source.new) result }
    {
        match self.read::<Tagged, S>(source, payload)? {
            Next::Item(spoken) => Ok(Tagged::of(spoken)),
            Next::End => Ok(Tagged {
                room: None,
                item: Item::End,
            }),
            Next::Limit => Ok(Tagged {
                room: None,
                item: Item::Limit,
            }),
        }
    }
}
