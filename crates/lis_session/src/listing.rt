//! Showing the listing of a place.

ghost use Rattle.std.specs.Prelude.{◌≡◌, ◌+◌, ◌≤◌, ◌++◌, [], length};
ghost use Rattle.std.specs.List.{flat_map};
ghost use Rattle.lis_eval.specs.Room.{HasRoom};
ghost use Rattle.lis_model.specs.Listing.{increments, locals};
ghost use Rattle.lis_model.specs.Replies.{listing_lines, ok_line};
ghost use Rattle.lis_model.specs.Step.{ls};
ghost use Rattle.lis_store.specs.Seen.{table_of};
ghost use Rattle.lis_store.specs.Stored.{IsSound, StoreFits};
ghost use Rattle.lis_session.specs.Item.{Does};
ghost use Rattle.lis_session.specs.Parts.{shown_line, Answers, Ends};

use crate::end::End;
use crate::replies::{answer_bytes, answer_ok};
use arrayvec::ArrayVec;
use lis_eval::Scratch;
use lis_incr::{Line, Listing, lines, make_listing};
use lis_limits::MAX_WORD;
use lis_place::Place;
use lis_ports::Station;
use lis_store::Store;

// How many bytes of lines are shown in one call, at most.
const PAGE_LEN: usize = 4_096;

// The most bytes of a line: a letter, a blank, a word or a name, and a line feed.
const LINE_LEN: usize = MAX_WORD + 3;

// Appends a line: `d` and a word, or `f` and a name.
fn push_line(page: &mut ArrayVec<u8, PAGE_LEN>, line: &Line)
    requires { length page.old.items + LINE_LEN ≤ PAGE_LEN }
    ensures { page.new.items ≡ page.old.items ++ shown_line line.now }
{
    let (letter, text) = match line {
        Line::Prop(word) => (b'd', word.bytes()),
        Line::File(name) => (b'f', name.bytes()),
    };
    page.push(letter);
    page.push(b' ');
    page.try_extend_from_slice(text).unwrap();
    page.push(b'\n');
}

// Takes as many of the next lines as surely fit on one page.
fn next_page(listing: &mut Listing<'_, Store>) -> ArrayVec<u8, PAGE_LEN>
    ensures page { flat_map shown_line listing.old ≡ result.items ++ flat_map shown_line listing.new }
    ensures last { length result.items ≡ 0 → listing.new ≡ [] }
{
    let mut page = ArrayVec::new();
    while page.len() + LINE_LEN <= PAGE_LEN {
        let Some(line) = listing.next() else {
            return page;
        };
        push_line(&mut page, &line);
    }
    page
}

// Shows the lines that are left, a page at a time.
fn answer_lines<T: Station>(mut listing: Listing<'_, Store>, station: &mut T) -> Result<(), End>
    ensures { Answers (T.meaning station.old) (T.meaning station.new) (flat_map shown_line listing.entry) result }
{
    let mut page = next_page(&mut listing);
    while !page.is_empty() {
        answer_bytes(station, page.as_slice())?;
        page = next_page(&mut listing);
    }
    Ok(())
}

// Shows the listing of the place, and that the command was done.
fn answer_listing<T: Station>(
    store: &Store,
    scratch: &mut Scratch,
    place: &Place,
    station: &mut T,
) -> Result<(), End>
    requires { HasRoom scratch.old store.now.metadata.limits }
    ensures room { HasRoom scratch.new store.now.metadata.limits }
    ensures answers { Answers (T.meaning station.old) (T.meaning station.new)
        (listing_lines (increments (table_of store.now.metadata) place.now) (locals (table_of store.now.metadata) place.now) ++ ok_line) result }
{
    make_listing(store, scratch, place);
    answer_lines(lines(store, scratch), station)?;
    answer_ok(station)
}

/// Shows the increments and the locals of the place.
pub fn ls<T: Station>(
    store: &Store,
    scratch: &mut Scratch,
    place: &Place,
    station: &mut T,
) -> Result<(), End>
    requires sound { IsSound store.now }
    requires scratch { HasRoom scratch.old store.now.metadata.limits }
    ensures room { HasRoom scratch.new store.now.metadata.limits }
    ensures carries { Does ls (StoreFits store.now (T.meaning station.old)) place.now
        (T.meaning station.old) (T.meaning station.new) result (StoreFits store.now (T.meaning station.new)) place.now }
    ensures ends { Ends (T.meaning station.old) (T.meaning station.new) result }
{
    answer_listing(store, scratch, place, station)
}
