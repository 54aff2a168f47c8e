//! Showing the view of a file.

ghost use Rattle.std.specs.Prelude.{◌≡◌, ℕ, ◌+◌, ◌<◌, ◌^◌, List, [], ◌++◌, Some, option_copied, IsTrue};
ghost use Rattle.lis_catalog.specs.Catalog.{slot_of};
ghost use Rattle.lis_model.specs.Changes.{file_of};
ghost use Rattle.lis_model.specs.Step.{Situation};
ghost use Rattle.lis_views.specs.Views.{view_of};
ghost use Rattle.lis_store.specs.Stored.{IsSound, StoreFits, IsUsable};
ghost use Rattle.lis_session.specs.Item.{Does};
ghost use Rattle.lis_session.specs.Parts.{Answers, Ends};
ghost use Rattle.lis_session.specs.Showing.{DiskStays, Shows};
ghost use Rattle.lis_parts.specs.Commands.{view};
ghost use Rattle.lis_parts.specs.Showing.{Says};
ghost use Rattle.lis_parts.specs.Viewing.{mark_text, next_number, shown_text, end_text, pieces_text};

use crate::formula::read_place;
use crate::loading::load;
use crate::showing::{Outgoing, flush, say};
use crate::workspace::Workspace;
use lis_cuts::forms::mark;
use lis_cuts::lines::is_open;
use lis_cuts::stretches::{Stretch, next_stretch};
use lis_eval::View;
use lis_model::refusal::Refusal;
use lis_place::Place;
use lis_ports::{Failed, Station};
use lis_session::end::End;
use lis_session::replies::answer_refusal;
use lis_store::Store;
use lis_words::Name;

// The mark of a run with this number, if any lines are hidden.
fn say_mark<T: Station>(
    station: &mut T,
    kept: &mut Outgoing,
    number: u64,
    hidden: u64,
) -> Result<(), End>
    requires { 0 < number }
    ensures { Says (T.meaning station.old) (T.meaning station.new) kept.old.items kept.new.items (mark_text number hidden) result }
{
    if hidden == 0 {
        return Ok(());
    }
    say(station, kept, mark(number, hidden).as_slice())?;
    say(station, kept, b"\n")
}

fn say_shown<T: Station>(
    station: &mut T,
    kept: &mut Outgoing,
    shown: Option<&[u8]>,
) -> Result<(), End>
    ensures { Says (T.meaning station.old) (T.meaning station.new) kept.old.items kept.new.items (shown_text (option_copied shown.entry)) result }
{
    let Some(text) = shown else {
        return Ok(());
    };
    say(station, kept, b"+")?;
    say(station, kept, text)?;
    say(station, kept, b"\n")
}

fn say_stretch<T: Station>(
    station: &mut T,
    kept: &mut Outgoing,
    number: u64,
    stretch: &Stretch,
) -> Result<(), End>
    requires { 0 < number }
    ensures { Says (T.meaning station.old) (T.meaning station.new) kept.old.items kept.new.items
        (mark_text number stretch.now.hidden ++ shown_text (option_copied stretch.now.shown)) result }
{
    say_mark(station, kept, number, stretch.hidden)?;
    say_shown(station, kept, stretch.shown)
}

fn next_number(number: u64, hidden: u64) -> u64
    requires { number + 1 < 2 ^ 64 }
    ensures { result ≡ next_number number hidden }
{
    if hidden == 0 { number } else { number + 1 }
}

fn say_pieces<T: Station>(
    station: &mut T,
    kept: &mut Outgoing,
    place: &Place,
    bytes: &[u8],
) -> Result<(), End>
    ensures { Says (T.meaning station.old) (T.meaning station.new) kept.old.items kept.new.items (pieces_text 1 bytes.now place.now) result }
{
    let mut rest = bytes;
    let mut number = 1;
    loop {
        let stretch = next_stretch(place, rest);
        say_stretch(station, kept, number, &stretch)?;
        if stretch.shown.is_none() {
            return Ok(());
        }
        number = next_number(number, stretch.hidden);
        rest = stretch.rest;
    }
}

fn say_end<T: Station>(station: &mut T, kept: &mut Outgoing, is_open: bool) -> Result<(), End>
    ensures { Says (T.meaning station.old) (T.meaning station.new) kept.old.items kept.new.items (end_text is_open) result }
{
    if !is_open {
        return Ok(());
    }
    say(station, kept, b"!\n")
}

// Shows the view of the bytes.
fn show_view<T: Station>(station: &mut T, place: &Place, bytes: &[u8]) -> Result<(), End>
    ensures { Answers (T.meaning station.old) (T.meaning station.new) (view_of bytes.now place.now) result }
{
    let mut kept = Outgoing::new();
    say_pieces(station, &mut kept, place, bytes)?;
    say_end(station, &mut kept, is_open(bytes))?;
    flush(station, &mut kept)
}

// Shows the view of the file in the slot.
fn view_slot<T: Station>(
    store: &Store,
    workspace: &mut Workspace,
    station: &mut T,
    place: &Place,
    slot: u32,
) -> Result<(), End>
    requires sound { IsSound store.now }
    requires slot { (name : List ℕ) × (slot_of store.now.metadata.catalog name ≡ Some slot) }
    requires usable { IsUsable store.now (T.meaning station.old) }
    ensures shows { (name : List ℕ) → slot_of store.now.metadata.catalog name ≡ Some slot
        → Shows store.now (λ state. view_of (file_of state.files name).bytes place.now) (T.meaning station.old) (T.meaning station.new) result }
    ensures limits { workspace.new ≡ workspace.old }
{
    let size = store.file_size(slot);
    if let Err(Failed) = load(store, slot, size, &mut workspace.file, station) {
        return Err(End::DiskFault);
    }
    show_view(station, place, workspace.file.bytes())
}

/// Shows the lines of the file of that name of which the formula of the text holds, and a mark instead of each run of others. The text is
/// refused if it is no formula or too large, and otherwise the name if the state has no such file.
pub fn view_file<T: Station>(
    store: &Store,
    workspace: &mut Workspace,
    station: &mut T,
    name: &Name,
    text: &[u8],
) -> Result<(), End>
    requires sound { IsSound store.now }
    requires usable { IsUsable store.now (T.meaning station.old) }
    ensures shows { Does (λ (now : Situation). view now name.now text.now) (StoreFits store.now (T.meaning station.old)) []
        (T.meaning station.old) (T.meaning station.new) result (StoreFits store.now (T.meaning station.new)) [] }
    ensures ends { Ends (T.meaning station.old) (T.meaning station.new) result }
    ensures disk { IsTrue (T.meaning station.old).is_honest → DiskStays (T.meaning station.old) (T.meaning station.new) }
    ensures limits { workspace.new ≡ workspace.old }
{
    let place = match read_place(text) {
        Ok(place) => place,
        Err(refusal) => return answer_refusal(station, &refusal),
    };
    let Some(slot) = store.slot_of(name) else {
        return answer_refusal(station, &Refusal::NoFileHere);
    };
    view_slot(store, workspace, station, &place, slot)
}
