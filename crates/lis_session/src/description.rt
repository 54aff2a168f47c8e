//! Showing the description of a file.

ghost use Rattle.std.specs.Prelude.{◌++◌, ◌<◌, length, slice_get, option_to_list};
ghost use Rattle.std.specs.List.{flat_map};
ghost use Rattle.lis_eval.specs.Room.{HasRoom};
ghost use Rattle.lis_model.specs.Replies.{body_line, ok_line, property_letter};
ghost use Rattle.lis_model.specs.Step.{props};
ghost use Rattle.lis_store.specs.Stored.{IsSound, StoreFits};
ghost use Rattle.lis_session.specs.Item.{Does};
ghost use Rattle.lis_session.specs.Parts.{Answers, Ends};
ghost use Rattle.lis_session.specs.Described.{words_had};

use crate::end::End;
use crate::replies::{answer_line, answer_ok, answer_refusal};
use lis_eval::{Scratch, View};
use lis_model::refusal::Refusal;
use lis_place::Place;
use lis_ports::Station;
use lis_store::Store;
use lis_words::Name;

// Shows the k-th word, if there is one and the file in the slot has it.
fn answer_word<T: Station>(store: &Store, slot: u32, k: u32, station: &mut T) -> Result<(), End>
    requires sound { IsSound store.now }
    requires slot { slot < length store.now.metadata.ext.sets }
    ensures { Answers (T.meaning station.old) (T.meaning station.new)
        (flat_map (body_line property_letter) (words_had store.now.metadata slot (option_to_list (slice_get store.now.metadata.dict.entries k)))) result }
{
    let Some((word, number)) = store.word_at(k) else {
        return Ok(());
    };
    if !store.descriptions().has(number, slot) {
        return Ok(());
    }
    answer_line(station, b'p', word.bytes())
}

// Shows the words that the file in the slot has, one by one.
fn answer_words<T: Station>(store: &Store, slot: u32, station: &mut T) -> Result<(), End>
    requires sound { IsSound store.now }
    requires slot { slot < length store.now.metadata.ext.sets }
    ensures { Answers (T.meaning station.old) (T.meaning station.new)
        (flat_map (body_line property_letter) (words_had store.now.metadata slot store.now.metadata.dict.entries)) result }
{
    for k in 0..store.limits().props {
        answer_word(store, slot, k, station)?;
    }
    Ok(())
}

// Shows the words that the file in the slot has, and that the command was done.
fn answer_description<T: Station>(store: &Store, slot: u32, station: &mut T) -> Result<(), End>
    requires sound { IsSound store.now }
    requires slot { slot < length store.now.metadata.ext.sets }
    ensures { Answers (T.meaning station.old) (T.meaning station.new)
        (flat_map (body_line property_letter) (words_had store.now.metadata slot store.now.metadata.dict.entries) ++ ok_line) result }
{
    answer_words(store, slot, station)?;
    answer_ok(station)
}

/// Shows the words of the description of the file of that name.
pub fn props<T: Station>(
    store: &Store,
    scratch: &mut Scratch,
    place: &Place,
    name: &Name,
    station: &mut T,
) -> Result<(), End>
    requires sound { IsSound store.now }
    requires scratch { HasRoom scratch.old store.now.metadata.limits }
    ensures scratch { HasRoom scratch.new store.now.metadata.limits }
    ensures carries { Does (λ now. props now name.now) (StoreFits store.now (T.meaning station.old)) place.now
        (T.meaning station.old) (T.meaning station.new) result (StoreFits store.now (T.meaning station.new)) place.now }
    ensures ends { Ends (T.meaning station.old) (T.meaning station.new) result }
{
    let Some(slot) = store.slot_here(scratch, place, name) else {
        return answer_refusal(station, &Refusal::NoFileHere);
    };
    answer_description(store, slot, station)
}
