//! Showing the route to a file.

ghost use Rattle.std.specs.Prelude.{◌++◌};
ghost use Rattle.std.specs.List.{flat_map};
ghost use Rattle.lis_eval.specs.Room.{HasRoom};
ghost use Rattle.lis_incr.specs.Left.{words_left, HasRoute};
ghost use Rattle.lis_model.specs.Replies.{body_line, ok_line, word_letter};
ghost use Rattle.lis_model.specs.Step.{way};
ghost use Rattle.lis_store.specs.Seen.{seen_of};
ghost use Rattle.lis_store.specs.Stored.{IsSound, StoreFits};
ghost use Rattle.lis_session.specs.Item.{Does};
ghost use Rattle.lis_session.specs.Parts.{Answers, Ends};

use crate::end::End;
use crate::replies::{answer_line, answer_ok, answer_refusal};
use lis_eval::Scratch;
use lis_incr::{Steps, left_steps, make_route};
use lis_model::refusal::Refusal;
use lis_place::Place;
use lis_ports::Station;
use lis_store::Store;
use lis_words::Name;

// Shows the words that are left, one by one.
fn answer_steps<T: Station>(mut steps: Steps<'_, Store>, station: &mut T) -> Result<(), End>
    ensures { Answers (T.meaning station.old) (T.meaning station.new) (flat_map (body_line word_letter) steps.entry) result }
{
    while let Some(word) = steps.next() {
        answer_line(station, b'd', word.bytes())?;
    }
    Ok(())
}

// Shows the route that was made last, and that the command was done.
fn answer_route<T: Station>(store: &Store, scratch: &Scratch, station: &mut T) -> Result<(), End>
    requires { HasRoute (seen_of store.now.metadata) scratch.now }
    ensures { Answers (T.meaning station.old) (T.meaning station.new)
        (flat_map (body_line word_letter) (words_left (seen_of store.now.metadata) scratch.now 0) ++ ok_line) result }
{
    answer_steps(left_steps(store, scratch), station)?;
    answer_ok(station)
}

/// Shows the route from the place to the file of that name.
pub fn way<T: Station>(
    store: &Store,
    scratch: &mut Scratch,
    place: &Place,
    name: &Name,
    station: &mut T,
) -> Result<(), End>
    requires sound { IsSound store.now }
    requires scratch { HasRoom scratch.old store.now.metadata.limits }
    ensures scratch { HasRoom scratch.new store.now.metadata.limits }
    ensures carries { Does (λ now. way now name.now) (StoreFits store.now (T.meaning station.old)) place.now
        (T.meaning station.old) (T.meaning station.new) result (StoreFits store.now (T.meaning station.new)) place.now }
    ensures ends { Ends (T.meaning station.old) (T.meaning station.new) result }
{
    if !make_route(store, scratch, place, name) {
        return answer_refusal(station, &Refusal::NoFileHere);
    }
    answer_route(store, scratch, station)
}
