//! Showing the counts.

ghost use Rattle.std.specs.Prelude.{List};
ghost use Rattle.lis_grammar.specs.Formula.{Formula};
ghost use Rattle.lis_model.specs.Step.{stat};
ghost use Rattle.lis_store.specs.Stored.{IsSound, StoreFits};
ghost use Rattle.lis_session.specs.Item.{Does};
ghost use Rattle.lis_session.specs.Parts.{Answers, Ends};
ghost use Rattle.lis_session.specs.Counting.{counts_reply};

use crate::end::End;
use crate::replies::{answer_count, answer_ok};
use lis_ports::Station;
use lis_store::{Counts, Store};

// Shows the counts, a line each, and that the command was done.
fn answer_counts<T: Station>(station: &mut T, counts: &Counts) -> Result<(), End>
    ensures { Answers (T.meaning station.old) (T.meaning station.new) (counts_reply counts.now) result }
{
    answer_count(station, b"s files", counts.files)?;
    answer_count(station, b"s known", counts.known)?;
    answer_count(station, b"s axioms", counts.axioms)?;
    answer_count(station, b"s free", counts.free)?;
    answer_ok(station)
}

/// Shows how many files, known words, axioms and free blocks there are, whatever the place.
pub fn stat<T: Station>(store: &Store, station: &mut T) -> Result<(), End>
    requires { IsSound store.now }
    ensures carries { (place : List Formula) → Does stat (StoreFits store.now (T.meaning station.old)) place
        (T.meaning station.old) (T.meaning station.new) result (StoreFits store.now (T.meaning station.new)) place }
    ensures ends { Ends (T.meaning station.old) (T.meaning station.new) result }
{
    answer_counts(station, &store.counts())
}
