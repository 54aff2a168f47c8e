//! The axioms of a dump.

ghost use Rattle.std.specs.Prelude.{slice_get, option_to_list};
ghost use Rattle.std.specs.List.{flat_map};
ghost use Rattle.lis_kept.specs.Telling.{axioms_of};
ghost use Rattle.lis_replay.specs.Dump.{axiom_line};
ghost use Rattle.lis_store.specs.Stored.{IsSound};
ghost use Rattle.lis_dump.specs.Showing.{axiom_lines, entry_axioms, Pages};

use crate::lines::axiom_line;
use crate::page::{Page, push_line};
use lis_eval::View;
use lis_ports::Station;
use lis_session::end::End;
use lis_store::Store;
use lis_words::Word;

// Shows the axioms of a word, in the order of their right sides.
fn show_axioms_of<T: Station>(
    store: &Store,
    left: &Word,
    page: &mut Page,
    station: &mut T,
) -> Result<(), End>
    requires { IsSound store.now }
    ensures { Pages store.now (λ state. axiom_lines (axioms_of store.now.metadata) left.now) page.old.items page.new.items
        (T.meaning station.old) (T.meaning station.new) result }
{
    let mut last: Option<Word> = None;
    while let Some(right) = store.axiom_behind(left, last.as_ref()) {
        push_line(page, &axiom_line(left, &right), station)?;
        last = Some(right);
    }
    Ok(())
}

// Shows the axioms of the k-th word, if there is one.
fn show_axioms_at<T: Station>(
    store: &Store,
    k: u32,
    page: &mut Page,
    station: &mut T,
) -> Result<(), End>
    requires { IsSound store.now }
    ensures { Pages store.now (λ state. flat_map (entry_axioms store.now.metadata) (option_to_list (slice_get store.now.metadata.dict.entries k)))
        page.old.items page.new.items (T.meaning station.old) (T.meaning station.new) result }
{
    let Some((word, _)) = store.word_at(k) else {
        return Ok(());
    };
    show_axioms_of(store, &word, page, station)
}

/// Shows the axioms, word by word.
pub fn show_axioms<T: Station>(store: &Store, page: &mut Page, station: &mut T) -> Result<(), End>
    requires { IsSound store.now }
    ensures { Pages store.now (λ state. flat_map axiom_line state.axioms) page.old.items page.new.items
        (T.meaning station.old) (T.meaning station.new) result }
{
    for k in 0..store.limits().props {
        show_axioms_at(store, k, page, station)?;
    }
    Ok(())
}
