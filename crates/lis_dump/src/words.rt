//! The declared words of a dump.

ghost use Rattle.std.specs.Prelude.{slice_get, option_to_list};
ghost use Rattle.std.specs.List.{flat_map};
ghost use Rattle.lis_replay.specs.Dump.{mkdir_line};
ghost use Rattle.lis_store.specs.Stored.{IsSound};
ghost use Rattle.lis_dump.specs.Showing.{declaring_line, Pages};

use crate::lines::mkdir_line;
use crate::page::{Page, push_line};
use lis_eval::View;
use lis_ports::Station;
use lis_session::end::End;
use lis_store::Store;

// Shows the line of the k-th word, if there is one and it is declared.
fn show_word<T: Station>(store: &Store, k: u32, page: &mut Page, station: &mut T) -> Result<(), End>
    ensures { Pages store.now (λ state. flat_map (declaring_line store.now.metadata) (option_to_list (slice_get store.now.metadata.dict.entries k)))
        page.old.items page.new.items (T.meaning station.old) (T.meaning station.new) result }
{
    let Some((word, _)) = store.word_at(k) else {
        return Ok(());
    };
    if !store.is_declared(&word) {
        return Ok(());
    }
    push_line(page, &mkdir_line(&word), station)
}

/// Shows the lines of the declared words.
pub fn show_words<T: Station>(store: &Store, page: &mut Page, station: &mut T) -> Result<(), End>
    requires { IsSound store.now }
    ensures { Pages store.now (λ state. flat_map mkdir_line state.declared) page.old.items page.new.items
        (T.meaning station.old) (T.meaning station.new) result }
{
    for k in 0..store.limits().props {
        show_word(store, k, page, station)?;
    }
    Ok(())
}
