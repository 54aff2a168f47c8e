//! The whole dump.

ghost use Rattle.std.specs.Prelude.{List, [], IsTrue};
ghost use Rattle.lis_grammar.specs.Formula.{Formula};
ghost use Rattle.lis_replay.specs.Dump.{dump_of};
ghost use Rattle.lis_store.specs.Stored.{IsSound, StoreFits, IsUsable};
ghost use Rattle.lis_session.specs.Item.{Does};
ghost use Rattle.lis_session.specs.Parts.{only_shows, Ends};
ghost use Rattle.lis_session.specs.Showing.{DiskStays};

use crate::axioms::show_axioms;
use crate::files::show_files;
use crate::page::show_page;
use crate::words::show_words;
use arrayvec::ArrayVec;
use lis_ports::Station;
use lis_session::end::End;
use lis_store::Store;

/// Shows the dump of the state that the image represents: lines by pages of at most 4,096 bytes, and the bytes of each file block by block. It
/// allocates no memory.
pub fn dump_state<T: Station>(store: &Store, station: &mut T) -> Result<(), End>
    requires sound { IsSound store.now }
    requires usable { IsUsable store.now (T.meaning station.old) }
    ensures shows { Does {P = List Formula} (λ now. only_shows (dump_of now.state) now) (StoreFits store.now (T.meaning station.old)) []
        (T.meaning station.old) (T.meaning station.new) result (StoreFits store.now (T.meaning station.new)) [] }
    ensures ends { Ends (T.meaning station.old) (T.meaning station.new) result }
    ensures disk { IsTrue (T.meaning station.old).is_honest → DiskStays (T.meaning station.old) (T.meaning station.new) }
{
    let mut page = ArrayVec::new();
    show_words(store, &mut page, station)?;
    show_files(store, &mut page, station)?;
    show_axioms(store, &mut page, station)?;
    show_page(&mut page, station)
}
