//! Words that are declared.

ghost use Rattle.std.specs.Prelude.{◌≡◌};
ghost use Rattle.lis_model.specs.State.{State};
ghost use Rattle.lis_model.specs.Step.{mkdir};
ghost use Rattle.lis_store.specs.Stored.{StoreHolds, IsUsable};
ghost use Rattle.lis_store.specs.Changes.{Holds, Ends};

use crate::change_fault::ChangeFault;
use crate::judging::may_declare;
use crate::saving::MOST_HELD;
use crate::store::Store;
use crate::testing::declare_tested;
use lis_place::Place;
use lis_ports::Disk;
use lis_taxonomy::Search;
use lis_words::Word;

impl Store {
    /// Declares a word: `mkdir` at the place.
    pub(crate) fn declare<D: Disk>(
        &mut self,
        disk: &mut D,
        place: &Place,
        word: &Word,
        search: &mut Search,
    ) -> Result<(), ChangeFault>
        requires usable { IsUsable self.old (D.meaning disk.old) }
        ensures holds { (base : State) (s : State) → StoreHolds self.old (D.meaning disk.old) base s
            → Holds base (record { state = s; place = place.now }) (mkdir (record { state = s; place = place.now }) word.now)
            self.new (D.meaning disk.old) (D.meaning disk.new) result }
        ensures ends { Ends (disk.new ≡ disk.old) self.old self.new (D.meaning disk.old) (D.meaning disk.new) result }
    {
        let places = may_declare(&self.memory.metadata, place, word, search)?;
        declare_tested(&mut self.memory.metadata, word, places.as_slice(), search);
        self.memory.hold(disk, MOST_HELD)
    }
}
