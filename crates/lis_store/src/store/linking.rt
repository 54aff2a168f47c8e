//! Axioms of a store.

ghost use Rattle.std.specs.Prelude.{◌≡◌};
ghost use Rattle.lis_model.specs.Step.{Situation, add_axiom};
ghost use Rattle.lis_model.specs.State.{State};
ghost use Rattle.lis_store.specs.Stored.{StoreHolds, IsUsable};
ghost use Rattle.lis_store.specs.Changes.{Holds, Ends};

use crate::change_fault::ChangeFault;
use crate::relating::may_relate;
use crate::relating_in::relate;
use crate::saving::MOST_HELD;
use crate::store::Store;
use lis_ports::Disk;
use lis_taxonomy::Search;
use lis_words::Word;

impl Store {
    /// Adds an axiom: from now on each file that has the left word has all that the right one entails.
    pub(crate) fn axiom<D: Disk>(
        &mut self,
        disk: &mut D,
        left: &Word,
        right: &Word,
        search: &mut Search,
    ) -> Result<(), ChangeFault>
        requires usable { IsUsable self.old (D.meaning disk.old) }
        ensures holds { (base : State) (now : Situation) → StoreHolds self.old (D.meaning disk.old) base now.state
            → Holds base now (add_axiom now (left.now, right.now)) self.new (D.meaning disk.old) (D.meaning disk.new) result }
        ensures ends { Ends (disk.new ≡ disk.old) self.old self.new (D.meaning disk.old) (D.meaning disk.new) result }
    {
        may_relate(&self.memory.metadata, left, right, search)?;
        relate(&mut self.memory.metadata, left, right, search);
        self.memory.hold(disk, MOST_HELD)
    }
}
