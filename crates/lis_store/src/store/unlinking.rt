//! `unaxiom`.

ghost use Rattle.std.specs.Prelude.{◌≡◌};
ghost use Rattle.lis_model.specs.Step.{Situation, unaxiom};
ghost use Rattle.lis_model.specs.State.{State};
ghost use Rattle.lis_store.specs.Stored.{StoreHolds, IsUsable};
ghost use Rattle.lis_store.specs.Changes.{Holds, Ends};

use crate::change_fault::ChangeFault;
use crate::lessening::take_axiom;
use crate::relating::axiom_numbers;
use crate::saving::MOST_HELD;
use crate::store::Store;
use lis_model::refusal::Refusal;
use lis_ports::Disk;
use lis_taxonomy::Search;
use lis_words::Word;

impl Store {
    /// Removes an axiom: `unaxiom`.
    pub(crate) fn unaxiom<D: Disk>(
        &mut self,
        disk: &mut D,
        left: &Word,
        right: &Word,
        search: &mut Search,
    ) -> Result<(), ChangeFault>
        requires usable { IsUsable self.old (D.meaning disk.old) }
        ensures holds { (base : State) (now : Situation) → StoreHolds self.old (D.meaning disk.old) base now.state
            → Holds base now (unaxiom now (left.now, right.now)) self.new (D.meaning disk.old) (D.meaning disk.new) result }
        ensures ends { Ends (disk.new ≡ disk.old) self.old self.new (D.meaning disk.old) (D.meaning disk.new) result }
    {
        let Some((from, to)) = axiom_numbers(&self.memory.metadata, left, right) else {
            return Err(ChangeFault::Refused(Refusal::NoAxiom));
        };
        take_axiom(&mut self.memory.metadata, from, to, search);
        self.memory.hold(disk, MOST_HELD)
    }
}
