//! Words whose declaration is removed.

ghost use Rattle.std.specs.Prelude.{◌≡◌};
ghost use Rattle.lis_model.specs.Step.{Situation, rmdir};
ghost use Rattle.lis_model.specs.State.{State};
ghost use Rattle.lis_store.specs.Stored.{StoreHolds, IsUsable};
ghost use Rattle.lis_store.specs.Changes.{Holds, Ends};

use crate::change_fault::ChangeFault;
use crate::judging::may_undeclare;
use crate::saving::MOST_HELD;
use crate::store::Store;
use crate::testing::undeclare_unmet;
use lis_ports::Disk;
use lis_words::Word;

impl Store {
    /// Removes the declaration of a word: `rmdir`.
    pub(crate) fn undeclare<D: Disk>(
        &mut self,
        disk: &mut D,
        word: &Word,
    ) -> Result<(), ChangeFault>
        requires usable { IsUsable self.old (D.meaning disk.old) }
        ensures holds { (base : State) (now : Situation) → StoreHolds self.old (D.meaning disk.old) base now.state
            → Holds base now (rmdir now word.now) self.new (D.meaning disk.old) (D.meaning disk.new) result }
        ensures ends { Ends (disk.new ≡ disk.old) self.old self.new (D.meaning disk.old) (D.meaning disk.new) result }
    {
        let number = may_undeclare(&self.memory.metadata, word)?;
        undeclare_unmet(&mut self.memory.metadata, number);
        self.memory.hold(disk, MOST_HELD)
    }
}
