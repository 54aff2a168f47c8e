//! Files that are removed.

ghost use Rattle.std.specs.Prelude.{◌≡◌};
ghost use Rattle.lis_model.specs.State.{State};
ghost use Rattle.lis_model.specs.Step.{rm};
ghost use Rattle.lis_eval.specs.Room.{HasRoom};
ghost use Rattle.lis_store.specs.Stored.{StoreHolds, IsUsable};
ghost use Rattle.lis_store.specs.Changes.{Holds, Ends};

use crate::change_fault::ChangeFault;
use crate::removing::take_out;
use crate::saving::MOST_HELD;
use crate::store::Store;
use lis_eval::Scratch;
use lis_model::refusal::Refusal;
use lis_place::Place;
use lis_ports::Disk;
use lis_words::Name;

impl Store {
    /// Removes a file: `rm` at the place.
    pub(crate) fn remove<D: Disk>(
        &mut self,
        disk: &mut D,
        scratch: &mut Scratch,
        place: &Place,
        name: &Name,
    ) -> Result<(), ChangeFault>
        requires scratch { HasRoom scratch.old self.old.metadata.limits }
        requires usable { IsUsable self.old (D.meaning disk.old) }
        ensures scratch { HasRoom scratch.new self.old.metadata.limits }
        ensures holds { (base : State) (s : State) → StoreHolds self.old (D.meaning disk.old) base s
            → Holds base (record { state = s; place = place.now }) (rm (record { state = s; place = place.now }) name.now)
            self.new (D.meaning disk.old) (D.meaning disk.new) result }
        ensures ends { Ends (disk.new ≡ disk.old) self.old self.new (D.meaning disk.old) (D.meaning disk.new) result }
    {
        let Some(slot) = self.slot_here(scratch, place, name) else {
            return Err(ChangeFault::Refused(Refusal::NoFileHere));
        };
        self.memory.free_content(disk, slot)?;
        take_out(&mut self.memory.metadata, slot);
        self.memory.hold(disk, MOST_HELD)
    }
}
