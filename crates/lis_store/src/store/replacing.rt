//! Calls that change a file.

ghost use Rattle.std.specs.Prelude.{◌≡◌, ◌≤◌, length, IsTrue};
ghost use Rattle.lis_ports.specs.Calls.{IsUnchanged};
ghost use Rattle.lis_model.specs.State.{State, file_limit};
ghost use Rattle.lis_model.specs.Step.{write, rename, mv};
ghost use Rattle.lis_eval.specs.Room.{HasRoom};
ghost use Rattle.lis_store.specs.Stored.{StoreHolds, IsUsable};
ghost use Rattle.lis_store.specs.Changes.{Holds, Ends};

use crate::change_fault::ChangeFault;
use crate::contents::blocks_in;
use crate::describing::Draft;
use crate::file_bytes::read_file;
use crate::instead::{may_rename, may_stand_instead, may_write, own_in, size_in};
use crate::replacing::{replace_draft, replace_record};
use crate::retagging::{may_move, place_or_refusal};
use crate::saving::MOST_HELD;
use crate::store::Store;
use lis_eval::Scratch;
use lis_model::limits::file_limit;
use lis_model::refusal::Refusal;
use lis_place::{Place, Text};
use lis_ports::Disk;
use lis_words::Name;

impl Store {
    /// Gives a file other bytes: `write` at the place. If there are more bytes than a file may have, only their number counts.
    pub(crate) fn write<D: Disk>(
        &mut self,
        disk: &mut D,
        scratch: &mut Scratch,
        place: &Place,
        name: &Name,
        payload: &[u8],
        size: u64,
    ) -> Result<(), ChangeFault>
        requires whole { size ≤ file_limit self.old.metadata.limits → length payload.now ≡ size }
        requires scratch { HasRoom scratch.old self.old.metadata.limits }
        requires usable { IsUsable self.old (D.meaning disk.old) }
        ensures scratch { HasRoom scratch.new self.old.metadata.limits }
        ensures holds { (base : State) (s : State) → StoreHolds self.old (D.meaning disk.old) base s
            → Holds base (record { state = s; place = place.now })
            (write (record { state = s; place = place.now }) name.now (record { size = size; bytes = payload.now }))
            self.new (D.meaning disk.old) (D.meaning disk.new) result }
        ensures ends { Ends (disk.new ≡ disk.old) self.old self.new (D.meaning disk.old) (D.meaning disk.new) result }
    {
        if size > file_limit(self.memory.metadata.limits()) {
            return Err(ChangeFault::Refused(Refusal::LargeFile));
        }
        let Some(slot) = self.slot_here(scratch, place, name) else {
            return Err(ChangeFault::Refused(Refusal::NoFileHere));
        };
        let words = may_write(
            &self.memory.metadata,
            &mut scratch.search,
            slot,
            name,
            payload,
            size,
        )?;
        self.put_file(disk, &mut scratch.search, Some(slot), name, &words, payload)
    }

    /// Gives a file another name: `rename` at the place. Its bytes are read, since words are derived from them.
    pub(crate) fn rename<D: Disk>(
        &mut self,
        disk: &mut D,
        scratch: &mut Scratch,
        place: &Place,
        name: &Name,
        new: &Name,
    ) -> Result<(), ChangeFault>
        requires scratch { HasRoom scratch.old self.old.metadata.limits }
        requires usable { IsUsable self.old (D.meaning disk.old) }
        ensures scratch { HasRoom scratch.new self.old.metadata.limits }
        ensures holds { (base : State) (s : State) → StoreHolds self.old (D.meaning disk.old) base s
            → Holds base (record { state = s; place = place.now }) (rename (record { state = s; place = place.now }) name.now new.now)
            self.new (D.meaning disk.old) (D.meaning disk.new) result }
        ensures ends { Ends (IsTrue (D.meaning disk.old).is_honest → IsUnchanged (D.meaning disk.old) (D.meaning disk.new))
            self.old self.new (D.meaning disk.old) (D.meaning disk.new) result }
    {
        let Some(slot) = self.slot_here(scratch, place, name) else {
            return Err(ChangeFault::Refused(Refusal::NoFileHere));
        };
        if self.memory.metadata.slot_of(new).is_some() {
            return Err(ChangeFault::Refused(Refusal::NameTaken));
        }
        if let Err(fault) = read_file(
            &self.memory.metadata,
            &self.memory.journal,
            disk,
            &mut self.memory.bytes,
            slot,
        ) {
            self.memory.is_broken = true;
            return Err(ChangeFault::from(fault));
        }
        let words = may_rename(
            &self.memory.metadata,
            &mut scratch.search,
            slot,
            new,
            self.memory.bytes.bytes(),
        )?;
        let blocks = blocks_in(&self.memory.metadata, slot);
        replace_record(
            &mut self.memory.metadata,
            &mut scratch.search,
            Some(slot),
            new,
            &words,
            self.memory.bytes.bytes(),
            blocks,
        );
        self.memory.hold(disk, MOST_HELD)
    }

    /// Moves a file to the place to which a text leads: `mv` at the place. The file's bytes are not read, since the words derived from them
    /// stay.
    pub(crate) fn retag<D: Disk>(
        &mut self,
        disk: &mut D,
        scratch: &mut Scratch,
        place: &Place,
        name: &Name,
        text: &Text,
    ) -> Result<(), ChangeFault>
        requires scratch { HasRoom scratch.old self.old.metadata.limits }
        requires usable { IsUsable self.old (D.meaning disk.old) }
        ensures scratch { HasRoom scratch.new self.old.metadata.limits }
        ensures holds { (base : State) (s : State) → StoreHolds self.old (D.meaning disk.old) base s
            → Holds base (record { state = s; place = place.now }) (mv (record { state = s; place = place.now }) name.now text.now)
            self.new (D.meaning disk.old) (D.meaning disk.new) result }
        ensures ends { Ends (disk.new ≡ disk.old) self.old self.new (D.meaning disk.old) (D.meaning disk.new) result }
    {
        // As before each change, no disk call has failed.
        prove!(!self.memory.is_broken);
        let next = place_or_refusal(place, text)?;
        let Some(slot) = self.slot_here(scratch, place, name) else {
            return Err(ChangeFault::Refused(Refusal::NoFileHere));
        };
        let words = may_move(&self.memory.metadata, slot, place, &next, text)?;
        let own = own_in(&self.memory.metadata, slot);
        let draft = Draft {
            name,
            size: size_in(&self.memory.metadata, slot),
            assigned: words.as_slice(),
            own: own.as_slice(),
        };
        may_stand_instead(&self.memory.metadata, &mut scratch.search, slot, draft)?;
        let blocks = blocks_in(&self.memory.metadata, slot);
        replace_draft(
            &mut self.memory.metadata,
            &mut scratch.search,
            Some(slot),
            draft,
            blocks,
        );
        self.memory.hold(disk, MOST_HELD)
    }
}
