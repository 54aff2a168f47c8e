//! Files that are made.

ghost use Rattle.std.specs.Prelude.{◌≡◌, ◌≤◌, true, [], length, OnOk};
ghost use Rattle.lis_content.specs.Large.{is_large};
ghost use Rattle.lis_model.specs.Changes.{new_file, file_added};
ghost use Rattle.lis_model.specs.Derived.{derived_words};
ghost use Rattle.lis_model.specs.State.{State, file_limit};
ghost use Rattle.lis_model.specs.Step.{Situation, changed, add};
ghost use Rattle.lis_store.specs.Stored.{StoreHolds, IsUsable};
ghost use Rattle.lis_store.specs.Changes.{Holds, Ends, EndsUnrefused, ChangeKeeps, ChangesDisk};
ghost use Rattle.lis_store.specs.ReplacingIn.{MayPutBytes, record_in, file_gone};

use crate::admitting::{NewFile, may_add};
use crate::change_fault::ChangeFault;
use crate::describing::FileWords;
use crate::replacing::replace_record;
use crate::saving::most_held;
use crate::store::Store;
use lis_content::is_large;
use lis_place::Place;
use lis_ports::Disk;
use lis_taxonomy::Search;
use lis_words::Name;

impl Store {
    /// Makes a file of these bytes: `create` and `add` at the place. If there are more bytes than a file may have, only their number
    /// counts.
    pub(crate) fn add<D: Disk>(
        &mut self,
        disk: &mut D,
        search: &mut Search,
        place: &Place,
        file: NewFile,
    ) -> Result<(), ChangeFault>
        requires whole { file.size ≤ file_limit self.old.metadata.limits → length file.bytes.now ≡ file.size }
        requires usable { IsUsable self.old (D.meaning disk.old) }
        ensures holds { (base : State) (s : State) → StoreHolds self.old (D.meaning disk.old) base s
            → Holds base (record { state = s; place = place.now })
            (add (record { state = s; place = place.now }) file.entry.name.now file.entry.tags.now (record { size = file.entry.size; bytes = file.entry.bytes.now }))
            self.new (D.meaning disk.old) (D.meaning disk.new) result }
        ensures ends { Ends (disk.new ≡ disk.old) self.old self.new (D.meaning disk.old) (D.meaning disk.new) result }
    {
        let words = may_add(&self.memory.metadata, search, place, file)?;
        self.put_file(disk, search, None, file.name, &words, file.bytes)
    }

    /// Puts a file in, instead of the one in the slot if a slot is given. Before a large one, all that is held back is committed.
    pub(crate) fn put_file<D: Disk>(
        &mut self,
        disk: &mut D,
        search: &mut Search,
        slot: Option<u32>,
        name: &Name,
        words: &FileWords,
        payload: &[u8],
    ) -> Result<(), ChangeFault>
        requires derived { words.now.derived ≡ derived_words name.now payload.now }
        requires may { MayPutBytes self.old.metadata slot (new_file name.now words.now.assigned.items payload.now) }
        requires usable { IsUsable self.old (D.meaning disk.old) }
        ensures holds { (base : State) (now : Situation) → StoreHolds self.old (D.meaning disk.old) base now.state
            → Holds base now (changed now (file_added (file_gone now.state (record_in self.old.metadata slot)) (new_file name.now words.now.assigned.items payload.now)))
            self.new (D.meaning disk.old) (D.meaning disk.new) result }
        ensures ended { EndsUnrefused self.new.is_broken result }
        ensures ends { Ends (disk.new ≡ disk.old) self.old self.new (D.meaning disk.old) (D.meaning disk.new) result }
    {
        // The store is sound, whatever is committed.
        let _ = &self.memory;
        if is_large(payload.len() as u32) {
            self.commit(disk)?;
        }
        self.put_alone(disk, search, slot, name, words, payload)
    }

    // As `put_file`, if nothing is held back before a large file. A large file is committed at once.
    fn put_alone<D: Disk>(
        &mut self,
        disk: &mut D,
        search: &mut Search,
        slot: Option<u32>,
        name: &Name,
        words: &FileWords,
        payload: &[u8],
    ) -> Result<(), ChangeFault>
        requires derived { words.now.derived ≡ derived_words name.now payload.now }
        requires may { MayPutBytes self.old.metadata slot (new_file name.now words.now.assigned.items payload.now) }
        requires alone { is_large (length payload.now) ≡ true → self.old.journal.staged ≡ [] }
        requires usable { IsUsable self.old (D.meaning disk.old) }
        ensures holds { (base : State) (now : Situation) → StoreHolds self.old (D.meaning disk.old) base now.state
            → Holds base now (changed now (file_added (file_gone now.state (record_in self.old.metadata slot)) (new_file name.now words.now.assigned.items payload.now)))
            self.new (D.meaning disk.old) (D.meaning disk.new) result }
        ensures settled { is_large (length payload.now) ≡ true → OnOk result (self.new.journal.staged ≡ []) }
        ensures ended { EndsUnrefused self.new.is_broken result }
        ensures keeps { ChangeKeeps self.old self.new result }
        ensures disk { ChangesDisk (D.meaning disk.old) (D.meaning disk.new) result }
    {
        let blocks = self.memory.put_anew(disk, slot, payload)?;
        replace_record(
            &mut self.memory.metadata,
            search,
            slot,
            name,
            words,
            payload,
            blocks,
        );
        self.memory.hold(disk, most_held(payload))
    }
}
