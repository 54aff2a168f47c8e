//! A store: what memory keeps of an image, its journal, and the calls that change both.

ghost use Rattle.std.specs.Prelude.{◌≡◌, ℕ, ◌+◌, ◌*◌, ◌<◌, List, false, is_some, [], length, take, Some, Ok, Err, IsTrue, OnOk, IfSome, IsSomeAnd};
ghost use Rattle.lis_ports.specs.Bytes.{part};
ghost use Rattle.lis_ports.specs.Calls.{ReadsDisk};
ghost use Rattle.lis_catalog.specs.Catalog.{slot_of, rec_at};
ghost use Rattle.lis_fields.specs.Records.{FileRecord};
ghost use Rattle.lis_model.specs.declared.refusal.Refusal.{Refusal};
ghost use Rattle.lis_model.specs.Changes.{file_of};
ghost use Rattle.lis_model.specs.State.{State};
ghost use Rattle.lis_eval.specs.Room.{HasRoom};
ghost use Rattle.lis_kept.specs.Telling.{is_declared};
ghost use Rattle.lis_store.specs.declared.change_fault.ChangeFault.TheVariants.{Refused};
ghost use Rattle.lis_store.specs.Stored.{IsSound, StoreFits, StoreHolds, IsIndex, IsUsable};
ghost use Rattle.lis_store.specs.Judging.{is_among};
ghost use Rattle.lis_store.specs.Changes.{Applies, Changes, Holds, Commits, CommitLeft, ChangeKeeps, ChangesDisk};
ghost use Rattle.lis_store.specs.Writes.{IsWhole, LeavesUntouched, written};
ghost use Rattle.lis_journal.specs.Journal.{shape_of};

mod adding;
mod declaring;
mod linking;
mod removing;
mod replacing;
mod undeclaring;
mod unlinking;

use crate::change_fault::ChangeFault;
use crate::memory::Memory;
use crate::write::Write;
use lis_content::{Buffer, read_block, read_next_block};
use lis_eval::{Scratch, View, evaluate, found};
use lis_ext::Ext;
use lis_journal::Journal;
use lis_kept::{Metadata, laid_by};
use lis_limits::BLOCK_LEN;
use lis_model::limits::Limits;
use lis_place::Place;
use lis_ports::{Disk, Failed};
use lis_taxonomy::Taxonomy;
use lis_words::{Name, Word};
use std::marker::Model;

/// What opening has read of an image.
#[derive(Drop)]
pub struct Built {
    pub metadata: Metadata,
    pub journal: Journal,
    /// Memory for the bytes of a file.
    pub bytes: Buffer,
}

/// What memory keeps of an image, and its journal. Of the files' bytes it holds only those in open records and those of the file that was
/// read last. No call allocates memory.
#[derive(Drop)]
pub struct Store {
    memory: Memory,
}

impl Model for Store {
    ghost use Rattle.lis_store.specs.Stored.{Stored, IsSound};
    ghost use Rattle.lis_store.specs.Memory.{stored};

    ghost Value = { Stored };

    ghost view = { λ s. stored s.memory };

    ghost invariant = { λ s. IsSound (stored s.memory) };
}

impl Store {
    /// The store that consists of these parts.
    pub fn join(built: Built) -> Store
        requires { IsSound (record { metadata = built.metadata; journal = built.journal; is_broken = false }) }
        ensures { result ≡ record { metadata = built.metadata; journal = built.journal; is_broken = false } }
    {
        let memory = Memory {
            metadata: built.metadata,
            journal: built.journal,
            bytes: built.bytes,
            is_broken: false,
        };
        Store { memory }
    }

    /// Frees its memory. A store has many parts, so dropping it takes long to check. Callers drop a store by this call, and it is checked
    /// once.
    pub fn close(self) {}

    /// Makes a change, and commits it with all that was held back.
    pub fn apply<D: Disk>(
        &mut self,
        disk: &mut D,
        scratch: &mut Scratch,
        place: &Place,
        write: Write,
    ) -> Result<(), ChangeFault>
        requires whole { IsWhole self.old.metadata.limits write }
        requires scratch { HasRoom scratch.old self.old.metadata.limits }
        requires usable { IsUsable self.old (D.meaning disk.old) }
        ensures scratch { HasRoom scratch.new self.old.metadata.limits }
        ensures changes { (s : State) → StoreFits self.old (D.meaning disk.old) s
            → Changes (record { state = s; place = place.now }) (written (record { state = s; place = place.now }) write.entry)
            self.new (D.meaning disk.old) (D.meaning disk.new) result }
        ensures applies { (base : State) (s : State) → StoreHolds self.old (D.meaning disk.old) base s
            → Applies base (record { state = s; place = place.now }) (written (record { state = s; place = place.now }) write.entry)
            self.new (D.meaning disk.old) (D.meaning disk.new) result }
        ensures untouched { (refusal : Refusal) → result ≡ Err (Refused refusal) → LeavesUntouched D.meaning write.entry disk.old disk.new }
        ensures settled { OnOk result (self.new.journal.staged ≡ []) }
        ensures keeps { ChangeKeeps self.old self.new result }
        ensures disk { ChangesDisk (D.meaning disk.old) (D.meaning disk.new) result }
    {
        self.hold(disk, scratch, place, write)?;
        self.commit(disk)
    }

    /// Makes a change and holds it back: it is in memory, and its blocks are committed with those of later changes.
    pub fn hold<D: Disk>(
        &mut self,
        disk: &mut D,
        scratch: &mut Scratch,
        place: &Place,
        write: Write,
    ) -> Result<(), ChangeFault>
        requires whole { IsWhole self.old.metadata.limits write }
        requires scratch { HasRoom scratch.old self.old.metadata.limits }
        requires usable { IsUsable self.old (D.meaning disk.old) }
        ensures scratch { HasRoom scratch.new self.old.metadata.limits }
        ensures holds { (base : State) (s : State) → StoreHolds self.old (D.meaning disk.old) base s
            → Holds base (record { state = s; place = place.now }) (written (record { state = s; place = place.now }) write.entry)
            self.new (D.meaning disk.old) (D.meaning disk.new) result }
        ensures untouched { (refusal : Refusal) → result ≡ Err (Refused refusal) → LeavesUntouched D.meaning write.entry disk.old disk.new }
        ensures entry { IsSound self.old }
        ensures keeps { ChangeKeeps self.old self.new result }
        ensures disk { ChangesDisk (D.meaning disk.old) (D.meaning disk.new) result }
    {
        match write {
            Write::Declare(word) => self.declare(disk, place, word, &mut scratch.search),
            Write::Undeclare(word) => self.undeclare(disk, word),
            Write::Axiom(left, right) => self.axiom(disk, left, right, &mut scratch.search),
            Write::Unaxiom(left, right) => self.unaxiom(disk, left, right, &mut scratch.search),
            Write::Add(file) => self.add(disk, &mut scratch.search, place, file),
            Write::Write(name, bytes, size) => self.write(disk, scratch, place, name, bytes, size),
            Write::Remove(name) => self.remove(disk, scratch, place, name),
            Write::Retag(name, text) => self.retag(disk, scratch, place, name, text),
            Write::Rename(name, other) => self.rename(disk, scratch, place, name, other),
        }
    }

    /// Commits all changes that are held back. If there are none it makes no disk call.
    pub fn commit<D: Disk>(&mut self, disk: &mut D) -> Result<(), ChangeFault>
        requires usable { IsUsable self.old (D.meaning disk.old) }
        ensures commits { (base s : State) → StoreHolds self.old (D.meaning disk.old) base s
            → Commits base s self.new (D.meaning disk.old) (D.meaning disk.new) result }
        ensures idle { self.old.journal.staged ≡ [] → (result ≡ Ok _) × (disk.new ≡ disk.old) × (self.new ≡ self.old) }
        ensures metadata { self.new.metadata ≡ self.old.metadata }
        ensures image { shape_of self.new.journal ≡ shape_of self.old.journal }
        ensures left { CommitLeft self.new result }
        ensures sound { IsSound self.new }
        ensures disk { ChangesDisk (D.meaning disk.old) (D.meaning disk.new) result }
    {
        self.memory.commit(disk)
    }

    /// The limits of the image.
    pub fn limits(&self) -> Limits
        ensures value { result ≡ self.now.metadata.limits }
        ensures sound { IsSound self.now }
    {
        *self.memory.metadata.limits()
    }

    /// What memory keeps of the image.
    pub(crate) fn metadata(&self) -> &Metadata
        ensures value { result.now ≡ self.now.metadata }
        ensures sound { IsSound self.now }
    {
        &self.memory.metadata
    }

    /// Whether a disk call failed. If so, only what is on the disk counts.
    pub fn is_broken(&self) -> bool
        ensures { result ≡ self.now.is_broken }
    {
        self.memory.is_broken
    }

    /// For each file slot the numbers of its file's description; for each number which files have it and how many; and a count of edits.
    /// Listings use the numbers and how many files have each.
    pub fn descriptions(&self) -> &Ext
        ensures { result.now ≡ self.now.metadata.ext }
    {
        self.memory.metadata.ext()
    }

    /// Whether the word is declared.
    pub fn is_declared(&self, word: &Word) -> bool
        ensures value { result ≡ is_declared self.now.metadata word.now }
        ensures sound { IsSound self.now }
    {
        self.memory.metadata.is_declared(word)
    }

    /// The n-th block of a file's bytes. After the end of the file the block may hold any bytes.
    pub fn content<D: Disk>(
        &self,
        disk: &mut D,
        slot: u32,
        n: u32,
        buf: &mut [u8],
    ) -> Result<(), Failed>
        requires within { IsSomeAnd (rec_at self.now.metadata.catalog slot) (λ (rec : FileRecord). BLOCK_LEN * n < rec.size) }
        requires whole { length buf.old ≡ BLOCK_LEN }
        requires usable { IsUsable self.now (D.meaning disk.old) }
        ensures read { OnOk result ((s : State) (name : List ℕ) → StoreFits self.now (D.meaning disk.old) s → slot_of self.now.metadata.catalog name ≡ Some slot
            → take (length (part (BLOCK_LEN * n) BLOCK_LEN (file_of s.files name).bytes)) buf.new ≡ part (BLOCK_LEN * n) BLOCK_LEN (file_of s.files name).bytes) }
        ensures len { length buf.new ≡ BLOCK_LEN }
        ensures disk { ReadsDisk (D.meaning disk.old) (D.meaning disk.new) result }
        ensures fits { (s : State) → StoreFits self.now (D.meaning disk.old) s → StoreFits self.now (D.meaning disk.new) s }
        ensures sound { IsSound self.now }
    {
        let Some(rec) = self.memory.metadata.rec(slot) else {
            unreachable!()
        };
        let laid = laid_by(self.memory.metadata.limits(), rec);
        read_block(&self.memory.journal, disk, laid, n, buf)
    }

    /// The n-th block of a file's bytes, for callers that read one block after the other from the first one on: `index` keeps an index block
    /// of the file from call to call, if it has any. After the end of the file the block may hold any bytes.
    pub fn content_next<D: Disk>(
        &self,
        disk: &mut D,
        slot: u32,
        index: &mut [u8],
        n: u32,
        buf: &mut [u8],
    ) -> Result<(), Failed>
        requires within { IsSomeAnd (rec_at self.now.metadata.catalog slot) (λ (rec : FileRecord). BLOCK_LEN * n < rec.size) }
        requires index { length index.old ≡ BLOCK_LEN }
        requires whole { length buf.old ≡ BLOCK_LEN }
        requires usable { IsUsable self.now (D.meaning disk.old) }
        ensures read { OnOk result ((s : State) (name : List ℕ) → StoreFits self.now (D.meaning disk.old) s → slot_of self.now.metadata.catalog name ≡ Some slot
            → IsIndex self.now (D.meaning disk.old).bytes slot n index.old
            → take (length (part (BLOCK_LEN * n) BLOCK_LEN (file_of s.files name).bytes)) buf.new ≡ part (BLOCK_LEN * n) BLOCK_LEN (file_of s.files name).bytes) }
        ensures next { OnOk result (IsTrue (D.meaning disk.old).is_honest → IsIndex self.now (D.meaning disk.old).bytes slot n index.old
            → IsIndex self.now (D.meaning disk.old).bytes slot (n + 1) index.new) }
        ensures index { length index.new ≡ BLOCK_LEN }
        ensures len { length buf.new ≡ BLOCK_LEN }
        ensures disk { ReadsDisk (D.meaning disk.old) (D.meaning disk.new) result }
        ensures fits { (s : State) → StoreFits self.now (D.meaning disk.old) s → StoreFits self.now (D.meaning disk.new) s }
        ensures sound { IsSound self.now }
    {
        let Some(rec) = self.memory.metadata.rec(slot) else {
            unreachable!()
        };
        let laid = laid_by(self.memory.metadata.limits(), rec);
        read_next_block(&self.memory.journal, disk, laid, index, n, buf)
    }

    /// The slot of the file of that name, if the file is in the extension of the place.
    pub fn slot_here(&self, scratch: &mut Scratch, place: &Place, name: &Name) -> Option<u32>
        requires { HasRoom scratch.old self.now.metadata.limits }
        ensures room { HasRoom scratch.new self.now.metadata.limits }
        ensures here { is_some result ≡ is_among self.now.metadata place.now name.now }
        ensures slot { IfSome result (λ slot. slot_of self.now.metadata.catalog name.now ≡ Some slot) }
        ensures sound { IsSound self.now }
    {
        let Some(slot) = self.memory.metadata.slot_of(name) else {
            return None;
        };
        evaluate(self, scratch, place);
        if found(scratch, slot) {
            return Some(slot);
        }
        None
    }
}

impl View for Store {
    ghost use Rattle.lis_store.specs.Stored.{Stored};
    ghost use Rattle.lis_store.specs.Seen.{seen_of};

    ghost seen = { λ s. seen_of s.metadata };

    ghost rows = { λ s. s.metadata.ext };

    fn id_of(&self, word: &Word) -> Option<u32> {
        self.memory.metadata.number_of(word)
    }

    fn word_at(&self, k: u32) -> Option<(Word, u32)> {
        self.memory.metadata.word_at(k)
    }

    fn place_of(&self, number: u32) -> Option<u32> {
        self.memory.metadata.place_of(number)
    }

    fn slot_of(&self, name: &Name) -> Option<u32> {
        self.memory.metadata.slot_of(name)
    }

    fn file_at(&self, k: u32) -> Option<(Name, u32)> {
        self.memory.metadata.file_at(k)
    }

    fn size_of(&self, slot: u32) -> u64 {
        match self.memory.metadata.rec(slot) {
            None => 0,
            Some(rec) => u64::from(rec.size),
        }
    }

    fn ext(&self) -> &Ext {
        self.memory.metadata.ext()
    }

    fn taxonomy(&self) -> &Taxonomy {
        self.memory.metadata.taxonomy()
    }
}
