ghost use Rattle.std.specs.Prelude.{◌≡◌, ◌<◌, ◌≤◌, [], length, None, Some, is_none, is_some, vec_capacity, replicate, slice_get, slice_index_or, position, IsTrue, IsSome, IfSome, IfNone, IfOk, MatchOption, MatchResult};
ghost use Rattle.std.specs.Option.{option_map};
ghost use Rattle.std.specs.List.Sorted.{IsSearchInRange};
ghost use Rattle.lis_words.specs.Words.{is_file_name};
ghost use Rattle.lis_limits.specs.declared.TheConstants.{V3_MAX_FILES};
ghost use Rattle.lis_catalog.specs.Catalog.{Filed, slots, slot_of, rec_at, with_filed, without_slot, IsCatalog};
ghost use Rattle.lis_catalog.specs.Calls.{Adds, Replaces};
ghost use Rattle.lis_catalog.specs.Inside.{name_in, catalog_of, AreTaken, IsHeld, FoundAt, PlaceFor};

use lis_fields::FileRec;
use lis_words::Name;
use std::alloc::{AllocError, Global};
use std::marker::Model;
use thiserror::Error;

/// Why a record is refused.
#[derive(Debug, Drop, Error)]
pub enum CatalogFault {
    #[error("the name is taken")]
    NameTaken,
    #[error("no room for a file")]
    NoFileRoom,
}

/// The file records of an image, by name and by slot. All memory is allocated by `new`.
#[derive(Drop)]
pub struct Catalog {
    files: u32,
    // All slots below it have files, so a search for a free slot starts from it.
    free_from: u32,
    // For each slot, the record of the file in it.
    records: Vec<Option<FileRec>>,
    // The slots that have a record, in the order of the names.
    order: Vec<u32>,
}

impl Model for Catalog {
    ghost use Rattle.std.specs.Prelude.{vec_capacity};
    ghost use Rattle.lis_catalog.specs.Catalog.{Catalog as Filing};

    ghost Value = { Filing };

    ghost use Rattle.lis_catalog.specs.Inside.{catalog_of, IsKeptCatalog};

    ghost view = { λ c. catalog_of c.files c.records.items c.order.items };

    ghost invariant = { λ c. IsKeptCatalog c.files c.free_from c.records.items c.order.items (vec_capacity c.order) };
}

// The record in the slot.
fn record_at(records: &[Option<FileRec>], slot: u32) -> Option<&FileRec>
    ensures { MatchOption result (slice_index_or records.now slot None ≡ None) (λ rec. slice_index_or records.now slot None ≡ Some rec.now) }
{
    records.get(slot as usize)?.as_ref()
}

// The name of the file in the slot, or no bytes.
pub(crate) fn name_at(records: &[Option<FileRec>], slot: u32) -> &[u8]
    ensures bytes { result.now ≡ name_in records.now slot }
    ensures name { IsTrue (is_some (slice_index_or records.now slot None)) → IsTrue (is_file_name result.now) }
{
    match record_at(records, slot) {
        Some(rec) => rec.name.bytes(),
        None => b"".as_slice(),
    }
}

// The first slot that no file is in.
fn first_free(records: &[Option<FileRec>]) -> Option<usize>
    ensures { result ≡ position is_none records.now }
{
    records.iter().position(|held| held.is_none())
}

// The same. All slots below `from` have files, so it looks only at those from there on.
fn first_free_from(records: &[Option<FileRec>], from: u32) -> Option<usize>
    requires { AreTaken records.now from }
    ensures { result ≡ position is_none records.now }
{
    let from = from as usize;
    let found = first_free(&records[from..])?;
    Some(from + found)
}

pub(crate) fn all_free(alloc: Global, files: u32) -> Result<Vec<Option<FileRec>>, AllocError>
    ensures { IfOk result (λ records. records.items ≡ replicate files None) }
{
    let mut records = Vec::with_capacity(alloc, files as usize)?;
    for _ in 0..files {
        records.push(None)?;
    }
    Ok(records)
}

impl Catalog {
    // The catalog of these records by slot, whose slots stand in the order of their names.
    pub(crate) fn of_parts(records: Vec<Option<FileRec>>, order: Vec<u32>) -> Catalog
        requires { IsHeld (length records.items) records.items order.items (vec_capacity order) }
        ensures { result ≡ catalog_of (length records.items) records.items order.items }
    {
        Catalog {
            files: records.len() as u32,
            free_from: 0,
            records,
            order,
        }
    }

    /// A catalog without files, with `files` slots.
    pub fn new(alloc: Global, files: u32) -> Result<Catalog, AllocError>
        requires { files ≤ V3_MAX_FILES }
        ensures { IfOk result (λ c. c ≡ record { files = files; entries = [] }) }
    {
        Ok(Catalog {
            files,
            free_from: 0,
            records: all_free(alloc, files)?,
            order: Vec::with_capacity(alloc, files as usize)?,
        })
    }

    /// How many files there are.
    pub fn len(&self) -> u32
        ensures value { result ≡ length self.now.entries }
        ensures kept { IsCatalog self.now }
    {
        self.order.len() as u32
    }

    /// The slot of the file that has the name, which is a file name.
    pub fn slot_of(&self, name: &Name) -> Option<u32>
        ensures slot { result ≡ slot_of self.now name.now }
        ensures name { IsTrue (is_file_name name.now) }
    {
        self.holder(name)
    }

    // The same. The contract also says what holds of every catalog.
    fn holder(&self, name: &Name) -> Option<u32>
        ensures slot { result ≡ slot_of self.now name.now }
        ensures name { IsTrue (is_file_name name.now) }
        ensures kept { IsCatalog self.now }
    {
        match self.find(name) {
            Ok(place) => Some(self.order[place]),
            Err(_) => None,
        }
    }

    // The index of a name if it is there, and otherwise the index that it would have.
    fn find(&self, name: &Name) -> Result<usize, usize>
        ensures bound { IsSearchInRange result (length self.now.entries) }
        ensures place { MatchResult result (λ k. FoundAt name.now k self.now.entries) (λ k. PlaceFor name.now k self.now.entries) }
        ensures name { IsTrue (is_file_name name.now) }
        ensures kept { IsCatalog self.now }
    {
        let bytes = name.bytes();
        let records = self.records.as_slice();
        self.order
            .binary_search_by(|slot| name_at(records, *slot).cmp(bytes))
    }

    /// The k-th name in byte order, and its file's slot.
    pub fn file_at(&self, k: u32) -> Option<(Name, u32)>
        ensures { result ≡ option_map (λ (f : Filed). (f.rec.name, f.slot)) (slice_get self.now.entries k) }
    {
        let (slot, rec) = self.entry(k)?;
        Some((rec.name.copied(), slot))
    }

    /// The k-th file in the order of names: its slot, and its record with the name.
    pub fn entry(&self, k: u32) -> Option<(u32, &FileRec)>
        ensures { MatchOption result (slice_get self.now.entries k ≡ None)
            (λ file. slice_get self.now.entries k ≡ Some (record { slot = file.0; rec = file.1.now })) }
    {
        let slot = *self.order.get(k as usize)?;
        Some((slot, record_at(&self.records, slot)?))
    }

    /// The record of the file in the slot.
    pub fn rec(&self, slot: u32) -> Option<&FileRec>
        ensures { MatchOption result (rec_at self.now slot ≡ None) (λ rec. rec_at self.now slot ≡ Some rec.now) }
    {
        record_at(&self.records, slot)
    }

    // The index of the file in the slot, in the order of names.
    fn place_of(&self, slot: u32) -> Option<usize>
        ensures none { IfNone result (rec_at self.now slot ≡ None) }
        ensures place { IfSome result (λ k. slice_get (slots self.now) k ≡ Some slot) }
    {
        let rec = self.rec(slot)?;
        let Ok(place) = self.find(&rec.name) else {
            unreachable!()
        };
        Some(place)
    }

    /// Adds a file in a free slot, and returns the slot.
    pub fn add(&mut self, rec: FileRec) -> Result<u32, CatalogFault>
        ensures { Adds self.old rec self.new result }
    {
        if self.slot_of(&rec.name).is_some() {
            return Err(CatalogFault::NameTaken);
        }
        let Some(slot) = self.free_slot() else {
            return Err(CatalogFault::NoFileRoom);
        };
        self.place(slot, rec);
        Ok(slot)
    }

    // The lowest slot that no file is in. The next search starts from it.
    fn free_slot(&mut self) -> Option<u32>
        ensures none { IfNone result (length self.old.entries ≡ self.old.files) }
        ensures below { IfSome result (λ n. n < self.old.files) }
        ensures free { IfSome result (λ n. rec_at self.old n ≡ None) }
        ensures same { self.new ≡ self.old }
    {
        let slot = first_free_from(&self.records, self.free_from)? as u32;
        self.free_from = slot;
        Some(slot)
    }

    /// Replaces the record of the file in the slot.
    pub fn replace(&mut self, slot: u32, rec: FileRec) -> Result<(), CatalogFault>
        requires { IsSome (rec_at self.old slot) }
        ensures { Replaces self.old slot rec self.new result }
    {
        if let Some(holder) = self.holder(&rec.name) {
            if holder != slot {
                return Err(CatalogFault::NameTaken);
            }
        }
        self.remove(slot);
        self.place(slot, rec);
        Ok(())
    }

    /// Removes the file from the slot, and returns its record.
    pub fn remove(&mut self, slot: u32) -> Option<FileRec>
        ensures was { result ≡ rec_at self.old slot }
        ensures gone { self.new ≡ without_slot self.old slot }
    {
        let place = self.place_of(slot)?;
        self.order.remove(place);
        self.free_from = self.free_from.min(slot);
        self.records[slot as usize].take()
    }

    /// Adds a file in this slot.
    pub fn place(&mut self, slot: u32, rec: FileRec)
        requires below { slot < self.old.files }
        requires free { rec_at self.old slot ≡ None }
        requires new { slot_of self.old rec.name ≡ None }
        ensures { self.new ≡ with_filed self.old slot rec }
    {
        let Err(place) = self.find(&rec.name) else {
            unreachable!()
        };
        self.records[slot as usize] = Some(rec);
        let Ok(()) = self.order.insert(place, slot) else {
            unreachable!()
        };
    }
}
