ghost use Rattle.std.specs.Prelude.{◌≡◌, ℕ, ◌<◌, ◌≤◌, None, Some, is_some, length, replicate, slice_index_or, slice_set, vec_capacity, IsTrue, IfOk, IfErr};
ghost use Rattle.lis_limits.specs.declared.TheConstants.{V3_MAX_FILES};
ghost use Rattle.lis_graph.specs.Again.{IsFirstAgain};
ghost use Rattle.lis_graph.specs.Inside.{IsUnsorted, named_cmp, RisesByName, IsLeastRepeat};
ghost use Rattle.lis_words.specs.Words.{is_file_name, word_cmp};
ghost use Rattle.lis_fields.specs.Records.{FileRecord};
ghost use Rattle.lis_catalog.specs.Catalog.{HasRecords};
ghost use Rattle.lis_catalog.specs.Inside.{name_in};

use crate::catalog::{Catalog, all_free, name_at};
use lis_fields::FileRec;
use std::alloc::{AllocError, Global};
use std::cmp::Ordering;
use std::marker::Model;

/// File records by their slots, not in order yet, and room for a catalog of them. All memory is allocated by `new`.
#[derive(Drop)]
pub struct Unsorted {
    // For each slot, the record of the file in it.
    records: Vec<Option<FileRec>>,
    // The slots that have a record, in the order of the calls of `put`.
    order: Vec<u32>,
}

impl Model for Unsorted {
    ghost use Rattle.std.specs.Prelude.{List, Option, vec_capacity};
    ghost use Rattle.lis_fields.specs.Records.{FileRecord};

    ghost Value = { List (Option FileRecord) };

    ghost use Rattle.lis_limits.specs.declared.TheConstants.{V3_MAX_FILES};
    ghost use Rattle.lis_graph.specs.Inside.{IsUnsorted};

    ghost view = { λ u. u.records.items };

    ghost invariant = { λ u. IsUnsorted V3_MAX_FILES u.records.items u.order.items (vec_capacity u.order) };
}

// Compares two slots by their names, and by themselves if they have the same name.
fn compare(records: &[Option<FileRec>], slot: u32, other: u32) -> Ordering
    ensures { result ≡ named_cmp word_cmp (name_in records.now) slot other }
{
    name_at(records, slot)
        .cmp(name_at(records, other))
        .then(slot.cmp(&other))
}

// Sorts slots by their names, and slots of the same name by themselves.
fn put_in_order(records: &[Option<FileRec>], order: &mut Vec<u32>)
    requires { IsUnsorted V3_MAX_FILES records.now order.old.items (vec_capacity order.old) }
    ensures held { IsUnsorted V3_MAX_FILES records.now order.new.items (vec_capacity order.new) }
    ensures ordered { RisesByName word_cmp (name_in records.now) order.new.items }
{
    order.sort_unstable_by(|slot, other| compare(records, *slot, *other));
}

// The least slot that has the same name as the slot before it in the order.
fn first_again(records: &[Option<FileRec>], order: &[u32]) -> Option<u32>
    requires { (k : ℕ) → k < length order.now → IsTrue (is_some (slice_index_or records.now (slice_index_or order.now k 0) None)) }
    ensures first { IsLeastRepeat (name_in records.now) order.now (length order.now) result }
    ensures forms { (k : ℕ) → k < length order.now → IsTrue (is_file_name (name_in records.now (slice_index_or order.now k 0))) }
{
    let mut first = None;
    let mut before = b"".as_slice();
    for slot in order {
        let name = name_at(records, *slot);
        if name == before {
            first = Some(first.unwrap_or(*slot).min(*slot));
        }
        before = name;
    }
    first
}

impl Unsorted {
    /// Slots below `files`, without records.
    pub fn new(alloc: Global, files: u32) -> Result<Unsorted, AllocError>
        requires { files ≤ V3_MAX_FILES }
        ensures { IfOk result (λ unsorted. unsorted ≡ replicate files None) }
    {
        Ok(Unsorted {
            records: all_free(alloc, files)?,
            order: Vec::with_capacity(alloc, files as usize)?,
        })
    }

    /// Puts a record into a slot that has none.
    pub fn put(&mut self, slot: u32, rec: FileRec)
        requires below { slot < length self.old }
        requires free { slice_index_or self.old slot None ≡ None }
        ensures { self.new ≡ slice_set self.old slot (Some rec) }
    {
        let Ok(()) = self.order.push(slot) else {
            unreachable!()
        };
        self.records[slot as usize] = Some(rec);
    }

    /// The catalog of these records, or the first slot whose record has a name of a lower slot. It sorts once, and allocates nothing.
    pub fn sort(self) -> Result<Catalog, u32>
        ensures sorted { IfOk result (λ c. HasRecords c self) }
        ensures again { IfErr result (λ n. IsFirstAgain (λ (rec : FileRecord). rec.name) self n) }
    {
        let Unsorted { records, mut order } = self;
        put_in_order(&records, &mut order);
        match first_again(&records, &order) {
            Some(slot) => Err(slot),
            None => Ok(Catalog::of_parts(records, order)),
        }
    }
}
