//! Blocks of slots, spelled by what memory keeps.

ghost use Rattle.std.specs.Prelude.{◌≡◌, ℕ, ◌+◌, ◌*◌, ◌<◌, ◌≤◌, length, IsTrue};
ghost use Rattle.lis_ports.specs.Bytes.{part};
ghost use Rattle.lis_fields.specs.Layouts.{prop_bytes, is_prop, axiom_bytes, is_axiom, file_bytes, is_file};
ghost use Rattle.lis_kept.specs.Metadata.{property_at, axiom_at, record_at};

use arrayvec::ArrayVec;
use lis_bits::Flags;
use lis_catalog::Catalog;
use lis_dict::Dict;
use lis_fields::{AxiomSlot, FileRec, FileSlot, PropSlot, write_axiom, write_file, write_prop};
use lis_limits::{
    AXIOM_LEN, AXIOMS_PER_BLOCK, BLOCK_LEN, FILE_LEN, FILES_PER_BLOCK, PROP_LEN,
    PROPERTIES_PER_BLOCK, V3_MAX_FILES, V3_MAX_PROPS,
};
use lis_model::limits::Limits;

// The property slot of a number.
fn property_slot(dict: &Dict, declared: &Flags, number: u32) -> PropSlot
    requires { number < length declared.now }
    ensures { result ≡ property_at dict.now declared.now number }
{
    let Some(word) = dict.word_of(number) else {
        return PropSlot::Free;
    };
    if declared.get(number) {
        return PropSlot::Declared(word);
    }
    PropSlot::Known(word)
}

/// Writes the property slots from a number on, as many as a block has.
pub fn write_properties(dict: &Dict, declared: &Flags, first: u32, block: &mut [u8])
    requires forms { (n : ℕ) → IsTrue (is_prop (property_at dict.now declared.now n)) }
    requires within { first + PROPERTIES_PER_BLOCK ≤ length declared.now }
    requires few { length declared.now ≤ V3_MAX_PROPS }
    requires whole { length block.old ≡ BLOCK_LEN }
    ensures { (k : ℕ) → k < PROPERTIES_PER_BLOCK → part (PROP_LEN * k) PROP_LEN block.new ≡ prop_bytes (property_at dict.now declared.now (first + k)) }
{
    for k in 0..PROPERTIES_PER_BLOCK {
        let at = PROP_LEN * k as usize;
        let slot = property_slot(dict, declared, first + k);
        write_prop(&slot, &mut block[at..at + PROP_LEN]);
    }
}

// The axiom slot of a number.
fn axiom_slot(axioms: &[AxiomSlot], number: usize) -> AxiomSlot
    ensures { result ≡ axiom_at axioms.now number }
{
    match axioms.get(number) {
        None => AxiomSlot::Free,
        Some(slot) => *slot,
    }
}

/// Writes the axiom slots from a number on, as many as a block has.
pub fn write_axioms(axioms: &[AxiomSlot], first: usize, block: &mut [u8])
    requires forms { (n : ℕ) → IsTrue (is_axiom (axiom_at axioms.now n)) }
    requires few { first ≤ V3_MAX_PROPS }
    requires whole { length block.old ≡ BLOCK_LEN }
    ensures { (k : ℕ) → k < AXIOMS_PER_BLOCK → part (AXIOM_LEN * k) AXIOM_LEN block.new ≡ axiom_bytes (axiom_at axioms.now (first + k)) }
{
    for k in 0..AXIOMS_PER_BLOCK {
        let at = AXIOM_LEN * k;
        let slot = axiom_slot(axioms, first + k);
        write_axiom(&slot, &mut block[at..at + AXIOM_LEN]);
    }
}

fn copied_numbers(numbers: &ArrayVec<u32, 16>) -> ArrayVec<u32, 16>
    ensures { result.items ≡ numbers.now.items }
{
    let mut copied = ArrayVec::new();
    copied.try_extend_from_slice(numbers.as_slice()).unwrap();
    copied
}

// The same record, without an allocation.
fn copied_record(rec: &FileRec) -> FileRec
    ensures { result ≡ rec.now }
{
    FileRec {
        name: rec.name.copied(),
        size: rec.size,
        tags: copied_numbers(&rec.tags),
        blocks: copied_numbers(&rec.blocks),
    }
}

// The file slot of a number.
fn file_slot(catalog: &Catalog, number: u32) -> FileSlot
    ensures { result ≡ record_at catalog.now number }
{
    match catalog.rec(number) {
        None => FileSlot::Free,
        Some(rec) => FileSlot::Used(copied_record(rec)),
    }
}

/// Writes the file slots from a number on, as many as a block has.
pub fn write_files(catalog: &Catalog, limits: &Limits, first: u32, block: &mut [u8])
    requires records { (n : ℕ) → IsTrue (is_file limits.now (record_at catalog.now n)) }
    requires few { first ≤ V3_MAX_FILES }
    requires whole { length block.old ≡ BLOCK_LEN }
    ensures { (k : ℕ) → k < FILES_PER_BLOCK → part (FILE_LEN * k) FILE_LEN block.new ≡ file_bytes limits.now.version (record_at catalog.now (first + k)) }
{
    for k in 0..FILES_PER_BLOCK {
        let at = FILE_LEN * k as usize;
        let slot = file_slot(catalog, first + k);
        write_file(&slot, &mut block[at..at + FILE_LEN], limits);
    }
}
