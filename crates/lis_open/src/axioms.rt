//! The axioms of an image: its axiom slots, and the links that its words have.

ghost use Rattle.std.specs.Prelude.{◌≡◌, ◌<◌, ℕ, List, false, Some, IsTrue, IfOk, IfSome, OnOk};
ghost use Rattle.std.specs.Bool.{OnTrue, OnFalse};
ghost use Rattle.lis_ports.specs.Calls.{ReadsDisk};
ghost use Rattle.lis_journal.specs.Images.{Fits};
ghost use Rattle.lis_dict.specs.Dict.{word_of};
ghost use Rattle.lis_taxonomy.specs.Taxonomy.{empty_taxonomy};
ghost use Rattle.lis_fields.specs.Layouts.{axiom_bytes, is_axiom};
ghost use Rattle.lis_model.specs.Ranges.{are_in_range};
ghost use Rattle.lis_kept.specs.Areas.{axiom_slots};
ghost use Rattle.lis_open.specs.Reading.{Recalls, IsReadAs, Ends, ReadsPart, IsReadable};
ghost use Rattle.lis_open.specs.ReadWords.{AreNoAxioms, AreWords, AreFirstWords, WordsAreSpelled, head_by, LinksHeads, LinksTests, are_sides, TakesPair, TakesAxiom, RefusesPair, RefusesAxiom, AreFirstAxioms, AxiomsAreSpelled};

use crate::blocks::LastBlock;
use crate::mounting::OpenFault;
use crate::naming::{is_left, is_right};
use crate::words::Words;
use lis_fields::{AxiomSlot, read_axiom};
use lis_journal::Journal;
use lis_kept::{axioms_start, link_head, link_next};
use lis_limits::{AXIOM_LEN, AXIOMS_PER_BLOCK};
use lis_model::limits::Limits;
use lis_model::spot::Spot;
use lis_ports::{Disk, Failed};
use lis_taxonomy::Taxonomy;
use lis_words::head_of;
use std::alloc::{AllocError, Global};

/// The axioms of an image, and all links between its words.
#[derive(Drop)]
pub struct Axioms {
    /// By slot: as many as there are in whole blocks.
    pub slots: Vec<AxiomSlot>,
    pub taxonomy: Taxonomy,
}

impl Axioms {
    /// Frees their memory. A caller that drops them by this call is not checked with the drop of all that they own.
    pub fn close(self) {}
}

// How many axiom slots there are, in whole blocks.
fn slot_count(limits: &Limits) -> u32
    requires { IsTrue (are_in_range limits.now) }
    ensures { result ≡ (axiom_slots limits.now).count }
{
    let each = AXIOMS_PER_BLOCK as u32;
    each * limits.props.div_ceil(each)
}

/// No axioms yet, and no links.
pub fn no_axioms(alloc: Global, limits: &Limits) -> Result<Axioms, AllocError>
    requires { IsTrue (are_in_range limits.now) }
    ensures { IfOk result (AreNoAxioms limits.now) }
{
    Ok(Axioms {
        slots: vec![in alloc; AxiomSlot::Free; slot_count(limits) as usize]?,
        taxonomy: Taxonomy::new(alloc, limits.props)?,
    })
}

/// The number of the head of a number's word, if the word is valued.
pub fn head_number(words: &Words, number: u32) -> Option<u32>
    ensures { result ≡ head_by words.now.dict (word_of words.now.dict number) }
{
    let word = words.dict.word_of(number)?;
    let head = head_of(&word)?;
    words.dict.id_of(&head)
}

// Links each valued word to its head, if the head has a number.
fn link_heads(limits: &Limits, words: &Words, taxonomy: &mut Taxonomy)
    requires range { IsTrue (are_in_range limits.now) }
    requires words { AreFirstWords limits.now words.now limits.now.props }
    requires none { taxonomy.old ≡ empty_taxonomy limits.now.props }
    ensures { LinksHeads words.now limits.now.props taxonomy.new }
{
    for number in 0..limits.props {
        link_head(taxonomy, number, head_number(words, number));
    }
}

// Links each declared test to the next weaker one.
fn link_tests(limits: &Limits, words: &Words, taxonomy: &mut Taxonomy)
    requires range { IsTrue (are_in_range limits.now) }
    requires words { AreFirstWords limits.now words.now limits.now.props }
    requires heads { LinksHeads words.now limits.now.props taxonomy.old }
    ensures { LinksTests words.now taxonomy.old taxonomy.new }
{
    for number in 0..limits.props {
        link_next(&words.dict, &words.declared, taxonomy, number);
    }
}

// Reads an axiom slot. The result is `None` if the slot is in no layout.
fn read_axiom_slot<D: Disk>(
    last: &mut LastBlock,
    disk: &mut D,
    journal: &Journal,
    limits: &Limits,
    k: u32,
) -> Result<Option<AxiomSlot>, Failed>
    requires readable { IsReadable limits.now journal.now (D.meaning disk.old) }
    requires k { k < (axiom_slots limits.now).count }
    ensures disk { ReadsDisk (D.meaning disk.old) (D.meaning disk.new) result }
    ensures form { IfOk result (λ found. IfSome found (λ value. IsTrue (is_axiom value))) }
    ensures recalls { (kept : ℕ → List ℕ) → Fits journal.now (D.meaning disk.old) kept → Recalls last.old kept → Recalls last.new kept }
    ensures read { IfOk result (λ found. (kept : ℕ → List ℕ) → Fits journal.now (D.meaning disk.old) kept → Recalls last.old kept
        → IsReadAs axiom_bytes is_axiom (axiom_slots limits.now) kept k found) }
{
    let mut bytes = [0; AXIOM_LEN];
    last.read_slot(disk, journal, axioms_start(limits), k, &mut bytes)?;
    Ok(read_axiom(&bytes))
}

// Whether the numbers are those of words that an axiom may have.
fn are_sides(words: &Words, left: u32, right: u32) -> bool
    requires { AreWords words.now }
    ensures { result ≡ are_sides words.now left right }
{
    is_left(words, left) && is_right(words, right)
}

// Takes the axiom of a slot, and returns whether it does. It does if the slot may have an axiom, the axiom may have its words, no earlier
// slot has it, and it closes no cycle.
fn take_pair(
    limits: &Limits,
    words: &Words,
    axioms: &mut Axioms,
    k: u32,
    left: u32,
    right: u32,
) -> bool
    requires words { AreFirstWords limits.now words.now limits.now.props }
    requires axioms { AreFirstAxioms limits.now words.now axioms.old k }
    requires below { k < (axiom_slots limits.now).count }
    ensures taken { OnTrue result (TakesPair limits.now words.now k left right axioms.old axioms.new) }
    ensures why { OnFalse result (RefusesPair limits.now words.now k left right axioms.old) }
    ensures refused { OnFalse result (axioms.new ≡ axioms.old) }
{
    if k >= limits.props {
        return false;
    }
    if !are_sides(words, left, right) {
        return false;
    }
    let Ok(()) = axioms.taxonomy.add(left, right) else {
        return false;
    };
    axioms.slots[k as usize] = AxiomSlot::Pair(left, right);
    true
}

// Takes what was read of a slot if it may, and returns whether it does.
fn take_axiom(
    limits: &Limits,
    words: &Words,
    axioms: &mut Axioms,
    k: u32,
    found: Option<AxiomSlot>,
) -> bool
    requires words { AreFirstWords limits.now words.now limits.now.props }
    requires axioms { AreFirstAxioms limits.now words.now axioms.old k }
    requires below { k < (axiom_slots limits.now).count }
    ensures taken { OnTrue result (TakesAxiom limits.now words.now k found axioms.old axioms.new) }
    ensures why { OnFalse result (RefusesAxiom limits.now words.now k found axioms.old) }
    ensures refused { OnFalse result (axioms.new ≡ axioms.old) }
{
    match found {
        None => false,
        Some(AxiomSlot::Free) => true,
        Some(AxiomSlot::Pair(left, right)) => take_pair(limits, words, axioms, k, left, right),
    }
}

/// Links heads and declared tests, and reads the axiom slots in the order of their numbers.
pub fn read_axioms<D: Disk>(
    last: &mut LastBlock,
    disk: &mut D,
    journal: &Journal,
    limits: &Limits,
    words: &Words,
    axioms: &mut Axioms,
) -> Result<(), OpenFault>
    requires readable { IsReadable limits.now journal.now (D.meaning disk.old) }
    requires words { AreFirstWords limits.now words.now limits.now.props }
    requires none { AreNoAxioms limits.now axioms.old }
    ensures disk { ReadsPart (D.meaning disk.old) (D.meaning disk.new) result }
    ensures read { OnOk result (AreFirstAxioms limits.now words.now axioms.new (axiom_slots limits.now).count) }
    ensures recalls { (kept : ℕ → List ℕ) → Fits journal.now (D.meaning disk.old) kept → Recalls last.old kept → Recalls last.new kept }
    ensures ended { (kept : ℕ → List ℕ) → Fits journal.now (D.meaning disk.old) kept → Recalls last.old kept
        → WordsAreSpelled limits.now kept words.now limits.now.props
        → Ends limits.now kept 3 (AxiomsAreSpelled limits.now kept axioms.new (axiom_slots limits.now).count) result }
{
    link_heads(limits, words, &mut axioms.taxonomy);
    link_tests(limits, words, &mut axioms.taxonomy);
    for k in 0..slot_count(limits) {
        let found = read_axiom_slot(last, disk, journal, limits, k)?;
        if !take_axiom(limits, words, axioms, k, found) {
            return Err(OpenFault::Damaged(Spot::Axiom(k)));
        }
    }
    Ok(())
}
