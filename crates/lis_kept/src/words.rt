//! Changes of the words that memory keeps.

ghost use Rattle.std.specs.Prelude.{◌≡◌, ◌≢◌, ℕ, ◌<◌, ◌≤◌, true, false, ◌||◌, ◌==◌, Some, None, length, slice_set, IsTrue, IsSome, IfSome};
ghost use Rattle.std.specs.List.{list_any};
ghost use Rattle.lis_dict.specs.Dict.{IsDict, number_of, word_of};
ghost use Rattle.lis_fields.specs.Layouts.{is_undeclared};
ghost use Rattle.lis_model.specs.Image.{data_start};
ghost use Rattle.lis_model.specs.Ranges.{are_in_range};
ghost use Rattle.lis_model.specs.State.{is_declarable};
ghost use Rattle.lis_taxonomy.specs.Taxonomy.{has_edge, edge_count, edge_room};
ghost use Rattle.lis_words.specs.Words.{is_valued, head_bytes};
ghost use Rattle.lis_kept.specs.Areas.{block_of};
ghost use Rattle.lis_kept.specs.Edges.{head_number, with_edge_to, without_edge_to};
ghost use Rattle.lis_kept.specs.Forgetting.{MayGo, MayForget};
ghost use Rattle.lis_kept.specs.Passes.{ext_beside, beside, is_of_pass, is_due, ForgetsWhere, ForgetsDue};
ghost use Rattle.lis_kept.specs.Areas.Area.{Properties};
ghost use Rattle.lis_kept.specs.Changes.{Declares, Learns, Forgets};
ghost use Rattle.lis_kept.specs.Sound.{AreSound};
ghost use Rattle.lis_kept.specs.Telling.{is_left_of, is_head_by, is_left_head_of, is_had, is_used};

mod undeclaring;
mod without;

use crate::metadata::Metadata;
use crate::places::properties_start;
use crate::test_edges::insert_test;
use crate::words::without::is_had_without;
use lis_bits::Flags;
use lis_dict::Dict;
use lis_ext::Ext;
use lis_fields::AxiomSlot;
use lis_limits::PROPERTIES_PER_BLOCK;
use lis_model::limits::Limits;
use lis_taxonomy::Taxonomy;
use lis_words::{Word, head_of, is_valued};

// Marks the block of a property slot.
#[tactic(auto, using(lis_model::proofs::Ranges::few_records, lis_model::proofs::Ranges::few_limits))]
fn mark_property(marks: &mut Flags, limits: &Limits, number: u32)
    requires range { IsTrue (are_in_range limits.now) }
    requires number { number < limits.now.props }
    requires long { data_start limits.now ≤ length marks.old }
    ensures { marks.new ≡ slice_set marks.old (block_of limits.now Properties number) true }
{
    marks.put(
        properties_start(limits) + number / PROPERTIES_PER_BLOCK,
        true,
    );
}

// The number of the head of a valued word.
fn head_number(dict: &Dict, word: &Word) -> Option<u32>
    ensures { result ≡ head_number dict.now word.now }
{
    match head_of(word) {
        None => None,
        Some(head) => dict.id_of(&head),
    }
}

/// Adds the edge from a number without edges to that of its head, if it has one.
pub fn link_head(taxonomy: &mut Taxonomy, number: u32, head: Option<u32>)
    requires number { number < taxonomy.old.props }
    requires head { IfSome head (λ h. h < taxonomy.old.props) }
    requires apart { head ≢ Some number }
    requires to { IfSome head (λ h. (x : ℕ) → has_edge taxonomy.old x number ≡ false) }
    requires from { (x : ℕ) → has_edge taxonomy.old number x ≡ false }
    requires room { edge_count taxonomy.old < edge_room taxonomy.old.props }
    ensures { taxonomy.new ≡ with_edge_to taxonomy.old number head }
{
    let Some(head) = head else {
        return;
    };
    let Ok(()) = taxonomy.add(number, head) else {
        unreachable!()
    };
}

// Removes the edge from the number of a word to that of its head, if it has one.
fn unlink_head(taxonomy: &mut Taxonomy, number: u32, head: Option<u32>)
    requires number { number < taxonomy.old.props }
    requires head { IfSome head (λ h. h < taxonomy.old.props) }
    requires there { IfSome head (λ h. IsTrue (has_edge taxonomy.old number h)) }
    ensures { taxonomy.new ≡ without_edge_to taxonomy.old number head }
{
    let Some(head) = head else {
        return;
    };
    let Ok(()) = taxonomy.remove(number, head) else {
        unreachable!()
    };
}

// Whether some file's description has a number.
fn is_had(ext: &Ext, number: u32) -> bool
    requires { number < ext.now.props }
    ensures { result ≡ is_had ext.now number }
{
    ext.is_had(number)
}

// Whether some file's description has a number, not counting that in a slot, if one is given.
fn is_had_beside(ext: &Ext, slot: Option<u32>, number: u32) -> bool
    requires { number < ext.now.props }
    ensures { result ≡ is_had (ext_beside slot ext.now) number }
{
    match slot {
        None => is_had(ext, number),
        Some(slot) => is_had_without(ext, slot, number),
    }
}

// Whether the word of a number is valued, and another number is that of its head.
fn has_head(dict: &Dict, number: u32, head: u32) -> bool
    requires { IsDict dict.now }
    ensures { result ≡ is_head_by (word_of dict.now number) (word_of dict.now head) }
{
    let Some(word) = dict.word_of(number) else {
        return false;
    };
    match head_number(dict, &word) {
        None => false,
        Some(found) => found == head,
    }
}

// Whether a number is that of an axiom's left side, or of its head.
fn is_on_left(dict: &Dict, slot: AxiomSlot, number: u32) -> bool
    requires { IsDict dict.now }
    ensures { result ≡ (is_left_of number slot || is_left_head_of dict.now number slot) }
{
    let AxiomSlot::Pair(left, _) = slot else {
        return false;
    };
    left == number || has_head(dict, left, number)
}

// Whether a number is the left side of an axiom, or the head of one.
fn is_named_left(dict: &Dict, axioms: &[AxiomSlot], number: u32) -> bool
    requires { IsDict dict.now }
    ensures { result ≡ list_any (λ slot. is_left_of number slot || is_left_head_of dict.now number slot) axioms.now }
{
    axioms.iter().any(|slot| is_on_left(dict, *slot, number))
}

// Whether the word goes in the pass over valued words, or over the others.
fn is_of_pass(word: &Word, valued: bool) -> bool
    ensures { result ≡ is_of_pass valued (Some word.now) }
{
    if valued {
        is_valued(word.bytes())
    } else {
        !is_valued(word.bytes())
    }
}

impl Metadata {
    /// Gives a new word a free number, and declares it.
    pub fn declare(&mut self, word: &Word)
        requires form { IsTrue (is_declarable word.now) }
        requires new { number_of self.old.dict word.now ≡ None }
        requires room { length self.old.dict.entries < self.old.limits.props }
        ensures declares { Declares word.now self.old self.new }
        ensures sound { AreSound self.new }
    {
        self.declare_word(word);
    }

    // The same, and returns the number.
    pub(crate) fn declare_word(&mut self, word: &Word) -> u32
        requires form { IsTrue (is_declarable word.now) }
        requires new { number_of self.old.dict word.now ≡ None }
        requires room { length self.old.dict.entries < self.old.limits.props }
        ensures declares { Declares word.now self.old self.new }
        ensures number { number_of self.new.dict word.now ≡ Some result }
        ensures was_sound { AreSound self.old }
        ensures sound { AreSound self.new }
    {
        let Ok(number) = self.dict.add(word) else {
            unreachable!()
        };
        self.declared.put(number, true);
        insert_test(&self.dict, &self.declared, &mut self.taxonomy, number);
        mark_property(&mut self.marks, &self.limits, number);
        number
    }

    /// The number of a word that is known and not declared: the one that it has, or otherwise a free one that it gets.
    pub fn learn(&mut self, word: &Word) -> u32
        requires form { number_of self.old.dict word.now ≡ None → IsTrue (is_undeclared word.now) }
        requires headed { number_of self.old.dict word.now ≡ None → IsTrue (is_valued word.now)
            → IsSome (number_of self.old.dict (head_bytes word.now)) }
        requires room { number_of self.old.dict word.now ≡ None → length self.old.dict.entries < self.old.limits.props }
        ensures learns { Learns word.now result self.old self.new }
        ensures sound { AreSound self.new }
    {
        let head = head_number(&self.dict, word);
        if let Some(number) = self.dict.id_of(word) {
            return number;
        }
        let Ok(number) = self.dict.add(word) else {
            unreachable!()
        };
        link_head(&mut self.taxonomy, number, head);
        mark_property(&mut self.marks, &self.limits, number);
        number
    }

    // Forgets the word of a number, if it has one. The word may be forgotten.
    fn forget(&mut self, number: u32)
        requires { IsSome (word_of self.old.dict number) → MayGo number self.old }
        ensures forgets { ForgetsWhere (λ n. number == n) 1 self.old self.new }
        ensures sound { AreSound self.new }
    {
        let Some(word) = self.dict.word_of(number) else {
            return;
        };
        let head = head_number(&self.dict, &word);
        self.dict.remove(&word);
        unlink_head(&mut self.taxonomy, number, head);
        mark_property(&mut self.marks, &self.limits, number);
    }

    /// Forgets the words of those numbers that are not in use.
    pub fn forget_unused(&mut self, numbers: &[u32])
        requires { MayForget numbers.now self.old }
        ensures forgets { Forgets numbers.now self.old self.new }
        ensures sound { AreSound self.new }
    {
        // The head of a known word keeps its number, so valued words are forgotten before heads.
        self.forget_due(numbers, true, None);
        self.forget_due(numbers, false, None);
    }

    // Forgets the words of those of the numbers that nothing uses except the description in a slot, if one is given: valued words, or the
    // others.
    fn forget_due(&mut self, numbers: &[u32], valued: bool, slot: Option<u32>)
        requires { (n : ℕ) → is_due slot self.old valued n ≡ true → MayGo n self.old }
        ensures forgets { ForgetsDue slot valued numbers.now self.old self.new }
        ensures sound { AreSound self.new }
    {
        // Without numbers nothing else reads memory, and it must be sound all the same.
        let _ = &self.limits;
        for number in numbers {
            if self.is_due(*number, valued, slot) {
                self.forget(*number);
            }
        }
    }

    // Whether nothing uses a number except the description in a slot, if one is given, and its word is valued, or is not.
    fn is_due(&self, number: u32, valued: bool, slot: Option<u32>) -> bool
        ensures { result ≡ is_due slot self.now valued number }
    {
        let Some(word) = self.dict.word_of(number) else {
            return false;
        };
        if !is_of_pass(&word, valued) {
            return false;
        }
        !self.is_used_beside(slot, number)
    }

    // Whether a number is in use, not counting the description in a slot, if one is given.
    pub(crate) fn is_used_beside(&self, slot: Option<u32>, number: u32) -> bool
        requires { IsSome (word_of self.now.dict number) }
        ensures { result ≡ is_used (beside slot self.now) number }
    {
        self.declared.get(number)
            || is_had_beside(&self.ext, slot, number)
            || is_named_left(&self.dict, self.axioms.as_slice(), number)
    }
}
