//! Removing a declared word.

ghost use Rattle.std.specs.Prelude.{◌≡◌, is_some, IsSome};
ghost use Rattle.std.specs.List.{list_any};
ghost use Rattle.lis_dict.specs.Dict.{IsDict, word_of};
ghost use Rattle.lis_kept.specs.Sound.{AreSound};
ghost use Rattle.lis_kept.specs.TestEdges.{test_by};
ghost use Rattle.lis_kept.specs.Undeclaring.{is_right_of, is_named_by, is_needed, MayUndeclare, Undeclares};

use crate::metadata::Metadata;
use crate::test_edges::remove_test;
use crate::words::{is_had, is_on_left, mark_property};
use lis_dict::Dict;
use lis_fields::AxiomSlot;
use lis_words::test_of;

// Whether a number is that of an axiom's right side.
fn is_right_of(slot: AxiomSlot, number: u32) -> bool
    ensures { result ≡ is_right_of number slot }
{
    match slot {
        AxiomSlot::Free => false,
        AxiomSlot::Pair(_, right) => right == number,
    }
}

// Whether an axiom names a number's word, or has it as the head of its left side.
fn is_named_by(dict: &Dict, slot: AxiomSlot, number: u32) -> bool
    requires { IsDict dict.now }
    ensures { result ≡ is_named_by dict.now number slot }
{
    is_on_left(dict, slot, number) || is_right_of(slot, number)
}

// Whether some axiom does so.
fn is_named(dict: &Dict, axioms: &[AxiomSlot], number: u32) -> bool
    requires { IsDict dict.now }
    ensures { result ≡ list_any (is_named_by dict.now number) axioms.now }
{
    axioms.iter().any(|slot| is_named_by(dict, *slot, number))
}

// Whether the word of a number is a test.
fn is_test(dict: &Dict, number: u32) -> bool
    ensures { result ≡ is_some (test_by (word_of dict.now number)) }
{
    match dict.word_of(number) {
        None => false,
        Some(word) => test_of(&word).is_some(),
    }
}

impl Metadata {
    /// Whether a number's word may not be removed, if it is declared: it is no test and some description has it, or an axiom names it.
    pub fn is_needed(&self, number: u32) -> bool
        requires { IsSome (word_of self.now.dict number) }
        ensures { result ≡ is_needed self.now number }
    {
        if !is_test(&self.dict, number) && is_had(&self.ext, number) {
            return true;
        }
        is_named(&self.dict, self.axioms.as_slice(), number)
    }

    /// Removes the declaration of a word, and with it its number.
    pub fn undeclare(&mut self, number: u32)
        requires { MayUndeclare number self.old }
        ensures undeclares { Undeclares number self.old self.new }
        ensures sound { AreSound self.new }
    {
        let Some(word) = self.dict.word_of(number) else {
            unreachable!()
        };
        remove_test(&self.dict, &self.declared, &mut self.taxonomy, number);
        self.dict.remove(&word);
        self.declared.put(number, false);
        mark_property(&mut self.marks, &self.limits, number);
    }
}
