//! What words entail, by declared tests and axioms.

ghost use Rattle.std.specs.Prelude.{◌≡◌, ℕ, Some, None, IfOk, MatchOption};
ghost use Rattle.std.specs.List.{find};
ghost use Rattle.lis_model.specs.State.{up, all_up};
ghost use Rattle.lis_table.specs.Links.{is_open};

use crate::links::{insert_linked, linked};
use crate::words::has_word;
use lis_words::Word;
use std::alloc::{AllocError, Global};
use std::marker::Model;

/// An axiom: its left word entails its right one.
#[derive(Drop)]
pub struct Axiom {
    pub left: Word,
    pub right: Word,
}

impl Model for Axiom {
    ghost use Rattle.std.specs.Prelude.{ℕ, List};

    ghost Value = { List ℕ × List ℕ };

    ghost view = { λ a. (a.left, a.right) };
}

impl Axiom {
    /// The same axiom.
    pub fn copied(&self) -> Axiom
        ensures { result ≡ self.now }
    {
        Axiom {
            left: self.left.copied(),
            right: self.right.copied(),
        }
    }
}

/// Whether the words have the left side, and not the right one.
fn is_open(words: &[Word], pair: &Axiom) -> bool
    ensures { result ≡ is_open words.now pair.now }
{
    if !has_word(words, &pair.left) {
        return false;
    }
    !has_word(words, &pair.right)
}

/// The first axiom whose left side the words have, and whose right side they do not have.
fn first_open<'a>(words: &[Word], axioms: &'a [Axiom]) -> Option<&'a Axiom>
    ensures { MatchOption result (find (is_open words.now) axioms.now ≡ None) (λ pair. find (is_open words.now) axioms.now ≡ Some pair.now) }
{
    for pair in axioms {
        if is_open(words, pair) {
            return Some(pair);
        }
    }
    None
}

/// All that the words entail, a set in byte order.
pub fn all_up(
    alloc: Global,
    declared: &[Word],
    axioms: &[Axiom],
    words: &[Word],
) -> Result<Vec<Word>, AllocError>
    ensures { IfOk result (λ all. all.items ≡ all_up declared.now axioms.now words.now) }
{
    let mut all = linked(alloc, declared, words)?;
    while let Some(pair) = first_open(&all, axioms) {
        insert_linked(&mut all, declared, &pair.right)?;
    }
    Ok(all)
}

/// All that the word entails, a set in byte order.
pub fn up(
    alloc: Global,
    declared: &[Word],
    axioms: &[Axiom],
    word: &Word,
) -> Result<Vec<Word>, AllocError>
    ensures { IfOk result (λ all. all.items ≡ up declared.now axioms.now word.now) }
{
    let mut alone = Vec::new(alloc);
    alone.push(word.copied())?;
    all_up(alloc, declared, axioms, &alone)
}
