//! The files of a place.

ghost use Rattle.std.specs.Prelude.{◌≡◌, ◌+◌, ◌<◌, ◌≤◌, Bool, List, [], ◌∷◌, filter, fold, length, IfOk};
ghost use Rattle.std.specs.List.{list_all};
ghost use Rattle.lis_words.specs.Words as words;
ghost use Rattle.lis_model.specs.Listing.{holds_all};
ghost use Rattle.lis_model.specs.Table.{Entry};
ghost use Rattle.lis_table.specs.Truth.{last_value, below_last, with_value};

use crate::entry::Entry;
use crate::words::has_word;
use arrayvec::ArrayVec;
use lis_limits::MAX_NODES;
use lis_place::{Node, Place};
use lis_words::Word;
use std::alloc::{AllocError, Global};
use std::marker::Model;

/// What formulas hold of.
pub trait Described {
    /// The entry of a file with these words and of this size.
    ghost entry: { Self → Entry };

    /// Whether it has the word.
    fn has_word(&self, word: &Word) -> bool
        ensures { result ≡ words.has_word (entry self.now).words word.now };

    /// How many bytes it has.
    fn size(&self) -> u64
        ensures { result ≡ (entry self.now).size };
}

impl Described for Entry {
    ghost entry = { λ file. file };

    fn has_word(&self, word: &Word) -> bool {
        has_word(&self.words, word)
    }

    fn size(&self) -> u64 {
        self.size
    }
}

// Truth values of trees, seen as a stack, the last first.
#[derive(Drop)]
struct Values {
    held: ArrayVec<bool, 64>,
}

impl Model for Values {
    ghost use Rattle.std.specs.Prelude.{Bool, List, reverse};

    ghost Value = { List Bool };

    ghost view = { λ v. reverse v.held.items };
}

fn are_all_true(values: &[bool]) -> bool
    ensures { result ≡ list_all (λ value. value) values.now }
{
    values.iter().all(|value| *value)
}

impl Values {
    fn new() -> Values
        ensures { result ≡ [] }
    {
        Values {
            held: ArrayVec::new(),
        }
    }

    fn push(&mut self, value: bool)
        requires { length self.old < MAX_NODES }
        ensures { self.new ≡ value ∷ self.old }
    {
        self.held.push(value);
    }

    // Removes the last value and returns it; false if there is none.
    fn pop(&mut self) -> bool
        ensures last { result ≡ last_value self.old }
        ensures rest { self.new ≡ below_last self.old }
    {
        self.held.pop().unwrap_or(false)
    }

    fn are_all_true(&self) -> bool
        ensures { result ≡ list_all (λ value. value) self.now }
    {
        are_all_true(self.held.as_slice())
    }

    // Puts the truth of one more node.
    fn put<D: Described>(&mut self, node: &Node, described: &D)
        requires { length self.old < MAX_NODES }
        ensures value { self.new ≡ with_value (D.entry described.now) self.old node.now }
        ensures count { length self.new ≤ length self.old + 1 }
    {
        match node {
            Node::Word(word) => self.push(described.has_word(word)),
            Node::AtLeast(size) => self.push(*size <= described.size()),
            Node::Below(size) => self.push(described.size() < *size),
            Node::Not => {
                let value = self.pop();
                self.push(!value);
            }
            Node::And => {
                let right = self.pop();
                let left = self.pop();
                self.push(left && right);
            }
            Node::Or => {
                let right = self.pop();
                let left = self.pop();
                self.push(left || right);
            }
        }
    }
}

fn values_of<D: Described>(nodes: &[Node], described: &D) -> Values
    requires { length nodes.now ≤ MAX_NODES }
    ensures { result ≡ fold (with_value (D.entry described.now)) [] nodes.now }
{
    let mut values = Values::new();
    for node in nodes {
        values.put(node, described);
    }
    values
}

/// Whether all steps of the place hold of it.
pub fn holds_all<D: Described>(place: &Place, described: &D) -> bool
    ensures { result ≡ holds_all place.now (D.entry described.now) }
{
    let values = values_of(place.nodes(), described);
    values.are_all_true()
}

/// The files of which the place holds.
pub fn extension(alloc: Global, files: &[Entry], place: &Place) -> Result<Vec<Entry>, AllocError>
    ensures { IfOk result (λ kept. kept.items ≡ filter (holds_all place.now) files.now) }
{
    let mut kept = Vec::new(alloc);
    for file in files {
        if holds_all(place, file) {
            kept.push(file.copied(alloc)?)?;
        }
    }
    Ok(kept)
}
