//! Words that are derived from a file.

ghost use Rattle.std.specs.Prelude.{◌≡◌, ◌==◌, ℕ, ◌<◌, ◌≤◌, List, [], length, IsTrue, slice_get};
ghost use Rattle.lis_words.specs.Words.{has_word};
ghost use Rattle.lis_model.specs.Noted.{noted, are_distinct_words};

use arrayvec::ArrayVec;
use lis_limits::MAX_DERIVED;
use lis_words::Word;
use std::marker::Model;

/// At most 48 distinct words, in the order in which they were noted.
#[derive(Drop, Debug)]
pub struct Derived {
    words: ArrayVec<Word, 48>,
}

impl Model for Derived {
    ghost use Rattle.std.specs.Prelude.{ℕ, List, IsTrue};
    ghost use Rattle.lis_model.specs.Noted.{are_distinct_words};

    ghost Value = { List (List ℕ) };

    ghost view = { λ d. d.words.items };

    ghost invariant = { λ d. IsTrue (are_distinct_words d.words.items) };
}

impl Derived {
    pub fn new() -> Derived
        ensures { result ≡ [] }
    {
        Derived {
            words: ArrayVec::new(),
        }
    }

    /// How many words there are.
    pub fn len(&self) -> usize
        ensures value { result ≡ length self.now }
        ensures few { result ≤ MAX_DERIVED }
        ensures distinct { IsTrue (are_distinct_words self.now) }
    {
        self.words.len()
    }

    pub fn is_empty(&self) -> bool
        ensures { result ≡ (length self.now == 0) }
    {
        self.words.is_empty()
    }

    fn has(&self, word: &Word) -> bool
        ensures { result ≡ has_word self.now word.now }
    {
        self.words.as_slice().iter().any(|held| held == word)
    }

    /// Appends the word if it is not there and fewer than 48 are; otherwise it changes nothing.
    pub fn note(&mut self, word: &Word)
        ensures { self.new ≡ noted self.old word.now }
    {
        if self.has(word) {
            return;
        }
        if self.words.is_full() {
            return;
        }
        self.words.push(word.copied());
    }

    /// The same words, without an allocation: unlike `clone`, it can't fail.
    pub fn copied(&self) -> Derived
        ensures { result ≡ self.now }
    {
        let mut words = ArrayVec::new();
        for word in self.words.as_slice() {
            words.push(word.copied());
        }
        Derived { words }
    }

    /// The words, in order.
    pub fn as_slice(&self) -> &[Word]
        ensures words { result.now ≡ self.now }
        ensures few { length result.now ≤ MAX_DERIVED }
        ensures distinct { IsTrue (are_distinct_words result.now) }
    {
        self.words.as_slice()
    }

    /// The word at index `k`, counted from 0. None exactly if there is none.
    pub fn word(&self, k: u32) -> Option<Word>
        ensures { result ≡ slice_get self.now k }
    {
        match self.words.as_slice().get(k as usize) {
            None => None,
            Some(word) => Some(word.copied()),
        }
    }
}
