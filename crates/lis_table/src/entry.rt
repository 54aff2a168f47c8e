//! A file as truth and listings see it, and a word with all that it entails.

ghost use Rattle.std.specs.Prelude.{◌≡◌, IfOk};

use crate::words::copies;
use lis_words::{Name, Word};
use std::alloc::{AllocError, Global};
use std::marker::Model;

/// A file as truth and listings see it.
#[derive(Drop)]
pub struct Entry {
    pub name: Name,
    pub size: u64,
    /// The description, a set in byte order.
    pub words: Vec<Word>,
}

impl Model for Entry {
    ghost use Rattle.lis_model.specs.Table.{Entry as Seen};

    ghost Value = { Seen };

    ghost view = { λ e. record { name = e.name; size = e.size; words = e.words.items } };
}

impl Entry {
    /// The same entry.
    pub fn copied(&self, alloc: Global) -> Result<Entry, AllocError>
        ensures { IfOk result (λ entry. entry ≡ self.now) }
    {
        Ok(Entry {
            name: self.name.copied(),
            size: self.size,
            words: copies(alloc, &self.words)?,
        })
    }
}

/// A word and all that it entails.
#[derive(Drop)]
pub struct Entailed {
    pub word: Word,
    pub above: Vec<Word>,
}

impl Model for Entailed {
    ghost use Rattle.std.specs.Prelude.{ℕ, List};

    ghost Value = { List ℕ × List (List ℕ) };

    ghost view = { λ e. (e.word, e.above.items) };
}
