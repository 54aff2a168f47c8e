//! Commands and the words that they carry.

ghost use Rattle.std.specs.Prelude.{◌≡◌, ◌==◌, ℕ, ◌<◌, ◌≤◌, List, [], ◌∷◌, ◌++◌, length, slice_get};

use arrayvec::ArrayVec;
use lis_limits::MAX_ASSIGNED;
use lis_place::Text;
use lis_words::{Name, Word};
use std::marker::Model;

/// At most 16 words, in the order in which they were written.
#[derive(Drop, Debug)]
pub struct Tags {
    words: ArrayVec<Word, 16>,
}

impl Model for Tags {
    ghost use Rattle.std.specs.Prelude.{ℕ, List};

    ghost Value = { List (List ℕ) };

    ghost view = { λ t. t.words.items };

    ghost inverse = { λ words. record { words = record { items = words } } };
}

impl Tags {
    pub fn new() -> Tags
        ensures { result ≡ [] }
    {
        Tags {
            words: ArrayVec::new(),
        }
    }

    pub fn len(&self) -> usize
        ensures value { result ≡ length self.now }
        ensures few { result ≤ MAX_ASSIGNED }
    {
        self.words.len()
    }

    pub fn is_empty(&self) -> bool
        ensures { result ≡ (length self.now == 0) }
    {
        self.words.is_empty()
    }

    /// Appends the word.
    pub fn push(&mut self, word: &Word)
        requires { length self.old < MAX_ASSIGNED }
        ensures { self.new ≡ self.old ++ word.now ∷ [] }
    {
        self.words.push(word.copied());
    }

    /// The words, in order.
    pub fn as_slice(&self) -> &[Word]
        ensures words { result.now ≡ self.now }
        ensures few { length result.now ≤ MAX_ASSIGNED }
    {
        self.words.as_slice()
    }

    /// The word at index `k`, counted from 0. None exactly if there is none.
    pub fn word(&self, k: u32) -> Option<Word>
        ensures { result ≡ slice_get self.now k }
    {
        match self.words.as_slice().get(k as usize) {
            None => None,
            Some(word) => Some(word.copied()),
        }
    }
}

/// What a line requests.
#[derive(Drop, Debug)]
pub enum Command {
    /// Declares the word, with an axiom to each word of the place.
    Mkdir(Word),
    /// Removes the declaration of the word.
    Rmdir(Word),
    /// Lets the first word entail the second.
    Axiom(Word, Word),
    /// Removes this axiom.
    Unaxiom(Word, Word),
    /// Makes an empty file of that name with these words, and with those of the place.
    Create(Name, Tags),
    /// Makes a file of that name as `Create` does; its bytes are the payload after the line.
    Add(Name, Tags),
    /// Replaces the bytes of the file of that name by the payload after the line.
    Write(Name),
    /// Shows the bytes of the file of that name.
    Cat(Name),
    /// Removes the tags of the place from the file of that name, and gives it those of the place that the text resolves to.
    Mv(Name, Text),
    /// Gives the file of the first name the second name.
    Rename(Name, Name),
    /// Removes the file of that name.
    Rm(Name),
    /// Goes to the place that the text resolves to.
    Cd(Text),
    /// Shows the place.
    Pwd,
    /// Shows the increments and the locals of the place.
    Ls,
    /// Shows the description of the file of that name.
    Props(Name),
    /// Shows the increments that lead to the file of that name.
    Way(Name),
    /// Shows how many files, known words, axioms and free blocks there are.
    Stat,
}
