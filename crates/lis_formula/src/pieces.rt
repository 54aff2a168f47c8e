//! Texts that are put together in place: a printed place is made of them without an allocation.

ghost use Rattle.std.specs.Prelude.{◌≡◌, ◌+◌, ◌<◌, ◌≤◌, [], ◌∷◌, length};
ghost use Rattle.lis_formula.specs.Pieces.{stacked_text, with_front, with_end, with_joint};

use arrayvec::ArrayVec;
use lis_limits::{MAX_FORMULA, MAX_NODES};
use lis_place::Text;
use std::marker::Model;

/// Texts in sequence in one array, seen as a stack of them, the last first.
#[derive(Drop)]
pub struct Pieces {
    text: ArrayVec<u8, MAX_FORMULA>,
    starts: ArrayVec<usize, 64>,
}

impl Model for Pieces {
    ghost use Rattle.std.specs.Prelude.{ℕ, List, reverse};
    ghost use Rattle.lis_formula.specs.Pieces.{cut_at, IsCut};

    ghost Value = { List (List ℕ) };

    ghost view = { λ p. cut_at (reverse p.starts.items) p.text.items };

    ghost invariant = { λ p. IsCut p.text.items (reverse p.starts.items) };
}

impl Pieces {
    pub fn new() -> Pieces
        ensures { result ≡ [] }
    {
        Pieces {
            text: ArrayVec::new(),
            starts: ArrayVec::new(),
        }
    }

    /// How many texts there are.
    pub fn len(&self) -> usize
        ensures { result ≡ length self.now }
    {
        self.starts.len()
    }

    /// Puts a text on the stack.
    pub fn push(&mut self, bytes: &[u8])
        requires room { length (stacked_text self.old) + length bytes.now ≤ MAX_FORMULA }
        requires place { length self.old < MAX_NODES }
        ensures text { self.new ≡ bytes.now ∷ self.old }
        ensures bytes { length (stacked_text self.new) ≡ length (stacked_text self.old) + length bytes.now }
    {
        self.starts.push(self.text.len());
        self.text.try_extend_from_slice(bytes).unwrap();
    }

    /// Puts a byte in front of the last text.
    pub fn put_front(&mut self, byte: u8)
        requires { length (stacked_text self.old) < MAX_FORMULA }
        ensures text { self.new ≡ with_front byte self.old }
        ensures bytes { length (stacked_text self.new) ≤ length (stacked_text self.old) + 1 }
        ensures count { length self.new ≡ length self.old }
    {
        if let Some(start) = self.starts.as_slice().last() {
            self.text.insert(*start, byte);
        }
    }

    /// Puts bytes at the end of the last text.
    pub fn put_end(&mut self, bytes: &[u8])
        requires { length (stacked_text self.old) + length bytes.now ≤ MAX_FORMULA }
        ensures text { self.new ≡ with_end bytes.now self.old }
        ensures bytes { length (stacked_text self.new) ≤ length (stacked_text self.old) + length bytes.now }
        ensures count { length self.new ≡ length self.old }
    {
        if !self.starts.is_empty() {
            self.text.try_extend_from_slice(bytes).unwrap();
        }
    }

    /// Makes one text of the last two, with a byte between them.
    pub fn join(&mut self, byte: u8)
        requires { length (stacked_text self.old) < MAX_FORMULA }
        ensures text { self.new ≡ with_joint byte self.old }
        ensures bytes { length (stacked_text self.new) ≤ length (stacked_text self.old) + 1 }
        ensures count { length self.new ≤ length self.old }
        ensures fewer { 1 < length self.old → length self.new + 1 ≡ length self.old }
    {
        if self.starts.len() < 2 {
            return;
        }
        if let Some(start) = self.starts.pop() {
            self.text.insert(start, byte);
        }
    }

    /// All texts in order, as one.
    pub fn into_text(self) -> Text
        ensures { result ≡ stacked_text self }
    {
        let Pieces { text, starts: _ } = self;
        Text::from(text)
    }
}
