//! Texts, as they come in an input line or are printed.

ghost use Rattle.std.specs.Prelude.{◌≡◌, ◌==◌, ℕ, ◌<◌, ◌≤◌, List, length, MatchOption};

use arrayvec::ArrayVec;
use lis_limits::MAX_FORMULA;
use std::marker::Model;

/// At most 1,024 bytes.
#[derive(Drop, Debug, PartialEq, Eq)]
pub struct Text {
    held: ArrayVec<u8, MAX_FORMULA>,
}

impl Model for Text {
    ghost use Rattle.std.specs.Prelude.{ℕ, List};

    ghost Value = { List ℕ };

    ghost view = { λ t. t.held.items };

    ghost inverse = { λ bytes. record { held = record { items = bytes } } };
}

impl Text {
    /// The text of these bytes. None exactly if there are more than 1,024.
    pub fn of(bytes: &[u8]) -> Option<Text>
        ensures { MatchOption result
            (MAX_FORMULA < length bytes.now)
            (λ text. (text ≡ bytes.now) × (length bytes.now ≤ MAX_FORMULA)) }
    {
        let mut held = ArrayVec::new();
        held.try_extend_from_slice(bytes).ok()?;
        Some(Text { held })
    }

    /// How many bytes the text has.
    pub fn len(&self) -> usize
        ensures value { result ≡ length self.now }
        ensures short { result ≤ MAX_FORMULA }
    {
        self.held.len()
    }

    /// Whether the text has no byte.
    pub fn is_empty(&self) -> bool
        ensures { result ≡ (length self.now == 0) }
    {
        self.held.is_empty()
    }

    /// The text's bytes.
    pub fn bytes(&self) -> &[u8]
        ensures bytes { result.now ≡ self.now }
        ensures short { length result.now ≤ MAX_FORMULA }
    {
        self.held.as_slice()
    }

    /// The same text, without an allocation.
    pub fn copied(&self) -> Text
        ensures { result ≡ self.now }
    {
        let mut held = ArrayVec::new();
        held.try_extend_from_slice(self.held.as_slice()).unwrap();
        Text { held }
    }
}

/// A text takes over the bytes that were put together in place.
impl From<ArrayVec<u8, MAX_FORMULA>> for Text {
    ghost from_gives = { λ held text. text ≡ held.items };

    fn from(held: ArrayVec<u8, MAX_FORMULA>) -> Self {
        Text { held }
    }
}
