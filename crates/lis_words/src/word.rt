//! Words: properties as they are written.

ghost use Rattle.std.specs.Prelude.{◌≡◌, ℕ, ◌≤◌, ◌<◌, ◌↔◌, [], ◌∷◌, ◌++◌, ◌&&◌, List, length, codes, IsTrue, IsSome, IfSome};
ghost use Rattle.lis_words.specs.Words.{is_word, is_property, test_of, is_head, is_valued, is_built_in, has_word, head_bytes, built_in_heads};
ghost use Rattle.lis_words.specs.Kind.{kind_of};

use crate::forms::{
    is_head, is_plain_word, is_property, is_valued, is_word, split_at_colon, test_in,
};
use crate::test::Test;
use arrayvec::ArrayVec;
use lis_limits::MAX_WORD;
use std::marker::Model;

/// The kind of a word.
#[derive(Clone, Copy, Debug, PartialEq, Eq)]
pub enum PropKind {
    /// A plain word, as `music`.
    Plain,
    /// A plain word and a colon, as `year:`.
    Head,
    /// A head and a value, as `year:2003`.
    Valued,
    /// A test of a file's size, as `size>=1000`.
    Test,
}

/// A word: a plain word, a head, a valued word or a test, of 1 to 60 bytes. Words are ordered by their bytes.
#[derive(Drop, Debug, Clone, PartialEq, Eq, PartialOrd, Ord)]
pub struct Word {
    held: ArrayVec<u8, 60>,
}

impl Model for Word {
    ghost use Rattle.std.specs.Prelude.{ℕ, List, IsTrue};
    ghost use Rattle.lis_words.specs.Words.{is_property};

    ghost Value = { List ℕ };

    ghost view = { λ w. w.held.items };

    ghost invariant = { λ w. IsTrue (is_property w.held.items) };

    ghost inverse = { λ bytes. record { held = record { items = bytes } } };
}

/// The word `_`, for a container of fixed capacity that needs an initial value.
impl Default for Word {
    ghost is_default = { λ w. w ≡ codes "_" };

    fn default() -> Self {
        let mut held = ArrayVec::new();
        held.push(b'_');
        Word { held }
    }
}

fn held(bytes: &[u8]) -> ArrayVec<u8, 60>
    requires { length bytes.now ≤ MAX_WORD }
    ensures { result.items ≡ bytes.now }
{
    let mut held = ArrayVec::new();
    held.try_extend_from_slice(bytes).unwrap();
    held
}

/// Reads a word. None exactly if the bytes are no word.
#[tactic(auto, using(crate::proofs::Tests::property_short))]
pub fn read_word(bytes: &[u8]) -> Option<Word>
    ensures word { IsSome result ↔ IsTrue (is_property bytes.now) }
    ensures same { IfSome result (λ word. word ≡ bytes.now) }
{
    if !is_property(bytes) {
        return None;
    }
    let held = held(bytes);
    Some(Word { held })
}

/// Reads a word that a formula may have. None exactly if the bytes are no such word: a test is not one.
pub fn read_formula_word(bytes: &[u8]) -> Option<Word>
    ensures word { IsSome result ↔ IsTrue (is_word bytes.now) }
    ensures same { IfSome result (λ word. word ≡ bytes.now) }
{
    if !is_word(bytes) {
        return None;
    }
    read_word(bytes)
}

impl Word {
    /// The word's bytes.
    pub fn bytes(&self) -> &[u8]
        ensures bytes { result.now ≡ self.now }
        ensures word { IsTrue (is_property self.now) }
        ensures short { length result.now ≤ MAX_WORD }
    {
        self.held.as_slice()
    }

    /// How many bytes the word has; a word is never empty.
    pub fn len(&self) -> usize
        ensures value { result ≡ length self.now }
        ensures short { result ≤ MAX_WORD }
    {
        self.held.len()
    }

    /// The same word, without an allocation: unlike `clone`, it can't fail.
    pub fn copied(&self) -> Word
        ensures { result ≡ self.now }
    {
        let mut held = ArrayVec::new();
        held.try_extend_from_slice(self.held.as_slice()).unwrap();
        Word { held }
    }
}

/// The word's kind.
pub fn kind(word: &Word) -> PropKind
    ensures { result ≡ kind_of word.now }
{
    if is_plain_word(word.bytes()) {
        return PropKind::Plain;
    }
    if is_head(word.bytes()) {
        return PropKind::Head;
    }
    if is_valued(word.bytes()) {
        return PropKind::Valued;
    }
    PropKind::Test
}

/// Which test the word is. None exactly if it is no test.
pub fn test_of(word: &Word) -> Option<Test>
    ensures { result ≡ test_of word.now }
{
    test_in(word.bytes())
}

fn with_colon(stem: &[u8]) -> ArrayVec<u8, 60>
    requires { length stem.now < MAX_WORD }
    ensures { result.items ≡ stem.now ++ 58 ∷ [] }
{
    let mut held = ArrayVec::new();
    held.try_extend_from_slice(stem).unwrap();
    held.push(b':');
    held
}

fn head(word: &Word) -> Word
    requires { IsTrue (is_valued word.now) }
    ensures { result ≡ head_bytes word.now }
{
    let (stem, _) = split_at_colon(word.bytes());
    let held = with_colon(stem);
    Word { held }
}

/// The head of a valued word. None exactly if the word is not valued.
pub fn head_of(word: &Word) -> Option<Word>
    ensures valued { IsSome result ↔ IsTrue (is_valued word.now) }
    ensures head { IfSome result (λ head. head ≡ head_bytes word.now) }
{
    if !is_valued(word.bytes()) {
        return None;
    }
    Some(head(word))
}

fn is_builtin_head(bytes: &[u8]) -> bool
    ensures { result ≡ has_word built_in_heads bytes.now }
{
    if b"ext:".as_slice() == bytes {
        return true;
    }
    if b"size:".as_slice() == bytes {
        return true;
    }
    if b"from:".as_slice() == bytes {
        return true;
    }
    if b"to:".as_slice() == bytes {
        return true;
    }
    if b"subject:".as_slice() == bytes {
        return true;
    }
    if b"includes:".as_slice() == bytes {
        return true;
    }
    b"defines:".as_slice() == bytes
}

fn has_builtin_head(word: &Word) -> bool
    ensures { result ≡ (is_valued word.now && has_word built_in_heads (head_bytes word.now)) }
{
    if !is_valued(word.bytes()) {
        return false;
    }
    let head = head(word);
    is_builtin_head(head.bytes())
}

/// Whether the word is a head of the words that are derived from files, or has such a head.
pub fn is_builtin(word: &Word) -> bool
    ensures { result ≡ is_built_in word.now }
{
    if is_builtin_head(word.bytes()) {
        return true;
    }
    has_builtin_head(word)
}

/// The word of a head and a value. None exactly if the first is no head, or the two are no valued word.
#[tactic(auto, using(crate::proofs::Tests::valued_is_property))]
pub fn with_value(head: &Word, value: &[u8]) -> Option<Word>
    ensures valued { IsSome result ↔ (IsTrue (is_head head.now) × IsTrue (is_valued (head.now ++ value.now))) }
    ensures joined { IfSome result (λ word. word ≡ head.now ++ value.now) }
{
    if !is_head(head.bytes()) {
        return None;
    }
    let mut held: ArrayVec<u8, 60> = ArrayVec::new();
    held.try_extend_from_slice(head.bytes()).ok()?;
    held.try_extend_from_slice(value).ok()?;
    if !is_valued(held.as_slice()) {
        return None;
    }
    Some(Word { held })
}
