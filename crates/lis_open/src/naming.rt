//! What the words of an image may be used for.

ghost use Rattle.std.specs.Prelude.{◌≡◌, ◌<◌, ◌||◌, ◌&&◌, not, is_some, true, false, Some, MatchOption};
ghost use Rattle.std.specs.List.{list_all};
ghost use Rattle.lis_dict.specs.Dict.{number_of, word_of};
ghost use Rattle.lis_words.specs.Words.{has_word, is_plain_word, is_test, is_valued, head_bytes};
ghost use Rattle.lis_model.specs.State.{is_assignable, is_nameable, is_known_head};
ghost use Rattle.lis_open.specs.ReadWords.{AreWords, declared_words, is_left, is_right};
ghost use Rattle.lis_open.specs.ReadFiles.{is_assignable_number, is_numbered};

use crate::words::Words;
use lis_words::{Word, head_of, is_builtin, is_head, is_plain_word, test_of};

// Whether the word is declared.
fn is_declared(words: &Words, word: &Word) -> bool
    requires { AreWords words.now }
    ensures { result ≡ has_word (declared_words words.now) word.now }
{
    match words.dict.id_of(word) {
        None => false,
        Some(number) => words.declared.get(number),
    }
}

// Whether the word is a head that is declared or built in.
fn is_known_head(words: &Words, word: &Word) -> bool
    requires { AreWords words.now }
    ensures { result ≡ is_known_head (declared_words words.now) word.now }
{
    if !is_head(word.bytes()) {
        return false;
    }
    is_declared(words, word) || is_builtin(word)
}

// Whether the word is plain or a test.
fn is_plain_or_test(word: &Word) -> bool
    ensures { result ≡ (is_plain_word word.now || is_test word.now) }
{
    if is_plain_word(word.bytes()) {
        return true;
    }
    test_of(word).is_some()
}

// Whether the word is declared, and is plain or a test.
fn is_named(words: &Words, word: &Word) -> bool
    requires { AreWords words.now }
    ensures { result ≡ ((is_plain_word word.now || is_test word.now) && has_word (declared_words words.now) word.now) }
{
    is_plain_or_test(word) && is_declared(words, word)
}

// Whether the word is valued, and its head is declared or built in.
fn has_known_head(words: &Words, word: &Word) -> bool
    requires { AreWords words.now }
    ensures { result ≡ (is_valued word.now && is_known_head (declared_words words.now) (head_bytes word.now)) }
{
    match head_of(word) {
        None => false,
        Some(head) => is_known_head(words, &head),
    }
}

// Whether an axiom may name the word.
fn is_nameable(words: &Words, word: &Word) -> bool
    requires { AreWords words.now }
    ensures { result ≡ is_nameable (declared_words words.now) word.now }
{
    is_named(words, word) || is_known_head(words, word) || has_known_head(words, word)
}

// Whether the word is valued, and its head is declared.
fn has_declared_head(words: &Words, word: &Word) -> bool
    requires { AreWords words.now }
    ensures { result ≡ (is_valued word.now && has_word (declared_words words.now) (head_bytes word.now)) }
{
    match head_of(word) {
        None => false,
        Some(head) => is_declared(words, &head),
    }
}

// Whether the word of a number is declared. The flag of the number tells it without a search.
fn is_flagged(words: &Words, word: &Word, number: u32) -> bool
    requires are { AreWords words.now }
    requires number { word_of words.now.dict number ≡ Some word.now }
    ensures { result ≡ has_word (declared_words words.now) word.now }
{
    words.declared.get(number)
}

// Whether the word of a number may be assigned to files.
fn is_assignable(words: &Words, word: &Word, number: u32) -> bool
    requires are { AreWords words.now }
    requires number { word_of words.now.dict number ≡ Some word.now }
    ensures { result ≡ is_assignable (declared_words words.now) word.now }
{
    (is_plain_word(word.bytes()) && is_flagged(words, word, number))
        || has_declared_head(words, word)
}

/// Whether an axiom may have the word of a number as its right side.
pub fn is_right(words: &Words, number: u32) -> bool
    requires { AreWords words.now }
    ensures { result ≡ is_right words.now (word_of words.now.dict number) }
{
    match words.dict.word_of(number) {
        None => false,
        Some(word) => is_plain_word(word.bytes()) && is_declared(words, &word),
    }
}

// Whether the head of a valued word has a number.
fn has_its_head(words: &Words, word: &Word) -> bool
    requires { AreWords words.now }
    ensures { result ≡ (not (is_valued word.now) || is_some (number_of words.now.dict (head_bytes word.now))) }
{
    match head_of(word) {
        None => true,
        Some(head) => words.dict.id_of(&head).is_some(),
    }
}

/// The number of a word. The result is `None` if it has none, or if it is valued and its head has none.
pub fn numbered(words: &Words, word: &Word) -> Option<u32>
    requires { AreWords words.now }
    ensures { MatchOption result (is_numbered words.now.dict word.now ≡ false)
        (λ number. (is_numbered words.now.dict word.now ≡ true) × (number_of words.now.dict word.now ≡ Some number)) }
{
    match words.dict.id_of(word) {
        None => None,
        Some(number) => {
            if has_its_head(words, word) {
                Some(number)
            } else {
                None
            }
        }
    }
}

/// Whether an axiom may have the word of a number as its left side.
pub fn is_left(words: &Words, number: u32) -> bool
    requires { AreWords words.now }
    ensures { result ≡ is_left words.now (word_of words.now.dict number) }
{
    match words.dict.word_of(number) {
        None => false,
        Some(word) => is_nameable(words, &word) && has_its_head(words, &word),
    }
}

// Whether the number has a word that may be assigned to files.
fn is_assignable_number(words: &Words, number: u32) -> bool
    requires { AreWords words.now }
    ensures { result ≡ is_assignable_number words.now number }
{
    match words.dict.word_of(number) {
        None => false,
        Some(word) => is_assignable(words, &word, number),
    }
}

/// Whether each number has a word that may be assigned to files.
pub fn are_assignable(words: &Words, numbers: &[u32]) -> bool
    requires { AreWords words.now }
    ensures { result ≡ list_all (is_assignable_number words.now) numbers.now }
{
    numbers
        .iter()
        .all(|number| is_assignable_number(words, *number))
}
