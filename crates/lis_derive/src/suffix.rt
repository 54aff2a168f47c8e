//! The end of a file's name, and its word.

ghost use Rattle.std.specs.Prelude.{◌≡◌, ◌↔◌, ◌≤◌, ◌<◌, None, Some, ◌++◌, length, codes, IsSome, IfSome, IsTrue, MatchOption};
ghost use Rattle.lis_words.specs.Words.{is_word};
ghost use Rattle.lis_model.specs.Noted.{noted_all};
ghost use Rattle.lis_model.specs.Derived.{behind_stop, suffix_of, suffix_words};

use arrayvec::ArrayVec;
use lis_model::derived::Derived;
use lis_words::{Word, read_formula_word};
use memchr::memrchr;

/// The most bytes of a suffix that is in a word.
const MAX_SUFFIX: usize = 56;

/// What follows the last full stop.
fn behind_stop(bytes: &[u8]) -> Option<&[u8]>
    ensures { MatchOption result (behind_stop bytes.now ≡ None) (λ behind. behind_stop bytes.now ≡ Some behind.now) }
{
    match memrchr(b'.', bytes) {
        None => None,
        Some(stop) => {
            let (_, behind) = bytes.split_at(stop + 1);
            Some(behind)
        }
    }
}

/// The bytes after the last full stop of a name, if it has at least one byte before it and one after it.
pub fn suffix_of(name: &[u8]) -> Option<&[u8]>
    ensures { MatchOption result (suffix_of name.now ≡ None) (λ suffix. suffix_of name.now ≡ Some suffix.now) }
{
    match name {
        [] => None,
        [_, rest @ ..] => {
            let suffix = behind_stop(rest)?;
            if suffix.is_empty() {
                return None;
            }
            Some(suffix)
        }
    }
}

fn suffix_text(suffix: &[u8]) -> ArrayVec<u8, 60>
    requires { length suffix.now ≤ 56 }
    ensures { result.items ≡ codes "ext:" ++ suffix.now }
{
    let mut text = ArrayVec::new();
    text.try_extend_from_slice(b"ext:").unwrap();
    text.try_extend_from_slice(suffix).unwrap();
    text
}

/// The word of a suffix. None exactly if it would be too long, or no word.
fn suffix_word(suffix: &[u8]) -> Option<Word>
    ensures word { IsSome result ↔ IsTrue (is_word (codes "ext:" ++ suffix.now)) }
    ensures same { IfSome result (λ word. word ≡ codes "ext:" ++ suffix.now) }
{
    if suffix.len() > MAX_SUFFIX {
        return None;
    }
    let text = suffix_text(suffix);
    read_formula_word(text.as_slice())
}

/// Notes the word of a suffix, if it is a word.
pub fn note_suffix(suffix: &[u8], out: &mut Derived)
    ensures { out.new ≡ noted_all out.old (suffix_words (Some suffix.now)) }
{
    match suffix_word(suffix) {
        None => {}
        Some(word) => out.note(&word),
    }
}
