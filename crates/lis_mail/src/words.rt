//! Words from the bytes of a mail.

ghost use Rattle.std.specs.Prelude.{◌≡◌, ◌<◌, ◌↔◌, [], ◌∷◌, length, filter, IsTrue, IsSome, IfSome, MatchOption};
ghost use Rattle.lis_words.specs.Words.{is_word};
ghost use Rattle.lis_model.specs.Noted.{noted_all};
ghost use Rattle.lis_transducers.specs.Mail.{with_head};

use arrayvec::ArrayVec;
use lis_limits::MAX_WORD;
use lis_model::derived::Derived;
use lis_words::{Word, read_formula_word};

/// The head and then the bytes in lower case. None exactly if they are more than 60 bytes.
pub fn with_head(head: &[u8], bytes: &[u8]) -> Option<ArrayVec<u8, 60>>
    ensures { MatchOption result (MAX_WORD < length (with_head head.now bytes.now))
        (λ joined. joined.items ≡ with_head head.now bytes.now) }
{
    let mut joined = ArrayVec::new();
    joined.try_extend_from_slice(head).ok()?;
    for byte in bytes {
        joined.try_push(byte.to_ascii_lowercase()).ok()?;
    }
    Some(joined)
}

/// The word of a head and a token in lower case. None exactly if the two are no word.
fn word_of(head: &[u8], token: &[u8]) -> Option<Word>
    ensures word { IsSome result ↔ IsTrue (is_word (with_head head.now token.now)) }
    ensures joined { IfSome result (λ word. word ≡ with_head head.now token.now) }
{
    let joined = with_head(head, token)?;
    read_formula_word(joined.as_slice())
}

/// Notes the word of a head and a token, if it is a word.
pub fn note_under(head: &[u8], token: &[u8], out: &mut Derived)
    ensures { out.new ≡ noted_all out.old (filter is_word (with_head head.now token.now ∷ [])) }
{
    match word_of(head, token) {
        None => {}
        Some(word) => out.note(&word),
    }
}
