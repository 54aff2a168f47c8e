//! The word of a file's size.

ghost use Rattle.std.specs.Prelude.{◌≡◌, [], ◌∷◌, IsTrue};
ghost use Rattle.lis_words.specs.Words.{is_word};
ghost use Rattle.lis_model.specs.Noted.{noted_all};
ghost use Rattle.lis_model.specs.Derived.{size_word};

use lis_limits::{MEDIUM_FILE, SMALL_FILE};
use lis_model::derived::Derived;
use lis_words::{Word, read_formula_word};

fn word_of(bytes: &[u8]) -> Word
    requires { IsTrue (is_word bytes.now) }
    ensures { result ≡ bytes.now }
{
    read_formula_word(bytes).unwrap()
}

fn size_word(size: usize) -> Word
    ensures { result ≡ size_word size }
{
    if size == 0 {
        return word_of(b"size:empty");
    }
    if size < SMALL_FILE {
        return word_of(b"size:small");
    }
    if size < MEDIUM_FILE {
        return word_of(b"size:medium");
    }
    word_of(b"size:large")
}

/// Notes the word of the size.
pub fn note_size(size: usize, out: &mut Derived)
    ensures { out.new ≡ noted_all out.old (size_word size ∷ []) }
{
    let word = size_word(size);
    out.note(&word);
}
