//! Words and names from the bytes of a source.

ghost use Rattle.std.specs.Prelude.{◌≡◌, ◌<◌, ◌↔◌, ◌++◌, List, [], ◌∷◌, codes, filter, IsTrue, IsSome, IfSome};
ghost use Rattle.lis_words.specs.Words.{is_word, has_word, same_word};
ghost use Rattle.lis_model.specs.Noted.{noted_all};
ghost use Rattle.lis_transducers.specs.Bytes.{is_name_byte, front};
ghost use Rattle.lis_transducers.specs.Joined.{joined};
ghost use Rattle.lis_transducers.specs.Entries.{last_part};
ghost use Rattle.lis_transducers.specs.Source.{keywords};
ghost use Rattle.lis_transducers.specs.Pieces.{is_in_path};
ghost use Rattle.lis_csource.specs.Runs.{run_text};

use crate::joined::next_byte;
use crate::runs::Run;
use lis_model::derived::Derived;
use lis_words::{Word, read_formula_word};

fn is_short_keyword(name: &[u8]) -> bool
    ensures { result ≡ has_word keywords name.now }
{
    if b"if".as_slice() == name {
        return true;
    }
    if b"for".as_slice() == name {
        return true;
    }
    if b"while".as_slice() == name {
        return true;
    }
    if b"switch".as_slice() == name {
        return true;
    }
    if b"return".as_slice() == name {
        return true;
    }
    b"sizeof".as_slice() == name
}

/// Whether the name that begins here is a word of C that comes before a parenthesis and is no function.
pub fn is_keyword(bytes: &[u8]) -> bool
    ensures { result ≡ has_word keywords (front is_name_byte (joined bytes.now)) }
{
    match Run::Name.text(&[], bytes) {
        None => false,
        Some(name) => is_short_keyword(name.as_slice()),
    }
}

/// Whether the name that begins here is `include`.
pub fn is_include(bytes: &[u8]) -> bool
    ensures { result ≡ same_word (front is_name_byte (joined bytes.now)) (codes "include") }
{
    match Run::Name.text(&[], bytes) {
        None => false,
        Some(name) => name.as_slice() == b"include".as_slice(),
    }
}

fn word_of(head: &[u8], run: Run, bytes: &[u8]) -> Option<Word>
    ensures word { IsSome result ↔ IsTrue (is_word (head.now ++ run_text run bytes.now)) }
    ensures text { IfSome result (λ word. word ≡ head.now ++ run_text run bytes.now) }
{
    let text = run.text(head, bytes)?;
    read_formula_word(text.as_slice())
}

fn note_word(head: &[u8], run: Run, bytes: &[u8], out: &mut Derived)
    ensures { out.new ≡ noted_all out.old (filter is_word ((head.now ++ run_text run bytes.now) ∷ [])) }
{
    match word_of(head, run, bytes) {
        None => {}
        Some(word) => out.note(&word),
    }
}

/// Notes that the name that begins here is defined.
pub fn note_defined(bytes: &[u8], out: &mut Derived)
    ensures { out.new ≡ noted_all out.old
        (filter is_word ((codes "defines:" ++ front is_name_byte (joined bytes.now)) ∷ [])) }
{
    note_word(b"defines:", Run::Name, bytes, out);
}

/// Where the last part of a path begins.
fn last_part(close: u8, path: &[u8]) -> &[u8]
    ensures { run_text (Run.Path close) result.now ≡ last_part (run_text (Run.Path close) path.now) }
{
    let mut last = path;
    let mut rest = path;
    while let Some((byte, behind)) = next_byte(rest) {
        if byte == b'\n' || byte == close {
            return last;
        }
        if byte == b'/' {
            last = behind;
        }
        rest = behind;
    }
    last
}

/// Notes that the path that begins here is included: its part after the last `/`.
pub fn note_included(close: u8, path: &[u8], out: &mut Derived)
    ensures { out.new ≡ noted_all out.old
        (filter is_word ((codes "includes:" ++ last_part (front (is_in_path close) (joined path.now))) ∷ [])) }
{
    let last = last_part(close, path);
    note_word(b"includes:", Run::Path(close), last, out);
}
