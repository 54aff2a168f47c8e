//! Whether a formula holds of a line.

ghost use Rattle.std.specs.Prelude.{◌≡◌, ◌&&◌, List};
ghost use Rattle.std.specs.List.{list_all, list_any, slice_split};
ghost use Rattle.lis_words.specs.Words as words;
ghost use Rattle.lis_words.specs.Words.{same_word};
ghost use Rattle.lis_transducers.specs.Bytes.{past};
ghost use Rattle.lis_transducers.specs.Tokens.{is_between};
ghost use Rattle.lis_views.specs.Truth.{is_bare, kind_of, is_directive, line_kinds, is_short, short_runs, line_words, line_entry, line_holds};
ghost use Rattle.lis_cuts.specs.Words.{has_value};
ghost use Rattle.lis_words.specs.Bytes.{is_some_bytes};

use lis_place::Place;
use lis_table::truth::{Described, holds_all};
use lis_words::{Word, is_plain_byte};

/// The most bytes of a run that becomes a word after `word:`.
const MAX_RUN: usize = 55;

fn is_bare(byte: u8) -> bool
    ensures { result ≡ is_bare byte }
{
    byte == b' ' || byte == b'\t' || byte == b'\r'
}

fn are_bare(text: &[u8]) -> bool
    ensures { result ≡ list_all is_bare text.now }
{
    text.iter().all(|byte| is_bare(*byte))
}

fn kind_of(text: &[u8]) -> &'static [u8]
    ensures { result.now ≡ kind_of text.now }
{
    if are_bare(text) { b"empty" } else { b"text" }
}

fn past_bare(text: &[u8]) -> &[u8]
    ensures { result.now ≡ past is_bare text.now }
{
    let mut rest = text;
    while let [first, more @ ..] = rest {
        if !is_bare(*first) {
            return rest;
        }
        rest = more;
    }
    rest
}

fn is_directive(text: &[u8]) -> bool
    ensures { result ≡ is_directive text.now }
{
    match past_bare(text) {
        [] => false,
        [first, ..] => *first == b'#',
    }
}

// Whether the line has the word `line:` followed by this.
fn has_kind(text: &[u8], kind: &[u8]) -> bool
    ensures { result ≡ has_value (line_kinds text.now) kind.now }
{
    if kind.is_empty() {
        return true;
    }
    if kind == b"directive".as_slice() {
        return is_directive(text);
    }
    kind_of(text) == kind
}

fn makes_word(run: &[u8]) -> bool
    ensures { result ≡ (is_some_bytes run.now && is_short run.now) }
{
    if run.is_empty() {
        return false;
    }
    run.len() <= MAX_RUN
}

fn has_some_run(text: &[u8]) -> bool
    ensures { result ≡ list_any (λ run. is_some_bytes run && is_short run) (slice_split is_between text.now) }
{
    text.split(|byte| !is_plain_byte(*byte))
        .any(|run| makes_word(run))
}

fn has_this_run(text: &[u8], value: &[u8]) -> bool
    ensures { result ≡ list_any (λ run. same_word run value.now) (slice_split is_between text.now) }
{
    text.split(|byte| !is_plain_byte(*byte))
        .any(|run| run == value)
}

// Whether the line has the word `word:` followed by this.
fn has_run(text: &[u8], value: &[u8]) -> bool
    ensures { result ≡ has_value (short_runs text.now) value.now }
{
    if value.is_empty() {
        return has_some_run(text);
    }
    if value.len() > MAX_RUN {
        return false;
    }
    has_this_run(text, value)
}

/// Whether the line has the word.
pub fn line_has(text: &[u8], word: &[u8]) -> bool
    ensures { result ≡ words.has_word (line_words text.now) word.now }
{
    if let Some(kind) = word.strip_prefix(b"line:") {
        return has_kind(text, kind);
    }
    if let Some(value) = word.strip_prefix(b"word:") {
        return has_run(text, value);
    }
    false
}

/// A line, as something of which formulas hold.
#[derive(Clone, Copy)]
pub struct Line<'a> {
    pub text: &'a [u8],
}

impl Described for Line<'_> {
    ghost entry = { λ line. line_entry line.text.now };

    fn has_word(&self, word: &Word) -> bool {
        line_has(self.text, word.bytes())
    }

    fn size(&self) -> u64 {
        self.text.len() as u64
    }
}

/// Whether all steps of the place hold of the line.
pub fn line_holds(place: &Place, text: &[u8]) -> bool
    ensures { result ≡ line_holds place.now text.now }
{
    holds_all(place, &Line { text })
}
