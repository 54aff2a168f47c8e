//! The lines of an edited view, and marks.

ghost use Rattle.std.specs.Prelude.{◌≡◌, ◌+◌, ◌<◌, true, false, List, [], ◌∷◌, ◌++◌, length, MatchOption, IfSome};
ghost use Rattle.std.specs.List.{list_all};
ghost use Rattle.std.specs.Char.{is_ascii_digit};
ghost use Rattle.lis_transducers.specs.Bytes.{but_first};
ghost use Rattle.lis_views.specs.Views.{numeral};
ghost use Rattle.lis_views.specs.Edits.{is_kept, is_numeral, are_numerals, is_mark, is_edited, is_end};

use arrayvec::ArrayVec;
use itoa::Buffer;
use memchr::memchr;

/// The bytes after the `+`, if the line begins with one.
pub fn kept_text(text: &[u8]) -> Option<&[u8]>
    ensures kept { MatchOption result (is_kept text.now ≡ false) (λ kept. (is_kept text.now ≡ true) × (kept.now ≡ but_first text.now)) }
    ensures shorter { IfSome result (λ kept. length kept.now + 1 ≡ length text.now) }
{
    match text {
        [b'+', kept @ ..] => Some(kept),
        _ => None,
    }
}

fn are_digits(digits: &[u8]) -> bool
    ensures { result ≡ list_all is_ascii_digit digits.now }
{
    digits.iter().all(|digit| digit.is_ascii_digit())
}

fn is_numeral(digits: &[u8]) -> bool
    ensures { result ≡ is_numeral digits.now }
{
    match digits {
        [] => false,
        [b'0', ..] => false,
        _ => are_digits(digits),
    }
}

fn are_numerals(text: &[u8]) -> bool
    ensures { result ≡ are_numerals text.now }
{
    let Some(space) = memchr(b' ', text) else {
        return false;
    };
    let (number, _) = text.split_at(space);
    let (_, count) = text.split_at(space + 1);
    if !is_numeral(number) {
        return false;
    }
    is_numeral(count)
}

/// Whether the line has the form of a mark: `@` and two numbers.
pub fn is_mark(text: &[u8]) -> bool
    ensures { result ≡ is_mark text.now }
{
    match text {
        [b'@', numerals @ ..] => are_numerals(numerals),
        _ => false,
    }
}

/// Whether the line is one of an edited view before its end.
pub fn is_edited(text: &[u8]) -> bool
    ensures { result ≡ is_edited text.now }
{
    if kept_text(text).is_some() {
        return true;
    }
    is_mark(text)
}

/// Whether the line is `!`.
pub fn is_end(text: &[u8]) -> bool
    ensures { result ≡ is_end text.now }
{
    text == b"!".as_slice()
}

/// The mark of a run: its number, and how many texts it has.
pub fn mark(number: u64, count: u64) -> ArrayVec<u8, 48>
    requires number { 0 < number }
    requires count { 0 < count }
    ensures { result.items ≡ 64 ∷ numeral number ++ 32 ∷ numeral count }
{
    let mut mark = ArrayVec::new();
    mark.push(b'@');
    let mut buffer = Buffer::new();
    mark.try_extend_from_slice(buffer.format(number).as_bytes())
        .unwrap();
    mark.push(b' ');
    let mut buffer = Buffer::new();
    mark.try_extend_from_slice(buffer.format(count).as_bytes())
        .unwrap();
    mark
}
