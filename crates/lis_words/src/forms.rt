//! The tests on bytes that words, names and counts rest on.

ghost use Rattle.std.specs.Prelude.{◌≡◌, ◌+◌, ◌<◌, ◌≤◌, ◌^◌, ◌↔◌, List, length, not, ◌==◌, ◌||◌, is_some, IsTrue, IsSome, IfSome};
ghost use Rattle.lis_words.specs.Words.{is_plain_byte, is_plain_word, is_head, is_valued, is_word, is_property, is_number, begins_with_zero, number_behind, test_of, is_file_name, has_stem, stem, value, is_count, count_of, begins_with_stop, is_stops};
ghost use Rattle.std.specs.List.{list_any, list_all, prefix_len};
ghost use Rattle.std.specs.Char.{is_ascii_digit};
ghost use Rattle.lis_words.specs.Bytes.{is_colon};

use crate::test::Test;
use lis_limits::MAX_WORD;

/// The most digits of a count.
pub const MAX_DIGITS: usize = 12;

/// Whether words and names may have the byte: an ASCII letter, a digit, or one of `_ - . + @`.
pub fn is_plain_byte(byte: u8) -> bool
    ensures { result ≡ is_plain_byte byte }
{
    byte.is_ascii_alphanumeric()
        || byte == b'_'
        || byte == b'-'
        || byte == b'.'
        || byte == b'+'
        || byte == b'@'
}

pub fn are_plain(bytes: &[u8]) -> bool
    ensures { result ≡ list_all is_plain_byte bytes.now }
{
    bytes.iter().all(|byte| is_plain_byte(*byte))
}

pub fn begins_with_stop(bytes: &[u8]) -> bool
    ensures { result ≡ begins_with_stop bytes.now }
{
    match bytes {
        [] => false,
        [first, ..] => *first == b'.',
    }
}

pub fn is_plain_word(bytes: &[u8]) -> bool
    ensures { result ≡ is_plain_word bytes.now }
{
    if bytes.is_empty() {
        return false;
    }
    if bytes.len() > MAX_WORD {
        return false;
    }
    if begins_with_stop(bytes) {
        return false;
    }
    are_plain(bytes)
}

/// How many bytes are before the first colon; all of them if there is none.
fn colon_place(bytes: &[u8]) -> usize
    ensures { result ≡ prefix_len (λ b. not (is_colon b)) bytes.now }
{
    bytes.iter().take_while(|byte| **byte != b':').count()
}

/// What is before and after the first colon. Without a colon, all bytes are before it.
pub fn split_at_colon(bytes: &[u8]) -> (&[u8], &[u8])
    ensures stem { result.0.now ≡ stem bytes.now }
    ensures value { result.1.now ≡ value bytes.now }
{
    let (stem, rest) = bytes.split_at(colon_place(bytes));
    match rest {
        [] => (stem, rest),
        [_, value @ ..] => (stem, value),
    }
}

pub fn has_colon(bytes: &[u8]) -> bool
    ensures { result ≡ list_any is_colon bytes.now }
{
    bytes.iter().any(|byte| *byte == b':')
}

pub fn has_stem(bytes: &[u8]) -> bool
    ensures { result ≡ has_stem bytes.now }
{
    if bytes.len() > MAX_WORD {
        return false;
    }
    if !has_colon(bytes) {
        return false;
    }
    let (stem, _) = split_at_colon(bytes);
    is_plain_word(stem)
}

/// Whether these are the bytes of a head: a plain word and a colon.
pub fn is_head(bytes: &[u8]) -> bool
    ensures { result ≡ is_head bytes.now }
{
    if !has_stem(bytes) {
        return false;
    }
    let (_, value) = split_at_colon(bytes);
    value.is_empty()
}

/// Whether these are the bytes of a valued word: a head, and then a value.
pub fn is_valued(bytes: &[u8]) -> bool
    ensures { result ≡ is_valued bytes.now }
{
    if !has_stem(bytes) {
        return false;
    }
    let (_, value) = split_at_colon(bytes);
    if value.is_empty() {
        return false;
    }
    are_plain(value)
}

/// Whether these are the bytes of a word that a formula may have: a plain word, a head or a valued word.
pub fn is_word(bytes: &[u8]) -> bool
    ensures { result ≡ is_word bytes.now }
{
    if is_plain_word(bytes) {
        return true;
    }
    if is_head(bytes) {
        return true;
    }
    is_valued(bytes)
}

fn is_stops(bytes: &[u8]) -> bool
    ensures { result ≡ is_stops bytes.now }
{
    if bytes == b".".as_slice() {
        return true;
    }
    bytes == b"..".as_slice()
}

pub fn is_file_name(bytes: &[u8]) -> bool
    ensures { result ≡ is_file_name bytes.now }
{
    if bytes.is_empty() {
        return false;
    }
    if bytes.len() > MAX_WORD {
        return false;
    }
    if is_stops(bytes) {
        return false;
    }
    are_plain(bytes)
}

fn are_digits(bytes: &[u8]) -> bool
    ensures { result ≡ list_all is_ascii_digit bytes.now }
{
    bytes.iter().all(|byte| byte.is_ascii_digit())
}

/// Whether the bytes are a count.
pub fn is_count(bytes: &[u8]) -> bool
    ensures { result ≡ is_count bytes.now }
{
    if bytes.is_empty() {
        return false;
    }
    if bytes.len() > MAX_DIGITS {
        return false;
    }
    are_digits(bytes)
}

fn digits_value(digits: &[u8]) -> u64
    requires short { length digits.now ≤ 12 }
    requires digits { IsTrue (list_all is_ascii_digit digits.now) }
    ensures value { result ≡ count_of digits.now }
    ensures below { result < 10 ^ 12 }
{
    let mut n = 0u64;
    for digit in digits {
        n = 10 * n + u64::from(*digit - b'0');
    }
    n
}

/// The number that a count spells, below 10^12. None if the bytes are no count.
pub fn read_count(bytes: &[u8]) -> Option<u64>
    ensures counts { IsSome result ↔ IsTrue (is_count bytes.now) }
    ensures number { IfSome result (λ n. n ≡ count_of bytes.now) }
    ensures below { IfSome result (λ n. n < 10 ^ 12) }
{
    if !is_count(bytes) {
        return None;
    }
    Some(digits_value(bytes))
}

fn begins_with_zero(digits: &[u8]) -> bool
    ensures { result ≡ begins_with_zero digits.now }
{
    match digits {
        [] => false,
        [first, ..] => *first == b'0',
    }
}

fn is_number(digits: &[u8]) -> bool
    ensures { result ≡ is_number digits.now }
{
    if !is_count(digits) {
        return false;
    }
    !begins_with_zero(digits) || digits.len() == 1
}

/// The number after a sign. None if the bytes are not the sign and then a number.
fn number_behind(sign: &[u8], bytes: &[u8]) -> Option<u64>
    ensures { result ≡ number_behind sign.now bytes.now }
{
    let (front, digits) = bytes.split_at(sign.len().min(bytes.len()));
    if front != sign {
        return None;
    }
    if !is_number(digits) {
        return None;
    }
    read_count(digits)
}

/// Which test the bytes are. None exactly if they are no test.
pub fn test_in(bytes: &[u8]) -> Option<Test>
    ensures { result ≡ test_of bytes.now }
{
    if let Some(number) = number_behind(b"size>=".as_slice(), bytes) {
        return Some(Test {
            at_least: true,
            bytes: number,
        });
    }
    match number_behind(b"size<".as_slice(), bytes) {
        Some(number) => Some(Test {
            at_least: false,
            bytes: number,
        }),
        None => None,
    }
}

pub fn is_property(bytes: &[u8]) -> bool
    ensures { result ≡ is_property bytes.now }
{
    if is_word(bytes) {
        return true;
    }
    test_in(bytes).is_some()
}
