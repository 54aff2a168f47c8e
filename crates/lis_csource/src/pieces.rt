//! The pieces of a source, in sequence.

ghost use Rattle.std.specs.Prelude.{◌≡◌, ◌<◌, ◌≤◌, [], ◌∷◌, length, true, false, MatchOption, IfSome};
ghost use Rattle.lis_transducers.specs.Bytes.{is_white, is_name_start, past, but_first};
ghost use Rattle.lis_transducers.specs.Joined.{joined};
ghost use Rattle.lis_transducers.specs.Pieces.{IsFirst, read, piece_of, pieces, after_block, after_literal, is_in_path, has_close, close_of, slash_piece, quote_piece, is_open, open_piece, first_piece, context_after};
ghost use Rattle.lis_words.specs.Bytes.{is_blank};

use crate::joined::next_byte;
use crate::runs::Run;
use crate::words::is_include;
use lis_transducers::piece::{Context, Kind};

/// A piece, the place where its text begins, and what follows it.
#[derive(Clone, Copy)]
pub struct Found<'a> {
    pub kind: Kind,
    pub text: &'a [u8],
    pub rest: &'a [u8],
}

fn is_blank(byte: u8) -> bool
    ensures { result ≡ is_blank byte }
{
    byte == b' ' || byte == b'\t'
}

fn is_white(byte: u8) -> bool
    ensures { result ≡ is_white byte }
{
    byte == 11 || byte == 12 || byte == b'\r'
}

fn is_name_start(byte: u8) -> bool
    ensures { result ≡ is_name_start byte }
{
    byte.is_ascii_alphabetic() || byte == b'_'
}

fn past_block(bytes: &[u8]) -> &[u8]
    ensures rest { joined result.now ≡ after_block (joined bytes.now) }
    ensures within { length result.now ≤ length bytes.now }
{
    let mut rest = bytes;
    while let Some((byte, behind)) = next_byte(rest) {
        if byte == b'*' {
            if let Some((b'/', end)) = next_byte(behind) {
                return end;
            }
        }
        rest = behind;
    }
    rest
}

fn past_literal(close: u8, bytes: &[u8]) -> &[u8]
    ensures rest { joined result.now ≡ after_literal close false (joined bytes.now) }
    ensures within { length result.now ≤ length bytes.now }
{
    let mut rest = bytes;
    let mut escaped = false;
    while let Some((byte, behind)) = next_byte(rest) {
        if byte == b'\n' {
            return rest;
        }
        if byte == close && !escaped {
            return behind;
        }
        escaped = byte == b'\\' && !escaped;
        rest = behind;
    }
    rest
}

/// What follows a path. None exactly if its closing byte does not come before the next line feed.
fn past_path(close: u8, bytes: &[u8]) -> Option<&[u8]>
    ensures rest { MatchOption result (has_close close (joined bytes.now) ≡ false)
        (λ behind. (has_close close (joined bytes.now) ≡ true) × (joined behind.now ≡ but_first (past (is_in_path close) (joined bytes.now)))) }
    ensures within { IfSome result (λ behind. length behind.now ≤ length bytes.now) }
{
    let rest = Run::Path(close).past(bytes);
    let (byte, behind) = next_byte(rest)?;
    if byte == close { Some(behind) } else { None }
}

fn slash_piece<'a>(start: &'a [u8], bytes: &'a [u8]) -> Found<'a>
    ensures read { read result.kind (joined result.text.now) (joined result.rest.now) ≡ slash_piece (joined bytes.now) }
    ensures within { length result.rest.now ≤ length bytes.now }
{
    match next_byte(bytes) {
        Some((b'*', behind)) => Found {
            kind: Kind::Comment,
            text: start,
            rest: past_block(behind),
        },
        Some((b'/', behind)) => Found {
            kind: Kind::Comment,
            text: start,
            rest: Run::Line.past(behind),
        },
        _ => Found {
            kind: Kind::Mark(b'/'),
            text: start,
            rest: bytes,
        },
    }
}

fn quote_piece<'a>(first: u8, start: &'a [u8], bytes: &'a [u8]) -> Found<'a>
    ensures read { read result.kind (joined result.text.now) (joined result.rest.now) ≡ quote_piece first (joined bytes.now) }
    ensures within { length result.rest.now ≤ length bytes.now }
{
    if first == b'<' {
        return Found {
            kind: Kind::Mark(first),
            text: start,
            rest: bytes,
        };
    }
    Found {
        kind: Kind::Literal,
        text: start,
        rest: past_literal(first, bytes),
    }
}

fn close_of(first: u8) -> u8
    ensures { result ≡ close_of first }
{
    if first == b'<' { b'>' } else { first }
}

fn open_piece<'a>(context: Context, first: u8, start: &'a [u8], bytes: &'a [u8]) -> Found<'a>
    requires { is_open first ≡ true }
    ensures read { read result.kind (joined result.text.now) (joined result.rest.now) ≡ open_piece context first (joined bytes.now) }
    ensures within { length result.rest.now ≤ length bytes.now }
{
    if context != Context::Include || first == b'\'' {
        return quote_piece(first, start, bytes);
    }
    let close = close_of(first);
    match past_path(close, bytes) {
        None => quote_piece(first, start, bytes),
        Some(rest) => Found {
            kind: Kind::Path(close),
            text: bytes,
            rest,
        },
    }
}

fn begun_piece<'a>(context: Context, first: u8, start: &'a [u8], bytes: &'a [u8]) -> Found<'a>
    requires { joined start.now ≡ first ∷ joined bytes.now }
    ensures read { read result.kind (joined result.text.now) (joined result.rest.now) ≡ first_piece context first (joined bytes.now) }
    ensures within { length result.rest.now ≤ length bytes.now }
{
    if is_blank(first) {
        return Found {
            kind: Kind::Blank,
            text: start,
            rest: bytes,
        };
    }
    if first == b'\n' {
        return Found {
            kind: Kind::Feed,
            text: start,
            rest: bytes,
        };
    }
    if is_white(first) {
        return Found {
            kind: Kind::White,
            text: start,
            rest: bytes,
        };
    }
    if is_name_start(first) {
        return Found {
            kind: Kind::Identifier,
            text: start,
            rest: Run::Name.past(bytes),
        };
    }
    if first.is_ascii_digit() {
        return Found {
            kind: Kind::Number,
            text: start,
            rest: Run::Number.past(bytes),
        };
    }
    if first == b'/' {
        return slash_piece(start, bytes);
    }
    if first == b'"' || first == b'\'' || first == b'<' {
        return open_piece(context, first, start, bytes);
    }
    Found {
        kind: Kind::Mark(first),
        text: start,
        rest: bytes,
    }
}

/// The first piece of the bytes, which is in this context. None exactly at the end.
pub fn first_piece(context: Context, bytes: &[u8]) -> Option<Found<'_>>
    ensures piece { MatchOption result (pieces context (joined bytes.now) ≡ [])
        (λ found. IsFirst context (joined bytes.now) (piece_of found.kind (joined found.text.now)) (joined found.rest.now)) }
    ensures shorter { IfSome result (λ found. length found.rest.now < length bytes.now) }
{
    match next_byte(bytes) {
        None => None,
        Some((first, behind)) => Some(begun_piece(context, first, bytes, behind)),
    }
}

/// The context of the piece after this one.
pub fn context_after(context: Context, kind: Kind, text: &[u8]) -> Context
    ensures { result ≡ context_after context (piece_of kind (joined text.now)) }
{
    match (context, kind) {
        (_, Kind::Feed) | (Context::LineStart, Kind::White) => Context::LineStart,
        (_, Kind::Blank | Kind::Comment) => context,
        (Context::LineStart, Kind::Mark(b'#')) => Context::Hash,
        (Context::LineStart | Context::Code, _) => Context::Code,
        (Context::Hash, Kind::Identifier) if is_include(text) => Context::Include,
        _ => Context::Directive,
    }
}
