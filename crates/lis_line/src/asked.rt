//! What a line requests, and how many bytes must follow it.

ghost use Rattle.std.specs.Prelude.{◌≡◌, ◌≤◌, ◌∷◌, length, ◌||◌, false, Some, IsTrue, codes};
ghost use Rattle.lis_words.specs.Words.{same_word};
ghost use Rattle.lis_model.specs.Step.{Payload};
ghost use Rattle.lis_model.specs.Script.{words_of, form_of, item_of, size_of_words, payload_size};
ghost use Rattle.lis_line.specs.Forms.{asked_of, line_asks};

use crate::forms::{
    add_form, axiom_form, cat_form, cd_form, counted, create_form, ls_form, mkdir_form, mv_form,
    props_form, pwd_form, rename_form, rm_form, rmdir_form, stat_form, unaxiom_form, way_form,
    write_form,
};
use crate::line::{is_long, next_word, without_return};
use lis_limits::MAX_LINE;
use lis_model::command::Command;
use lis_model::refusal::Refusal;

/// What a line requests, without the payload that follows it.
pub type Request = Result<Command, Refusal>;

/// What a line requests, and how many bytes must follow it.
#[derive(Drop)]
pub struct ParsedLine {
    /// `None` for a line without words.
    pub request: Option<Request>,
    /// How many bytes must follow the line and its line feed; `None` if no payload follows.
    pub size: Option<u64>,
}

/// Whether the first word is this one. It is a separate function, since otherwise a check sees the literal in each later step.
fn is_word(first: &[u8], word: &[u8]) -> bool
    ensures { result ≡ same_word first.now word.now }
{
    first == word
}

/// What a line without a payload requests, by its first word and the text after it.
fn command_of(first: &[u8], rest: &[u8]) -> Request
    requires few { length rest.now ≤ MAX_LINE }
    requires alone { (same_word first.now (codes "add") || same_word first.now (codes "write")) ≡ false }
    ensures { (payload : Payload) → asked_of payload result ≡ form_of first.now (words_of rest.now) payload }
{
    if is_word(first, b"mkdir") {
        return mkdir_form(rest);
    }
    if is_word(first, b"rmdir") {
        return rmdir_form(rest);
    }
    if is_word(first, b"axiom") {
        return axiom_form(rest);
    }
    if is_word(first, b"unaxiom") {
        return unaxiom_form(rest);
    }
    if is_word(first, b"create") {
        return create_form(rest);
    }
    if is_word(first, b"cat") {
        return cat_form(rest);
    }
    if is_word(first, b"mv") {
        return mv_form(rest);
    }
    if is_word(first, b"rename") {
        return rename_form(rest);
    }
    if is_word(first, b"rm") {
        return rm_form(rest);
    }
    if is_word(first, b"cd") {
        return cd_form(rest);
    }
    if is_word(first, b"pwd") {
        return pwd_form(rest);
    }
    if is_word(first, b"ls") {
        return ls_form(rest);
    }
    if is_word(first, b"props") {
        return props_form(rest);
    }
    if is_word(first, b"way") {
        return way_form(rest);
    }
    if is_word(first, b"stat") {
        return stat_form(rest);
    }
    Err(Refusal::BadLine)
}

fn takes_payload(first: &[u8]) -> bool
    ensures { result ≡ (same_word first.now (codes "add") || same_word first.now (codes "write")) }
{
    if is_word(first, b"add") {
        return true;
    }
    is_word(first, b"write")
}

/// What `add` or `write` requests, by the text after it.
fn sized_of(first: &[u8], rest: &[u8]) -> ParsedLine
    requires { IsTrue (same_word first.now (codes "add") || same_word first.now (codes "write")) }
    ensures asks { (payload : Payload) → line_asks payload result.request ≡ Some (form_of first.now (words_of rest.now) payload) }
    ensures size { result.size ≡ size_of_words (first.now ∷ words_of rest.now) }
{
    let Some((name, size, rest)) = counted(rest) else {
        return ParsedLine {
            request: Some(Err(Refusal::BadLine)),
            size: None,
        };
    };
    let request = if is_word(first, b"add") {
        add_form(name, rest)
    } else {
        write_form(name, rest)
    };
    ParsedLine {
        request: Some(request),
        size: Some(size),
    }
}

/// What a line requests, given the bytes before its line feed.
pub fn asked(line: &[u8]) -> ParsedLine
    ensures asks { (payload : Payload) → line_asks payload result.request ≡ item_of line.now payload }
    ensures size { result.size ≡ payload_size line.now }
{
    if is_long(line) {
        return ParsedLine {
            request: Some(Err(Refusal::LongLine)),
            size: None,
        };
    }
    let Some((first, rest)) = next_word(without_return(line)) else {
        return ParsedLine {
            request: None,
            size: None,
        };
    };
    if takes_payload(first) {
        return sized_of(first, rest);
    }
    ParsedLine {
        request: Some(command_of(first, rest)),
        size: None,
    }
}

/// How many bytes must follow a line and its line feed, for callers that need nothing else of the line.
pub fn payload_size(line: &[u8]) -> Option<u64>
    ensures { result ≡ payload_size line.now }
{
    let (first, rest) = next_word(without_return(line))?;
    if is_long(line) || !takes_payload(first) {
        return None;
    }
    let (_, size, _) = counted(rest)?;
    Some(size)
}
