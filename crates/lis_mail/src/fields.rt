//! The fields of a mail's header, and their kinds.

ghost use Rattle.std.specs.Prelude.{◌≡◌, ◌<◌, List, [], if◌then◌else◌};
ghost use Rattle.std.specs.List.{list_all, after_first};
ghost use Rattle.lis_transducers.specs.Lines.{is_name_byte, is_field_name};
ghost use Rattle.lis_transducers.specs.Mail.{small_kind, kind_of, begun_kind};
ghost use Rattle.lis_words.specs.Bytes.{is_colon};

use crate::words::with_head;
use lis_transducers::field::FieldKind;
use memchr::memchr;

fn is_name_byte(byte: u8) -> bool
    ensures { result ≡ is_name_byte byte }
{
    byte >= 33 && byte <= 126 && byte != b':'
}

fn are_name_bytes(name: &[u8]) -> bool
    ensures { result ≡ list_all is_name_byte name.now }
{
    name.iter().all(|byte| is_name_byte(*byte))
}

fn is_field_name(name: &[u8]) -> bool
    ensures { result ≡ is_field_name name.now }
{
    if name.is_empty() {
        return false;
    }
    are_name_bytes(name)
}

fn small_kind(name: &[u8]) -> FieldKind
    ensures { result ≡ small_kind name.now }
{
    if name == b"from".as_slice() {
        return FieldKind::From;
    }
    if name == b"to".as_slice() {
        return FieldKind::To;
    }
    if name == b"subject".as_slice() {
        return FieldKind::Subject;
    }
    FieldKind::Other
}

fn kind_of(name: &[u8]) -> FieldKind
    ensures { result ≡ (if is_field_name name.now then kind_of name.now else FieldKind.Other) }
{
    if !is_field_name(name) {
        return FieldKind::Other;
    }
    match with_head(&[], name) {
        None => FieldKind::Other,
        Some(small) => small_kind(small.as_slice()),
    }
}

/// What kind of field a line begins, and what follows its colon.
pub fn begun_field(line: &[u8]) -> (FieldKind, &[u8])
    ensures kind { result.0 ≡ begun_kind line.now }
    ensures body { result.1.now ≡ after_first is_colon line.now }
{
    match memchr(b':', line) {
        None => (FieldKind::Other, &[]),
        Some(colon) => {
            let (name, _) = line.split_at(colon);
            let (_, body) = line.split_at(colon + 1);
            (kind_of(name), body)
        }
    }
}
