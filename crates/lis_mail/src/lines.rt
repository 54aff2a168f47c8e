//! The lines of a mail's header.

ghost use Rattle.std.specs.Prelude.{◌≡◌, ◌<◌, ◌≤◌, [], ◌∷◌, length, if◌then◌else◌};
ghost use Rattle.lis_transducers.specs.Lines.{header, is_folded};
ghost use Rattle.lis_words.specs.Bytes.{is_some_bytes, without_return};

use memchr::memchr;

fn without_return(line: &[u8]) -> &[u8]
    ensures value { result.now ≡ without_return line.now }
    ensures short { length result.now ≤ length line.now }
{
    if line.is_empty() {
        return line;
    }
    let end = line.len() - 1;
    if line[end] != b'\r' {
        return line;
    }
    let (text, _) = line.split_at(end);
    text
}

/// The first line of the bytes, without its end, and what follows it.
pub fn first_line(bytes: &[u8]) -> (&[u8], &[u8])
    ensures header { header bytes.now
        ≡ (if is_some_bytes result.0.now then result.0.now ∷ header result.1.now else []) }
    ensures shorter { 0 < length result.0.now → length result.1.now < length bytes.now }
{
    match memchr(b'\n', bytes) {
        None => (without_return(bytes), &[]),
        Some(end) => {
            let (line, _) = bytes.split_at(end);
            let (_, rest) = bytes.split_at(end + 1);
            (without_return(line), rest)
        }
    }
}

/// Whether the line continues the field before it.
pub fn is_folded(line: &[u8]) -> bool
    ensures { result ≡ is_folded line.now }
{
    match line {
        [] => false,
        [first, ..] => *first == b' ' || *first == b'\t',
    }
}
