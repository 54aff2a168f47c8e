//! The lines of a content, one after another.

ghost use Rattle.std.specs.Prelude.{◌≡◌, ◌+◌, ◌<◌, ◌≤◌, true, [], ◌∷◌, ◌++◌, length, MatchOption, IfSome};
ghost use Rattle.lis_views.specs.Lines.{lines_of, joined_lines};
ghost use Rattle.lis_cuts.specs.Cuts.{IsFirst, IsTrimmed};

use memchr::{memchr, memrchr};

/// The first line, and the bytes after it. The result is `None` exactly if there are no bytes.
pub fn first_line(bytes: &[u8]) -> Option<(&[u8], &[u8])>
    ensures texts { MatchOption result ((lines_of bytes.now).texts ≡ [])
        (λ found. (lines_of bytes.now).texts ≡ found.0.now ∷ (lines_of found.1.now).texts) }
    ensures first { MatchOption result (bytes.now ≡ []) (λ found. IsFirst bytes.now found.0.now found.1.now) }
    ensures shorter { IfSome result (λ found. length found.0.now + length found.1.now ≤ length bytes.now × length found.1.now < length bytes.now) }
{
    if bytes.is_empty() {
        return None;
    }
    match memchr(b'\n', bytes) {
        None => Some((bytes, &[])),
        Some(end) => {
            let (text, _) = bytes.split_at(end);
            let (_, rest) = bytes.split_at(end + 1);
            Some((text, rest))
        }
    }
}

/// The bytes without the line feed at their end, if there is one: their texts, with a line feed between two of them.
pub fn without_feed(bytes: &[u8]) -> &[u8]
    ensures trimmed { IsTrimmed bytes.now result.now }
    ensures joined { result.now ≡ joined_lines true (lines_of bytes.now).texts }
    ensures within { length result.now ≤ length bytes.now }
{
    match bytes {
        [] => bytes,
        [front @ .., last] => {
            if *last == b'\n' {
                return front;
            }
            bytes
        }
    }
}

/// Whether the last line has no line feed.
pub fn is_open(bytes: &[u8]) -> bool
    ensures { result ≡ (lines_of bytes.now).is_open }
{
    match bytes {
        [] => false,
        [.., last] => *last != b'\n',
    }
}

/// The last line, and the bytes of the lines before it. The result is `None` exactly if there are no bytes.
pub fn last_line(bytes: &[u8]) -> Option<(&[u8], &[u8])>
    ensures texts { MatchOption result ((lines_of bytes.now).texts ≡ [])
        (λ found. (lines_of bytes.now).texts ≡ (lines_of found.0.now).texts ++ found.1.now ∷ []) }
    ensures within { IfSome result (λ found. length found.0.now ≤ length bytes.now) }
{
    if bytes.is_empty() {
        return None;
    }
    let trimmed = without_feed(bytes);
    match memrchr(b'\n', trimmed) {
        None => Some((&[], trimmed)),
        Some(end) => Some(trimmed.split_at(end + 1)),
    }
}
