//! Whether an item is complete in bytes that were taken already.

ghost use Rattle.std.specs.Prelude.{◌≡◌, ℕ, ◌∷◌, ◌++◌, List, [], not, false, None, Some, IsTrue, MatchOption, ◌↔◌};
ghost use Rattle.std.specs.List.{list_any, prefix_len};
ghost use Rattle.lis_model.specs.Step.{no_payload};
ghost use Rattle.lis_model.specs.Script.{item_of, first_with, session_cut};
ghost use Rattle.lis_line.specs.Reading.{LiesWhole};
ghost use Rattle.lis_words.specs.Bytes.{is_feed};

use crate::asked::payload_size;
use crate::line::{is_long, no_words, without_return};
use crate::stock::is_feed;
use lis_ports::{Failed, Source};

/// A source without bytes, for reading what was taken already.
#[derive(Drop)]
pub struct Nothing;

impl Source for Nothing {
    ghost left = { λ _. Some [] };

    ghost faults = { λ _. 0 };

    ghost behind = { λ _. 0 };

    fn take(&mut self, _buf: &mut [u8]) -> Result<usize, Failed> {
        Ok(0)
    }
}

/// How many bytes are before the first line feed.
fn line_len(bytes: &[u8]) -> usize
    ensures { result ≡ prefix_len (λ b. not (is_feed b)) bytes.now }
{
    bytes.iter().take_while(|byte| !is_feed(**byte)).count()
}

/// The first line, and the bytes after its line feed; `None` if there is no line feed.
fn first_line(bytes: &[u8]) -> Option<(&[u8], &[u8])>
    ensures { MatchOption result (list_any is_feed bytes.now ≡ false)
        (λ found. (bytes.now ≡ found.0.now ++ 10 ∷ found.1.now) × (list_any is_feed found.0.now ≡ false)) }
{
    let count = line_len(bytes);
    if count == bytes.len() {
        return None;
    }
    let (line, rest) = bytes.split_at(count);
    Some((line, &rest[1..]))
}

/// Whether a line requests nothing.
fn is_empty(line: &[u8]) -> bool
    ensures { IsTrue result ↔ (item_of line.now no_payload ≡ None) }
{
    !is_long(line) && no_words(without_return(line))
}

/// Whether the bytes after a line have a complete payload of this many bytes, and what ends it.
fn has_payload(bytes: &[u8], size: u64) -> bool
    ensures { (line : List ℕ) → result ≡ (first_with line size bytes.now).is_whole }
{
    if (bytes.len() as u64) < size {
        return false;
    }
    first_line(&bytes[size as usize..]).is_some()
}

/// Whether some item of a session is complete in these bytes, whatever follows. Lines that request nothing are skipped.
pub fn lies_whole(bytes: &[u8]) -> bool
    ensures whole { IsTrue result → LiesWhole session_cut bytes.now }
    ensures none { result ≡ false → session_cut.whole bytes.now ≡ [] }
{
    let mut rest = bytes;
    while let Some((line, behind)) = first_line(rest) {
        if let Some(size) = payload_size(line) {
            return has_payload(behind, size);
        }
        if !is_empty(line) {
            return true;
        }
        rest = behind;
    }
    false
}
