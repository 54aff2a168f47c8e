//! Runs of bytes of one kind.

ghost use Rattle.std.specs.Prelude.{◌≡◌, ◌<◌, ◌≤◌, ◌++◌, length, MatchOption};
ghost use Rattle.lis_transducers.specs.Bytes.{is_name_byte, is_number_byte, past};
ghost use Rattle.lis_transducers.specs.Joined.{joined};

use crate::joined::next_byte;
use arrayvec::ArrayVec;
use lis_limits::MAX_WORD;

/// A kind of bytes that make a run.
#[derive(Clone, Copy, Debug, PartialEq, Eq)]
pub enum Run {
    /// Letters, digits and `_`.
    Name,
    /// Letters, digits, `_` and full stops.
    Number,
    /// All bytes except a line feed.
    Line,
    /// All bytes except a line feed and the byte that closes a path.
    Path(u8),
}

pub fn is_name_byte(byte: u8) -> bool
    ensures { result ≡ is_name_byte byte }
{
    byte.is_ascii_alphanumeric() || byte == b'_'
}

fn is_number_byte(byte: u8) -> bool
    ensures { result ≡ is_number_byte byte }
{
    is_name_byte(byte) || byte == b'.'
}

impl Run {
    ghost use Rattle.lis_csource.specs.Runs.{is_in, run_text, past_run};

    fn has(self, byte: u8) -> bool
        ensures { result ≡ is_in self byte }
    {
        match self {
            Run::Name => is_name_byte(byte),
            Run::Number => is_number_byte(byte),
            Run::Line => byte != b'\n',
            Run::Path(close) => byte != b'\n' && byte != close,
        }
    }

    /// What follows the run.
    pub fn past(self, bytes: &[u8]) -> &[u8]
        ensures rest { joined result.now ≡ past_run self bytes.now }
        ensures within { length result.now ≤ length bytes.now }
    {
        let mut rest = bytes;
        while let Some((byte, behind)) = next_byte(rest) {
            if !self.has(byte) {
                return rest;
            }
            rest = behind;
        }
        rest
    }

    /// The head and the run's bytes. None exactly if they are more than 60 bytes.
    pub fn text(self, head: &[u8], bytes: &[u8]) -> Option<ArrayVec<u8, 60>>
        ensures { MatchOption result (MAX_WORD < length (head.now ++ run_text self bytes.now))
            (λ text. text.items ≡ head.now ++ run_text self bytes.now) }
    {
        let mut text = ArrayVec::new();
        text.try_extend_from_slice(head).ok()?;
        let mut rest = bytes;
        while let Some((byte, behind)) = next_byte(rest) {
            if !self.has(byte) {
                return Some(text);
            }
            text.try_push(byte).ok()?;
            rest = behind;
        }
        Some(text)
    }
}
