//! Where input comes from.

ghost use Rattle.std.specs.Prelude.{◌≡◌, ◌-◌, ◌<◌, ◌≤◌, ◌↔◌, ℕ, List, Option, length, drop, min, IsErr, IfOk, Some};
ghost use Rattle.lis_ports.specs.Sources.{IsTake};

use crate::Failed;
use std::io::Read;

/// A stream of bytes that is taken in pieces.
pub trait Source {
    /// The bytes left. None if the source does not report them.
    ghost left: { Self → Option (List ℕ) };

    /// How many calls failed. The count stays at its largest value, 2^64 - 1.
    ghost faults: { Self → ℕ };

    /// How many calls had failed when the last one began.
    ghost behind: { Self → ℕ };

    /// Takes the next bytes, at most as many as the buffer has, and returns how many.
    fn take(&mut self, buf: &mut [u8]) -> Result<usize, Failed>
        ensures { IsTake (left self.old) (left self.new) (faults self.old) (faults self.new) (behind self.new) buf.new result };
}

/// A source over bytes in memory, for tests: it gives at most `step` bytes a call, and fails the calls at whose
/// start `place` is `fail_at`.
#[derive(Drop)]
pub struct MemSource {
    pub bytes: Vec<u8>,
    pub place: usize,
    pub step: usize,
    pub fail_at: Option<usize>,
    pub faults: u64,
    /// How many calls had failed when the last one began.
    pub behind: u64,
    pub ghost takes_some: { 0 < step },
    pub ghost inside: { place ≤ length bytes.items },
}

impl Source for MemSource {
    ghost left = { λ s. Some (drop s.place s.bytes.items) };

    ghost faults = { λ s. s.faults };

    ghost behind = { λ s. s.behind };

    fn take(&mut self, buf: &mut [u8]) -> Result<usize, Failed>
        ensures take { IsTake (Some (drop self.old.place self.old.bytes.items)) (Some (drop self.new.place self.new.bytes.items)) self.old.faults self.new.faults self.new.behind buf.new result }
        ensures fails { IsErr result ↔ (self.old.fail_at ≡ Some self.old.place) }
        ensures gives { IfOk result (λ n. n ≡ min self.old.step (min (length buf.old) (length self.old.bytes.items - self.old.place))) }
        ensures stays { (self.new.bytes.items ≡ self.old.bytes.items) × (self.new.step ≡ self.old.step) × (self.new.fail_at ≡ self.old.fail_at) }
    {
        self.behind = self.faults;
        if self.fail_at == Some(self.place) {
            self.faults = self.faults.saturating_add(1);
            return Err(Failed);
        }
        let left = &self.bytes[self.place..];
        let count = self.step.min(buf.len().min(left.len()));
        buf[..count].copy_from_slice(&left[..count]);
        self.place += count;
        Ok(count)
    }
}

/// A source over a reader, such as standard input. The bytes left are those that the reader reports; standard input does not report them.
#[derive(Drop)]
pub struct StdSource<R: Read> {
    pub reader: R,
    pub faults: u64,
    /// How many calls had failed when the last one began.
    pub behind: u64,
}

impl<R: Read> Source for StdSource<R> {
    ghost left = { λ s. R.remaining s.reader };

    ghost faults = { λ s. s.faults };

    ghost behind = { λ s. s.behind };

    fn take(&mut self, buf: &mut [u8]) -> Result<usize, Failed> {
        self.behind = self.faults;
        match self.reader.read(buf) {
            Ok(count) => Ok(count),
            Err(_) => {
                self.faults = self.faults.saturating_add(1);
                Err(Failed)
            }
        }
    }
}
