//! The session as a source.

ghost use Rattle.std.specs.Prelude.{◌≡◌, ℕ, ◌+◌, ◌-◌, ◌≤◌, List, ◌++◌, Some, length, take, drop, min};
ghost use Rattle.lis_grow.specs.Coming.{coming};

use crate::phase::{Phase, Step, some_step};
use crate::piece::Piece;
use lis_ports::{Failed, Source};
use std::marker::Model;

/// Gives bytes of the current piece, from an offset on, and returns how many.
fn give(piece: &Piece, place: usize, buf: &mut [u8]) -> usize
    requires { place ≤ length piece.now }
    ensures count { result ≡ min (length buf.old) (length piece.now - place) }
    ensures bytes { drop place piece.now ≡ take result buf.new ++ drop (place + result) piece.now }
    ensures same { length buf.new ≡ length buf.old }
{
    let left = &piece.bytes()[place..];
    let count = buf.len().min(left.len());
    buf[..count].copy_from_slice(&left[..count]);
    count
}

/// A source of the session that is made from a number. No call of it fails, and none allocates memory.
#[derive(Drop)]
pub struct GrowSource {
    step: Step,
    place: usize,
}

impl Model for GrowSource {
    ghost use Rattle.std.specs.Prelude.{ℕ, List, ◌++◌, ◌≤◌, length, drop};
    ghost use Rattle.lis_grow.specs.Coming.{coming};

    ghost Value = { List ℕ };

    ghost view = { λ s. drop s.place s.step.piece ++ coming s.step.x s.step.phase };

    ghost invariant = { λ s. s.place ≤ length s.step.piece };
}

impl GrowSource {
    ghost use Rattle.lis_grow.specs.Grow.{grow_bytes};

    /// All bytes of the session of this number.
    pub fn new(n: u32) -> GrowSource
        ensures { result ≡ grow_bytes n }
    {
        GrowSource {
            step: Step {
                piece: Piece::new(),
                phase: Phase::Groups(0),
                x: n,
            },
            place: 0,
        }
    }
}

impl Source for GrowSource {
    ghost left = { λ s. Some s };

    ghost faults = { λ s. 0 };

    ghost behind = { λ s. 0 };

    fn take(&mut self, buf: &mut [u8]) -> Result<usize, Failed> {
        if self.place == self.step.piece.bytes().len() {
            self.step = some_step(self.step.phase, self.step.x);
            self.place = give(&self.step.piece, 0, buf);
            return Ok(self.place);
        }
        let count = give(&self.step.piece, self.place, buf);
        self.place += count;
        Ok(count)
    }
}
