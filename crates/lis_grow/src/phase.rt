//! The phases of the session, one after another.

ghost use Rattle.std.specs.Prelude.{◌≡◌, ◌<◌, ◌≢◌, ◌++◌, length};
ghost use Rattle.lis_grow.specs.Grow.{drawn};
ghost use Rattle.lis_grow.specs.Coming.{coming, steps_left};
ghost use Rattle.lis_grow.specs.declared.phase.Phase.TheVariants.{Nothing};

use crate::lines::{axiom_line, file_lines, last_lines, mkdir_line, rm_lines, year_line};
use crate::piece::Piece;

/// Where a session is: at the line or file of a number, of some kind.
#[derive(Clone, Copy, PartialEq, Eq)]
pub enum Phase {
    /// The words that are declared.
    Groups(u32),
    /// The axioms.
    Axioms(u32),
    /// The files that are made.
    Files(u32),
    /// The files that are removed.
    Removals(u32),
    /// The end.
    Nothing,
}

/// Some bytes, the phase that follows them, and the value of the generator there.
#[derive(Drop)]
pub struct Step {
    pub piece: Piece,
    pub phase: Phase,
    pub x: u32,
}

fn drawn(x: u32) -> u32
    ensures { result ≡ drawn x }
{
    ((1_103_515_245 * u64::from(x) + 12_345) % 2_147_483_648) as u32
}

/// The next bytes of the session; there may be none at a number.
pub fn next_step(phase: Phase, x: u32) -> Step
    ensures bytes { coming x phase ≡ result.piece ++ coming result.x result.phase }
    ensures fewer { phase ≢ Nothing → steps_left result.phase < steps_left phase }
{
    match phase {
        Phase::Groups(i) if i < 16 => Step {
            piece: mkdir_line(i),
            phase: Phase::Groups(i + 1),
            x,
        },
        Phase::Groups(_) => Step {
            piece: year_line(),
            phase: Phase::Axioms(1),
            x,
        },
        Phase::Axioms(i) if i < 16 => Step {
            piece: axiom_line(i),
            phase: Phase::Axioms(i + 1),
            x,
        },
        Phase::Axioms(_) => Step {
            piece: Piece::new(),
            phase: Phase::Files(0),
            x,
        },
        Phase::Files(i) if i < 1_000 => {
            let x = drawn(x);
            Step {
                piece: file_lines(i, x / 65_536),
                phase: Phase::Files(i + 1),
                x,
            }
        }
        Phase::Files(_) => Step {
            piece: Piece::new(),
            phase: Phase::Removals(0),
            x,
        },
        Phase::Removals(i) if i < 1_000 => Step {
            piece: rm_lines(i),
            phase: Phase::Removals(i + 1),
            x,
        },
        Phase::Removals(_) => Step {
            piece: last_lines(),
            phase: Phase::Nothing,
            x,
        },
        Phase::Nothing => Step {
            piece: Piece::new(),
            phase,
            x,
        },
    }
}

/// The next bytes of the session: some, or none at its end.
pub fn some_step(phase: Phase, x: u32) -> Step
    ensures bytes { coming x phase ≡ result.piece ++ coming result.x result.phase }
    ensures some { length result.piece ≡ 0 → result.phase ≡ Nothing }
{
    let mut next = next_step(phase, x);
    loop {
        if !next.piece.bytes().is_empty() {
            return next;
        }
        if next.phase == Phase::Nothing {
            return next;
        }
        next = next_step(next.phase, next.x);
    }
}
