//! Which files are at a place, from rows of bits.
#![tactic(auto)]

mod evaluation;
mod scratch;
mod sizes;
mod view;

pub use evaluation::{evaluate, found};
pub use scratch::Scratch;
pub use view::View;
