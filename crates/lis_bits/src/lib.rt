//! Rows of bits: truth values by row and bit, joined a word at a time.
#![tactic(auto)]

mod across;
mod flags;
mod rows;
mod words;

pub use across::{and_row, copy_row, within};
pub use flags::Flags;
pub use rows::Rows;
