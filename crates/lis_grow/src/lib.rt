//! A large session made from a number: as a source of its bytes, and run, with a summary.
#![tactic(auto)]

mod lines;
mod phase;
mod piece;
pub mod session;
mod source;
pub mod summary;
mod summing;

pub use source::GrowSource;
