//! The words of an image and their numbers.
#![tactic(auto)]

mod dict;
mod unsorted;

pub use dict::{Dict, NoPropertyRoom};
pub use unsorted::Unsorted;
