//! Arrays of byte slots in the blocks of a journal.
#![tactic(auto)]

mod slots;

pub use slots::Slots;
