//! The words that a file has by its name and its bytes.
#![tactic(auto)]

mod content;
mod derive;
mod fronts;
pub mod laws;
mod size;
mod suffix;

pub use derive::derive_words;
pub use fronts::gives_all;
