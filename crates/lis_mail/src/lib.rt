//! The words that a mail gives: who sent it, to whom, and what it is about.
#![tactic(auto)]

mod ending;
mod fields;
pub mod laws;
mod lines;
mod mail;
mod tokens;
mod words;

pub use ending::has_end_from;
pub use mail::mail_props;
