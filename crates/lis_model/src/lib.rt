//! The definitions that every contract above cites, and the plain types of limits, commands and refusals.
#![tactic(auto)]

pub mod command;
pub mod derived;
pub mod limits;
pub mod met;
pub mod refusal;
pub mod spot;

pub use lis_place::{Node, Path, Place, Text};
