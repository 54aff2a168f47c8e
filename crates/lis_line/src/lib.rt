//! Items of an input, in whatever pieces it comes.
#![tactic(auto)]

mod ahead;
mod asked;
pub mod carrier;
mod forms;
pub mod holder;
pub mod input;
mod line;
pub mod payload;
pub mod reader;
pub mod room;
pub mod segment;
pub mod stock;
pub mod tagged;
pub mod taken;
