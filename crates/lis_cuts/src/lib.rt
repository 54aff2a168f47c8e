//! Parts of a file over bytes in memory: its lines, of which lines a formula holds, its view, and what an edited view makes of it.
#![tactic(auto)]

pub mod back;
pub mod forms;
pub mod lines;
pub mod stretches;
mod truth;
