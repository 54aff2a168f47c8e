//! A taxonomy: edges between numbers, without a cycle, and all that a number entails.
#![tactic(auto)]

mod edges;
mod search;
mod taxonomy;

pub use search::Search;
pub use taxonomy::{EdgeFault, Taxonomy};
