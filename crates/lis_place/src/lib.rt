//! Places: formulas as lists of nodes within limits, the paths that formula texts read as, and texts.
#![tactic(auto)]

mod limits;
mod node;
mod place;
mod text;

pub use node::Node;
pub use place::{Path, Place};
pub use text::Text;
