//! Frames of equal width, allocated at once and handed out one by one.
#![tactic(auto)]

mod pool;
mod region;

pub use pool::Pool;
pub use region::{Frame, Region};
