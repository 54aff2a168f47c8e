//! What refines a place, and the way from a place to a file, from rows of bits.
#![tactic(auto)]

mod increments;
mod listing;
mod marks;
mod route;
mod walk;

pub use listing::{Line, Listing, lines, list, make_listing};
pub use route::{Steps, left_steps, make_route, way};
