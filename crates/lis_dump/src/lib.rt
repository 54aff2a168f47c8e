//! Shows the dump of the state that an image represents: the session, as text, that makes the state again.
#![tactic(auto)]

mod axioms;
mod dump;
mod files;
mod lines;
mod page;
mod words;

pub use dump::dump_state;
