//! A store over what memory keeps: a state on an image, what memory keeps of it, and calls that change both. Opening joins its parts; truth
//! and listings see it as a view. Calls declare words and remove declarations, add and remove axioms, and make, read, change and remove
//! files. The laws say what images it represents.
#![tactic(auto)]

mod adding;
mod admitting;
mod assigning;
mod change_fault;
mod closing;
mod contents;
mod counting;
mod crowding;
mod describing;
mod file_bytes;
mod finding;
mod instead;
mod judging;
pub mod laws;
mod lessening;
mod looking;
mod memory;
mod placing;
mod relating;
mod relating_in;
mod removing;
mod replacing;
mod retagging;
mod saving;
mod store;
mod tags;
mod testing;
mod write;

pub use admitting::NewFile;
pub use change_fault::ChangeFault;
pub use counting::Counts;
pub use store::{Built, Store};
pub use write::Write;
