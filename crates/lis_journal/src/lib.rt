//! A journal that commits staged blocks, all or none, at every moment.
#![tactic(auto)]

mod commit;
mod header;
mod journal;
mod layout;
mod mount;
mod records;
mod stage;

pub use journal::{Journal, JournalFault};
pub use layout::{Capacity, Layout};
