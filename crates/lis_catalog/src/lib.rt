//! The file records of an image in the order of their names. All memory is allocated when a catalog is made.
#![tactic(auto)]

mod catalog;
mod unsorted;

pub use catalog::{Catalog, CatalogFault};
pub use unsorted::Unsorted;
