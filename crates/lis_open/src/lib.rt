//! Makes and opens images.
#![tactic(auto)]

mod axioms;
mod blocks;
mod checks;
mod clearing;
mod contents;
mod files;
mod indexes;
pub mod laws;
mod making;
mod memory;
mod mounting;
mod naming;
mod reading;
mod upgrading;
mod words;

pub use making::{MakeFault, make};
pub use mounting::{OpenFault, mount};
pub use upgrading::upgrade;
