//! Reads and writes the parts of an image: the super block, property slots, axiom slots, file slots, and sets of files. No call allocates memory.
#![tactic(auto)]

mod axioms;
mod fields;
mod files;
mod numbers;
mod props;
mod sets;
mod slots;
mod super_block;

pub use axioms::{read_axiom, write_axiom};
pub use fields::are_zeros;
pub use files::{read_file, write_file};
pub use numbers::{number_width, read_shorts, read_wide, write_shorts, write_wide};
pub use props::{read_prop, write_prop};
pub use sets::{read_set, write_set};
pub use slots::{AxiomSlot, FileRec, FileSlot, PropSlot};
pub use super_block::{read_super, write_super};
