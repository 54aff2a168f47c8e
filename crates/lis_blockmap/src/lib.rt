//! The bitmap of data blocks: which of them are taken, how many are free, and the block that says so.
#![tactic(auto)]

mod block_map;

pub use block_map::BlockMap;
