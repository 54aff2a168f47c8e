//! The outside as traits: a source of input, a disk, and a station, which is a disk that also shows output.
#![tactic(auto)]

mod disk;
mod source;

pub use disk::{Disk, Failed, Station};
pub use source::{MemSource, Source, StdSource};
