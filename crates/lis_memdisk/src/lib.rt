//! Stations: one in memory, which a test can make fail and crash, and one over a file and a writer.
#![tactic(auto)]

mod bytes;
mod counting;
mod event;
mod file_station;
mod history;
mod mem_station;

pub use file_station::FileStation;
pub use mem_station::MemStation;
