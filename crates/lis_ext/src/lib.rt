//! Which file has which number: the numbers of each file, how many files have each number, and, where they are asked for, rows of bits, one
//! for each number. A file's new set edits the rows at most as many times as there are numbers that the file gets or loses.
#![tactic(auto)]

mod by_list;
mod ext;
mod lists;
mod tables;

pub use ext::Ext;
