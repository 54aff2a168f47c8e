//! The commands over plain lists: the program that computes each definition every time.
#![tactic(auto)]

mod axioms;
mod carrying;
mod content;
pub mod end;
mod file;
mod files;
mod looking;
mod made;
pub mod plain;
mod room;
mod sets;
mod state;
mod table;
mod taxonomy;
