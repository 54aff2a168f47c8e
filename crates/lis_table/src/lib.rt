//! What truth and listings use: sets of words, what they entail, descriptions, tables, and the words of places.
#![tactic(auto)]

pub mod closure;
pub mod entry;
pub mod links;
pub mod listing;
pub mod moving;
pub mod route;
pub mod table;
pub mod tags;
pub mod truth;
pub mod words;
