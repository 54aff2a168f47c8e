//! A load: the items of an input are run as in a session, with many changes in one commit, and replies come after it.
#![tactic(auto)]

pub mod loader;
pub mod serving;
