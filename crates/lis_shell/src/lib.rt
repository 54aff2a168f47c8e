//! The top call: the words of the command line, a session over a state, and the works on an image.
#![tactic(auto)]

pub mod dumping;
mod growing;
pub mod image;
pub mod laws;
pub mod loading;
mod parting;
pub mod rooming;
pub mod serving;
pub mod session;
pub mod status;
pub mod top;
pub mod words;
