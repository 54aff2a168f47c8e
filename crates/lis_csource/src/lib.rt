//! The words that a C source gives: what it includes and what it defines.
//!
//! `joined` reads through joined lines byte by byte, `runs` and `pieces` find pieces from left to right, and `source` goes once through the
//! pieces. An identifier that may be defined is kept until its `{` comes or cannot come any more. No other identifier can wait at the same
//! time, since those inside its parentheses are not outside parentheses. Words of includes that come in between are noted twice, for either
//! outcome.
#![tactic(auto)]

mod joined;
mod pieces;
mod runs;
mod source;
mod words;

pub use source::source_props;
