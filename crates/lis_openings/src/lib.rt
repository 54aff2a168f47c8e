//! Tests of making and opening: what making leaves, and what opening returns for whole and damaged images.
#![tactic(auto)]

#[cfg(test)]
mod openings;
