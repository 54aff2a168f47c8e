//! Tests of crashes: what a journal reads after a stop at any disk call, in a commit, in a checkpoint and in a recovery.
#![tactic(auto)]

#[cfg(test)]
mod disk;
#[cfg(test)]
mod journal;
#[cfg(test)]
mod mount;
