//! The program's sessions as tables: what is read, and what must be shown. Except for how a session begins, all code here is tests.
#![tactic(auto)]

#[cfg(test)]
mod crashes;
pub mod entry;
#[cfg(test)]
mod failures;
#[cfg(test)]
mod first_fault;
#[cfg(test)]
mod grow_source;
#[cfg(test)]
mod growing;
#[cfg(test)]
mod images;
#[cfg(test)]
mod limit;
#[cfg(test)]
mod parts;
#[cfg(test)]
mod tests;
#[cfg(test)]
mod versions;
