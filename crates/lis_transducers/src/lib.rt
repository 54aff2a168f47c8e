//! The words that mails and C sources give: definitions, and the enums that they name.
#![tactic(auto)]

pub mod field;
pub mod piece;
