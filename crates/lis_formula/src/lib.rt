//! Formula texts: reading them, what they make of a place, and printing places.
#![tactic(auto)]

mod fault;
mod laws;
mod operand;
mod pieces;
mod printer;
mod read;
mod reader;
mod resolution;
mod signs;

pub use fault::FormulaFault;
pub use laws::{one_reading, places_stay, printed_reads, reading_is_fit, text_is_read};
pub use printer::print;
pub use read::read_formula;
pub use resolution::resolve;
