//! Words, file names and counts: what their bytes may be, and types whose values keep to it.
#![tactic(auto)]

mod forms;
mod name;
mod test;
mod word;

pub use forms::{is_count, is_head, is_plain_byte, is_plain_word, is_valued, is_word, read_count};
pub use name::{Name, read_name};
pub use test::Test;
pub use word::{
    PropKind, Word, head_of, is_builtin, kind, read_formula_word, read_word, test_of, with_value,
};
