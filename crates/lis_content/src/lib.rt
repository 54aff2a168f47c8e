//! The bytes of files over the data blocks of a journal.
#![tactic(auto)]

mod blocks;
mod buffer;
mod content;
mod fault;
mod large;
mod placing;

pub use buffer::Buffer;
pub use content::{drop_file, give_all, put};
pub use fault::PutFault;
pub use large::{
    Laid, MOST_BLOCKS, is_large, read_block, read_blocks, read_content, read_next_block,
};
pub use placing::place_file;
