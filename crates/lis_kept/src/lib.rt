//! What memory keeps of an image, with a mark at each block that is yet to be written.
//!
//! Each change of memory marks the blocks that it touches, and one loop stages all marked blocks, each spelled whole.
#![tactic(auto)]

mod behind;
mod changes;
mod joining;
mod linking;
mod metadata;
mod places;
mod reading;
mod rows;
mod sets;
mod spelling;
mod test_edges;
mod under;
mod words;

pub use joining::Fields;
pub use metadata::Metadata;
pub use places::{
    axioms_start, bitmap_start, data_start, descriptions_start, files_start, image_capacity,
    image_layout, laid_by, properties_start,
};
pub use test_edges::link_next;
pub use words::link_head;
