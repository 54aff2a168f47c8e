//! What the parts of an image say.

use arrayvec::ArrayVec;
use lis_words::{Name, Word};
use std::marker::Model;

/// A slot for a word.
#[derive(Drop, Debug)]
pub enum PropSlot {
    /// A slot without a word.
    Free,
    /// A word that is known and not declared.
    Known(Word),
    /// A declared word.
    Declared(Word),
}

/// A slot for an axiom.
#[derive(Clone, Copy, Debug, PartialEq, Eq)]
pub enum AxiomSlot {
    /// A slot without an axiom.
    Free,
    /// The slot numbers of the left and of the right word.
    Pair(u32, u32),
}

/// A slot for a file.
#[derive(Drop, Debug)]
pub enum FileSlot {
    /// A slot without a file.
    Free,
    /// A file.
    Used(FileRec),
}

/// What a file slot says of its file.
#[derive(Drop, Debug)]
pub struct FileRec {
    pub name: Name,
    /// How many bytes the file has.
    pub size: u32,
    /// The slot numbers of the words that the file was assigned.
    pub tags: ArrayVec<u32, 16>,
    /// The numbers of the data blocks of its bytes, in order. If these are more than 16, as in versions 2 and 3, those of its index blocks,
    /// which have theirs.
    pub blocks: ArrayVec<u32, 16>,
}

impl Model for FileRec {
    ghost use Rattle.lis_fields.specs.Records.{FileRecord};

    ghost Value = { FileRecord };

    ghost view = { λ f. record { name = f.name; size = f.size; tags = f.tags.items; blocks = f.blocks.items } };
}
