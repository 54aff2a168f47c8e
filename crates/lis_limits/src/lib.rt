//! The numbers of an image, its limits and its lines, each once.
#![tactic(auto)]

/// Bytes of a block.
pub const BLOCK_LEN: usize = 4_096;

/// Bits of a block.
pub const BLOCK_BITS: u32 = 32_768;

/// Gates of the journal, a byte each.
pub const GATES: u32 = 64;

/// Blocks that hold the journal's records in versions 1 and 2.
pub const RECORD_BLOCKS: u32 = 576;

/// Blocks that hold the journal's records in version 3, besides one for each block of sets.
pub const V3_RECORD_BLOCKS: u32 = 1_088;

/// The most blocks that can be staged for one commit in versions 1 and 2.
pub const MAX_STAGED: u32 = 575;

/// The most blocks that can be staged for one commit in version 3, besides the blocks of sets.
pub const V3_MAX_STAGED: u32 = 893;

/// The most blocks that one change places in versions 1 and 2, that is, writes straight to their homes: the blocks of a file's content and
/// its index block.
pub const MAX_PLACED: u32 = 257;

/// The most blocks that one change places in version 3.
pub const V3_MAX_PLACED: u32 = 16_400;

/// The most files of an image of version 1 or 2.
pub const MAX_FILES: u32 = 4_096;

/// The most words of an image of version 1 or 2.
pub const MAX_PROPS: u32 = 8_192;

/// The most data blocks of an image of version 1 or 2.
pub const MAX_BLOCKS: u32 = 32_768;

/// The most blocks of an image of version 1 or 2.
pub const MAX_IMAGE_BLOCKS: u32 = 34_771;

/// The most blocks of an image of version 3.
pub const V3_MAX_IMAGE_BLOCKS: u32 = 16_879_170;

/// The most bytes of a file in version 1.
pub const MAX_FILE: u32 = 65_536;

/// The most bytes of a file in version 2.
pub const MAX_LARGE_FILE: u32 = 1_048_576;

/// The most files in version 3.
pub const V3_MAX_FILES: u32 = 262_144;

/// The most words in version 3.
pub const V3_MAX_PROPS: u32 = 1_048_576;

/// The most data blocks in version 3.
pub const V3_MAX_BLOCKS: u32 = 16_777_216;

/// The most bytes of a file in version 3, if the data blocks have room for them.
pub const V3_MAX_FILE: u32 = 67_108_864;

/// A file that has bytes, and fewer than this, is small.
pub const SMALL_FILE: usize = 1_024;

/// A file that is not small, and has fewer bytes than this, is a medium one.
pub const MEDIUM_FILE: usize = 16_384;

/// The most blocks of a content of any version, without its index blocks.
pub const MAX_FILE_BLOCKS: usize = 16_384;

/// Bytes of the slot of a word.
pub const PROP_LEN: usize = 64;

/// Bytes of the slot of an axiom.
pub const AXIOM_LEN: usize = 8;

/// Bytes of the slot of a file.
pub const FILE_LEN: usize = 256;

/// Bytes of the set of a file, in version 3.
pub const SET_LEN: usize = 512;

/// How many axioms have their slots in one block.
pub const AXIOMS_PER_BLOCK: usize = 512;

/// The most words that a file has: its own, those derived from it and the tests that it meets, and all that these entail.
pub const MAX_DESCRIPTION: usize = 128;

/// The most nodes of a working directory.
pub const MAX_NODES: usize = 64;

/// The most bytes of a working directory, as it is printed.
pub const MAX_FORMULA: usize = 1_024;

/// The most bytes of a line, without its line feed.
pub const MAX_LINE: usize = 1_024;

/// The most bytes of a payload that are kept: as many as a file of any version may have.
pub const MAX_PAYLOAD: u32 = V3_MAX_FILE;

/// The most bytes of an edited view.
pub const MAX_VIEW: u32 = 8_388_608;

/// The most words that a file is given.
pub const MAX_ASSIGNED: usize = 16;

/// The most words that are derived from one file.
pub const MAX_DERIVED: usize = 48;

/// The most bytes of a word, and of the name of a file.
pub const MAX_WORD: usize = 60;

/// The most blocks of a content whose numbers are in the slot of its file. A larger one has index blocks.
pub const SLOT_BLOCKS: u32 = 16;

/// The most numbers that an index block has. If each has four bytes, they fill it.
pub const NUMBERS_PER_INDEX: u32 = 1_024;

/// How many words have their slots in one block.
pub const PROPERTIES_PER_BLOCK: u32 = 64;

/// How many files have their slots in one block.
pub const FILES_PER_BLOCK: u32 = 16;

/// How many files have their sets in one block, in version 3.
pub const SETS_PER_BLOCK: u32 = 8;
