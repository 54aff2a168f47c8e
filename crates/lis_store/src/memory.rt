//! The memory that the steps of a change pass on as one value.

use lis_content::Buffer;
use lis_journal::Journal;
use lis_kept::Metadata;

/// What memory keeps of an image, its journal, and what else the steps of a change need.
#[derive(Drop)]
pub(crate) struct Memory {
    pub(crate) metadata: Metadata,
    pub(crate) journal: Journal,
    /// Memory for the bytes of a file.
    pub(crate) bytes: Buffer,
    /// Whether a disk call failed.
    pub(crate) is_broken: bool,
}
