//! Why a file's bytes were not put.

use thiserror::Error;

/// Why a file's bytes were not put.
#[derive(Debug, Drop, Error)]
pub enum PutFault {
    #[error("too few blocks are free")]
    NoSpace,
    #[error("the disk failed")]
    Disk,
}
