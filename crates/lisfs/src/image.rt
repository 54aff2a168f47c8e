//! The file, or the block device, that holds an image.

use std::fs::{self, File, OpenOptions, TryLockError};
use std::io;
use std::io::{Error, ErrorKind, Seek, SeekFrom};
use std::os::fd::AsRawFd;
use std::os::unix::fs::FileTypeExt;
use std::path::Path;

/// An image's file, with its lock held, and how many bytes it has.
#[derive(Drop)]
pub struct ImageFile {
    pub file: File,
    pub len: u64,
}

const INPUT: i32 = 0;

// Standard input, output and error have the numbers up to this one.
const LAST_STANDARD: i32 = 2;

// If standard input is closed, a file with its number that can't be read: so a closed input is a fault, and not an empty input. The file
// can be written, so it must have no other number.
fn hold_input(rt: &HostRuntime) -> io::Result<Option<File>> {
    let file = OpenOptions::new().write(true).open(rt, "/dev/null")?;
    if file.as_raw_fd() == INPUT {
        Ok(Some(file))
    } else {
        Ok(None)
    }
}

/// Takes the numbers of standard input, output and error that are closed, as long as the files are held. Otherwise the file of an image
/// would get one, and replies would be written into it. Nothing can be read or shown through the held files. If this fails, the numbers
/// stay free, and `open` refuses a file that gets one.
pub fn hold_standard(rt: &HostRuntime) -> io::Result<Vec<File>> {
    let mut held = Vec::new(rt.alloc());
    if let Some(input) = hold_input(rt)? {
        held.push(input)?;
    }
    for _ in 0..=LAST_STANDARD {
        let file = File::open(rt, "/dev/null")?;
        if file.as_raw_fd() > LAST_STANDARD {
            break;
        }
        held.push(file)?;
    }
    Ok(held)
}

// The folder in which a file of this path is.
fn folder_of(path: Path<'_>) -> Path<'_> {
    match path.parent() {
        Some(folder) if !folder.as_str().is_empty() => folder,
        _ => Path::new("."),
    }
}

// How many bytes a file or a block device has. The metadata of a device do not say it, so it seeks the end.
fn len_of(mut file: &File) -> io::Result<u64> {
    file.seek(SeekFrom::End(0))
}

// Makes the file at least this long; a block device keeps its length. Syncing keeps the length and the name of the file through a power
// loss. The folder is that of the file and not that of a symbolic link to it, and it is opened before the file gets its length.
fn lengthen(rt: &HostRuntime, path: &str, file: &File, len: u64) -> io::Result<()> {
    let real = fs::canonicalize(rt, path)?;
    let folder = File::open(rt, folder_of(real.as_path()))?;
    let is_device = file.metadata()?.file_type().is_block_device();
    if !is_device && len_of(file)? < len {
        file.set_len(len)?;
    }
    file.sync_all()?;
    folder.sync_all()
}

fn lock(file: &File) -> io::Result<()> {
    match file.try_lock() {
        Ok(()) => Ok(()),
        Err(TryLockError::WouldBlock) => {
            Err(Error::new(ErrorKind::WouldBlock, "in use by another lisfs"))
        }
        Err(TryLockError::Error(error)) => Err(error),
    }
}

/// Opens the file, and takes its lock. If a length is given, the file is made if there is none, and lengthened to it. It fails if another
/// program holds the lock, or if the file has the number of standard input, output or error.
pub fn open(rt: &HostRuntime, path: &str, needed: Option<u64>) -> io::Result<ImageFile> {
    let file = OpenOptions::new()
        .read(true)
        .write(true)
        .create(needed.is_some())
        .open(rt, path)?;
    if file.as_raw_fd() <= LAST_STANDARD {
        return Err(Error::other("a standard stream is closed"));
    }
    lock(&file)?;
    if let Some(len) = needed {
        lengthen(rt, path, &file, len)?;
    }
    let len = len_of(&file)?;
    Ok(ImageFile { file, len })
}
