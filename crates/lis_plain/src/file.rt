//! A file by its name, its bytes and its assigned words.

ghost use Rattle.std.specs.Prelude.{◌≡◌, [], IfOk};
ghost use Rattle.lis_model.specs.Changes.{new_file, file_of};

use lis_table::words::copies;
use lis_words::{Name, Word};
use std::alloc::{AllocError, Global};
use std::marker::Model;

/// A file of the state.
#[derive(Drop)]
pub struct File {
    pub name: Name,
    pub bytes: Vec<u8>,
    /// A set, in byte order.
    pub assigned: Vec<Word>,
}

impl Model for File {
    ghost use Rattle.lis_model.specs.State.{File as Kept};

    ghost Value = { Kept };

    ghost view = { λ f. record { name = f.name; bytes = f.bytes.items; assigned = f.assigned.items } };
}

/// A file of these bytes.
pub fn new_file(
    alloc: Global,
    name: &Name,
    assigned: Vec<Word>,
    bytes: &[u8],
) -> Result<File, AllocError>
    ensures { IfOk result (λ file. file ≡ new_file name.now assigned.items bytes.now) }
{
    let mut held = Vec::with_capacity(alloc, bytes.len())?;
    held.extend_from_slice(bytes)?;
    Ok(File {
        name: name.copied(),
        bytes: held,
        assigned,
    })
}

impl File {
    /// The same file.
    pub fn copied(&self, alloc: Global) -> Result<File, AllocError>
        ensures { IfOk result (λ file. file ≡ self.now) }
    {
        let assigned = copies(alloc, &self.assigned)?;
        new_file(alloc, &self.name, assigned, &self.bytes)
    }
}

/// The file of that name. If there is none, the result is an empty file, which no command reads.
pub fn file_of(alloc: Global, files: &[File], name: &Name) -> Result<File, AllocError>
    ensures { IfOk result (λ file. file ≡ file_of files.now name.now) }
{
    for file in files {
        if file.name == *name {
            return file.copied(alloc);
        }
    }
    new_file(alloc, name, Vec::new(alloc), &[])
}
