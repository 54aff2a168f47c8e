//! The files of a state as a list sorted by their names.

ghost use Rattle.std.specs.Prelude.{◌≡◌, not, filter, OnOk, OnErr, IfOk};
ghost use Rattle.std.specs.BTreeSet.{insert_key};
ghost use Rattle.std.specs.List.{prefix_len};
ghost use Rattle.std.specs.Ordering.{is_gt};
ghost use Rattle.lis_table.specs.Places.{first_is};
ghost use Rattle.lis_words.specs.Words.{same_word};
ghost use Rattle.lis_model.specs.State.{File as Kept, file_cmp};
ghost use Rattle.lis_model.specs.Changes.{has_name};

use crate::file::File;
use lis_words::Name;
use std::alloc::{AllocError, Global};

/// Whether some file has the name.
pub fn has_name(files: &[File], name: &Name) -> bool
    ensures { result ≡ has_name files.now name.now }
{
    files.iter().any(|file| file.name == *name)
}

fn file_place(files: &[File], file: &File) -> usize
    ensures { result ≡ prefix_len (λ held. is_gt (file_cmp file.now held)) files.now }
{
    files
        .iter()
        .take_while(|held| file.name.cmp(&held.name).is_gt())
        .count()
}

fn begins_with_file(files: &[File], file: &File) -> bool
    ensures { result ≡ first_is file_cmp file.now files.now }
{
    match files {
        [] => false,
        [first, ..] => file.name.cmp(&first.name).is_eq(),
    }
}

/// Inserts the file at its index in the order of names, unless there is one of its name.
pub fn insert_file(files: &mut Vec<File>, file: File) -> Result<(), AllocError>
    ensures ok { OnOk result (files.new.items ≡ insert_key file_cmp files.old.items file) }
    ensures err { OnErr result (files.new.items ≡ files.old.items) }
{
    let place = file_place(files, &file);
    let (_, behind) = files.as_slice().split_at(place);
    if begins_with_file(behind, &file) {
        return Ok(());
    }
    files.insert(place, file)?;
    Ok(())
}

/// The same files.
pub fn files_copied(alloc: Global, files: &[File]) -> Result<Vec<File>, AllocError>
    ensures { IfOk result (λ copies. copies.items ≡ files.now) }
{
    let mut copies = Vec::new(alloc);
    for file in files {
        copies.push(file.copied(alloc)?)?;
    }
    Ok(copies)
}

/// All files except the one of this name.
pub fn without_file(alloc: Global, files: &[File], name: &Name) -> Result<Vec<File>, AllocError>
    ensures { IfOk result (λ kept. kept.items ≡ filter (λ (file : Kept). not (same_word file.name name.now)) files.now) }
{
    let mut kept = Vec::new(alloc);
    for file in files {
        if file.name != *name {
            kept.push(file.copied(alloc)?)?;
        }
    }
    Ok(kept)
}
