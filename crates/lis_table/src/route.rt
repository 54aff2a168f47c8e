//! The increments that lead to a file.

ghost use Rattle.std.specs.Prelude.{◌≡◌, length, filter, IfOk};
ghost use Rattle.lis_model.specs.Tests.{step_of};
ghost use Rattle.lis_model.specs.Listing.{holds};
ghost use Rattle.lis_table.specs.Routes.{first_of, route_from};

use crate::entry::Entry;
use crate::listing::{is_increment, is_local};
use crate::table::Table;
use crate::words::has_word;
use lis_words::{Word, test_of};
use std::alloc::{AllocError, Global};

/// Whether the step of the word holds of the file.
fn holds(word: &Word, file: &Entry) -> bool
    ensures { result ≡ holds (step_of word.now) file.now }
{
    match test_of(word) {
        None => has_word(&file.words, word),
        Some(test) if test.at_least => test.bytes <= file.size,
        Some(test) => file.size < test.bytes,
    }
}

/// Keeps the files of which the step of the word holds.
fn narrow(files: &mut Vec<Entry>, word: &Word)
    ensures { files.new.items ≡ filter (holds (step_of word.now)) files.old.items }
{
    files.retain(|file| holds(word, file));
}

/// The first increment that the file has.
fn first_increment(table: &Table, files: &[Entry], file: &Entry) -> Option<Word>
    ensures { result ≡ first_of table.now files.now file.now }
{
    for word in &table.known {
        if is_increment(table, files, word) && has_word(&file.words, word) {
            return Some(word.copied());
        }
    }
    None
}

/// The increments that lead to a file, from a place with these files.
pub fn route(
    alloc: Global,
    table: &Table,
    mut files: Vec<Entry>,
    file: &Entry,
) -> Result<Vec<Word>, AllocError>
    ensures { IfOk result (λ words. words.items ≡ route_from (length files.items) table.now files.items file.now) }
{
    let mut words = Vec::new(alloc);
    for _step in 0..files.len() {
        if is_local(&files, file) {
            return Ok(words);
        }
        let Some(word) = first_increment(table, &files, file) else {
            return Ok(words);
        };
        narrow(&mut files, &word);
        words.push(word)?;
    }
    Ok(words)
}
