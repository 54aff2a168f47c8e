//! What is seen of a state: descriptions, known words, and the table.

ghost use Rattle.std.specs.Prelude.{◌≡◌, ◌++◌, OnOk, IfOk};
ghost use Rattle.lis_model.specs.State.{own_words, file_words, description, known};
ghost use Rattle.lis_model.specs.Table.{entry_of, table};

use crate::file::File;
use crate::state::State;
use lis_derive::derive_words;
use lis_table::closure::{Axiom, all_up};
use lis_table::entry::Entry;
use lis_table::links::met_tests;
use lis_table::table::{Table, known_words, table_of};
use lis_table::words::copies;
use lis_words::Word;
use std::alloc::{AllocError, Global};

fn push_copies(words: &mut Vec<Word>, more: &[Word]) -> Result<(), AllocError>
    ensures { OnOk result (words.new.items ≡ words.old.items ++ more.now) }
{
    for word in more {
        words.push(word.copied())?;
    }
    Ok(())
}

/// A file's own words.
fn own_words(alloc: Global, declared: &[Word], file: &File) -> Result<Vec<Word>, AllocError>
    ensures { IfOk result (λ words. words.items ≡ own_words declared.now file.now) }
{
    let mut words = copies(alloc, &file.assigned)?;
    let noted = derive_words(&file.name, &file.bytes);
    push_copies(&mut words, noted.as_slice())?;
    let met = met_tests(alloc, declared, file.bytes.len() as u64)?;
    push_copies(&mut words, &met)?;
    Ok(words)
}

/// A file's own words with all that they entail.
fn file_words(
    alloc: Global,
    declared: &[Word],
    axioms: &[Axiom],
    file: &File,
) -> Result<Vec<Word>, AllocError>
    ensures { IfOk result (λ words. words.items ≡ file_words declared.now axioms.now file.now) }
{
    let words = own_words(alloc, declared, file)?;
    all_up(alloc, declared, axioms, &words)
}

/// The description of a file in a state.
pub fn description(alloc: Global, state: &State, file: &File) -> Result<Vec<Word>, AllocError>
    ensures { IfOk result (λ words. words.items ≡ description state.now file.now) }
{
    file_words(alloc, &state.declared, &state.axioms, file)
}

/// A file with its description.
pub fn entry_of(alloc: Global, state: &State, file: &File) -> Result<Entry, AllocError>
    ensures { IfOk result (λ entry. entry ≡ entry_of state.now.declared state.now.axioms file.now) }
{
    let words = description(alloc, state, file)?;
    Ok(Entry {
        name: file.name.copied(),
        size: file.bytes.len() as u64,
        words,
    })
}

/// All files with their descriptions.
pub fn all_entries(alloc: Global, state: &State) -> Result<Vec<Entry>, AllocError>
    ensures { IfOk result (λ entries. entries.items ≡ (table state.now).files) }
{
    let mut entries = Vec::new(alloc);
    for file in &state.files {
        entries.push(entry_of(alloc, state, file)?)?;
    }
    Ok(entries)
}

/// The known words of a state.
pub fn known(alloc: Global, state: &State) -> Result<Vec<Word>, AllocError>
    ensures { IfOk result (λ words. words.items ≡ known state.now) }
{
    let entries = all_entries(alloc, state)?;
    known_words(alloc, &state.declared, &state.axioms, &entries)
}

/// The table of a state.
pub fn make_table(alloc: Global, state: &State) -> Result<Table, AllocError>
    ensures { IfOk result (λ made. made ≡ table state.now) }
{
    let entries = all_entries(alloc, state)?;
    table_of(alloc, state.limits, &state.declared, &state.axioms, entries)
}
