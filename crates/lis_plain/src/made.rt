//! What changes make of a state.

ghost use Rattle.std.specs.Prelude.{◌≡◌, not, filter, IfOk};
ghost use Rattle.lis_words.specs.Words.{same_word};
ghost use Rattle.lis_model.specs.Changes.{declared_under, undeclared, axiom_added, axiom_removed, file_added, file_removed, file_replaced};

use crate::axioms::{axioms_copied, insert_axiom, insert_axioms, without_axiom};
use crate::file::File;
use crate::sets::{files_copied, insert_file, without_file};
use crate::state::State;
use lis_table::closure::Axiom;
use lis_table::words::{copies, insert_word};
use lis_words::{Name, Word};
use std::alloc::{AllocError, Global};

/// With a word declared, and with an axiom from it to each of the others.
pub fn declared_under(
    alloc: Global,
    state: &State,
    word: &Word,
    words: &[Word],
) -> Result<State, AllocError>
    ensures { IfOk result (λ made. made ≡ declared_under state.now word.now words.now) }
{
    let mut declared = copies(alloc, &state.declared)?;
    insert_word(&mut declared, word)?;
    let mut axioms = axioms_copied(alloc, &state.axioms)?;
    insert_axioms(&mut axioms, word, words)?;
    let files = files_copied(alloc, &state.files)?;
    Ok(State {
        limits: state.limits,
        declared,
        axioms,
        files,
    })
}

fn words_but(alloc: Global, words: &[Word], word: &Word) -> Result<Vec<Word>, AllocError>
    ensures { IfOk result (λ kept. kept.items ≡ filter (λ w. not (same_word w word.now)) words.now) }
{
    let mut kept = Vec::new(alloc);
    for held in words {
        if held != word {
            kept.push(held.copied())?;
        }
    }
    Ok(kept)
}

/// Without the declaration of a word.
pub fn undeclared(alloc: Global, state: &State, word: &Word) -> Result<State, AllocError>
    ensures { IfOk result (λ made. made ≡ undeclared state.now word.now) }
{
    let declared = words_but(alloc, &state.declared, word)?;
    let axioms = axioms_copied(alloc, &state.axioms)?;
    let files = files_copied(alloc, &state.files)?;
    Ok(State {
        limits: state.limits,
        declared,
        axioms,
        files,
    })
}

fn with_axioms(alloc: Global, state: &State, axioms: Vec<Axiom>) -> Result<State, AllocError>
    ensures { IfOk result (λ made. made ≡ record (state.now) { axioms = axioms.items }) }
{
    let declared = copies(alloc, &state.declared)?;
    let files = files_copied(alloc, &state.files)?;
    Ok(State {
        limits: state.limits,
        declared,
        axioms,
        files,
    })
}

/// With one more axiom.
pub fn axiom_added(alloc: Global, state: &State, pair: &Axiom) -> Result<State, AllocError>
    ensures { IfOk result (λ made. made ≡ axiom_added state.now pair.now) }
{
    let mut axioms = axioms_copied(alloc, &state.axioms)?;
    insert_axiom(&mut axioms, pair.copied())?;
    let made = with_axioms(alloc, state, axioms)?;
    Ok(made)
}

/// Without an axiom.
pub fn axiom_removed(alloc: Global, state: &State, pair: &Axiom) -> Result<State, AllocError>
    ensures { IfOk result (λ made. made ≡ axiom_removed state.now pair.now) }
{
    let axioms = without_axiom(alloc, &state.axioms, pair)?;
    let made = with_axioms(alloc, state, axioms)?;
    Ok(made)
}

fn with_files(alloc: Global, state: &State, files: Vec<File>) -> Result<State, AllocError>
    ensures { IfOk result (λ made. made ≡ record (state.now) { files = files.items }) }
{
    let declared = copies(alloc, &state.declared)?;
    let axioms = axioms_copied(alloc, &state.axioms)?;
    Ok(State {
        limits: state.limits,
        declared,
        axioms,
        files,
    })
}

/// With one more file.
pub fn file_added(alloc: Global, state: &State, file: &File) -> Result<State, AllocError>
    ensures { IfOk result (λ made. made ≡ file_added state.now file.now) }
{
    let mut files = files_copied(alloc, &state.files)?;
    insert_file(&mut files, file.copied(alloc)?)?;
    let made = with_files(alloc, state, files)?;
    Ok(made)
}

/// Without the file of that name.
pub fn file_removed(alloc: Global, state: &State, name: &Name) -> Result<State, AllocError>
    ensures { IfOk result (λ made. made ≡ file_removed state.now name.now) }
{
    let files = without_file(alloc, &state.files, name)?;
    let made = with_files(alloc, state, files)?;
    Ok(made)
}

/// With a file instead of the one of this name.
pub fn file_replaced(
    alloc: Global,
    state: &State,
    name: &Name,
    file: &File,
) -> Result<State, AllocError>
    ensures { IfOk result (λ made. made ≡ file_replaced state.now name.now file.now) }
{
    let mut files = without_file(alloc, &state.files, name)?;
    insert_file(&mut files, file.copied(alloc)?)?;
    let made = with_files(alloc, state, files)?;
    Ok(made)
}
