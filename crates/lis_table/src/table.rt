//! The table of a state: known words, what they entail, and each file's description.

ghost use Rattle.std.specs.Prelude.{◌≡◌, map, IfOk, OnOk};
ghost use Rattle.std.specs.List.{flat_map};
ghost use Rattle.lis_model.specs.Sets.{with_words};
ghost use Rattle.lis_model.specs.State.{up, heads};
ghost use Rattle.lis_model.specs.Table.{Entry};
ghost use Rattle.lis_table.specs.Tables.{known_of, table_with, table_of};

use crate::closure::{Axiom, up};
use crate::entry::{Entailed, Entry};
use crate::links::insert_head;
use crate::words::{copies, insert_word, insert_words};
use lis_model::limits::Limits;
use lis_words::Word;
use std::alloc::{AllocError, Global};
use std::marker::Model;

/// The table of a state.
#[derive(Drop)]
pub struct Table {
    pub limits: Limits,
    /// A set, in byte order.
    pub known: Vec<Word>,
    pub files: Vec<Entry>,
    pub entailed: Vec<Entailed>,
}

impl Model for Table {
    ghost use Rattle.lis_model.specs.Table.{Table as Told};

    ghost Value = { Told };

    ghost view = { λ t. record { limits = t.limits; known = t.known.items; files = t.files.items; entailed = t.entailed.items } };
}

fn insert_lefts(known: &mut Vec<Word>, axioms: &[Axiom]) -> Result<(), AllocError>
    ensures { OnOk result (known.new.items ≡ with_words known.old.items (map (λ pair. pair.0) axioms.now)) }
{
    for pair in axioms {
        insert_word(known, &pair.left)?;
    }
    Ok(())
}

fn insert_left_heads(known: &mut Vec<Word>, axioms: &[Axiom]) -> Result<(), AllocError>
    ensures { OnOk result (known.new.items ≡ with_words known.old.items (flat_map (λ pair. heads pair.0) axioms.now)) }
{
    for pair in axioms {
        insert_head(known, &pair.left)?;
    }
    Ok(())
}

fn insert_descriptions(known: &mut Vec<Word>, files: &[Entry]) -> Result<(), AllocError>
    ensures { OnOk result (known.new.items ≡ with_words known.old.items (flat_map (λ (e : Entry). e.words) files.now)) }
{
    for file in files {
        insert_words(known, &file.words)?;
    }
    Ok(())
}

/// The declared words, the left sides of axioms with their heads, and all descriptions.
pub fn known_words(
    alloc: Global,
    declared: &[Word],
    axioms: &[Axiom],
    files: &[Entry],
) -> Result<Vec<Word>, AllocError>
    ensures { IfOk result (λ known. known.items ≡ known_of declared.now axioms.now files.now) }
{
    let mut known = copies(alloc, declared)?;
    insert_lefts(&mut known, axioms)?;
    insert_left_heads(&mut known, axioms)?;
    insert_descriptions(&mut known, files)?;
    Ok(known)
}

/// Each of the words, and what it entails.
pub fn all_ups(
    alloc: Global,
    declared: &[Word],
    axioms: &[Axiom],
    known: &[Word],
) -> Result<Vec<Entailed>, AllocError>
    ensures { IfOk result (λ entailed. entailed.items ≡ map (λ p. (p, up declared.now axioms.now p)) known.now) }
{
    let mut entailed = Vec::new(alloc);
    for word in known {
        let above = up(alloc, declared, axioms, word)?;
        entailed.push(Entailed {
            word: word.copied(),
            above,
        })?;
    }
    Ok(entailed)
}

fn table_with(
    alloc: Global,
    limits: Limits,
    declared: &[Word],
    axioms: &[Axiom],
    known: Vec<Word>,
    files: Vec<Entry>,
) -> Result<Table, AllocError>
    ensures { IfOk result (λ made. made ≡ table_with limits declared.now axioms.now known.items files.items) }
{
    let entailed = all_ups(alloc, declared, axioms, &known)?;
    Ok(Table {
        limits,
        known,
        files,
        entailed,
    })
}

/// The table of these files, whose known words are the declared ones, those of the left sides of axioms, and the descriptions.
pub fn table_of(
    alloc: Global,
    limits: Limits,
    declared: &[Word],
    axioms: &[Axiom],
    files: Vec<Entry>,
) -> Result<Table, AllocError>
    ensures { IfOk result (λ made. made ≡ table_of limits declared.now axioms.now files.items) }
{
    let known = known_words(alloc, declared, axioms, &files)?;
    table_with(alloc, limits, declared, axioms, known, files)
}
