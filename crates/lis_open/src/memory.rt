//! The memory that opening allocates, all of it before it reads the journal.

ghost use Rattle.std.specs.Prelude.{◌≡◌, IsTrue, IfOk};
ghost use Rattle.lis_model.specs.Ranges.{are_in_range};
ghost use Rattle.lis_open.specs.ReadAll.{IsEmptyMemory};
ghost use Rattle.lis_open.specs.ReadFiles.{no_files};
ghost use Rattle.lis_open.specs.ReadWords.{no_words, AreNoAxioms};

use crate::axioms::{Axioms, no_axioms};
use crate::files::{FileScratch, FileSlots, no_files};
use crate::words::{WordSlots, no_words};
use arrayvec::ArrayVec;
use lis_bits::{Flags, Rows};
use lis_content::Buffer;
use lis_kept::data_start;
use lis_model::limits::Limits;
use lis_taxonomy::Search;
use std::alloc::{AllocError, Global};

/// The memory into which opening reads.
#[derive(Drop)]
pub struct OpeningMemory {
    pub words: WordSlots,
    pub files: FileSlots,
    pub later: LaterMemory,
}

impl OpeningMemory {
    /// Frees its memory, as `LaterMemory::close` does.
    pub fn close(self) {
        self.later.close();
        self.files.close();
        self.words.close();
    }
}

/// The memory of all but words and files.
#[derive(Drop)]
pub struct LaterMemory {
    pub axioms: Axioms,
    /// The check of the words uses it.
    pub row: Rows,
    pub scratch: FileScratch,
    /// By block: it must be written.
    pub marks: Flags,
}

impl LaterMemory {
    /// Frees its memory. The field with most parts is dropped by a separate call, since one drop of all takes long to check.
    pub fn close(self) {
        self.axioms.close();
    }
}

// The memory into which the slots are read.
#[derive(Drop)]
struct SlotMemory {
    words: WordSlots,
    axioms: Axioms,
    files: FileSlots,
}

// Allocates the memory for the slots. Nothing is read yet.
fn take_slot_memory(alloc: Global, limits: &Limits) -> Result<SlotMemory, AllocError>
    requires { IsTrue (are_in_range limits.now) }
    ensures words { IfOk result (λ slots. slots.words ≡ no_words limits.now) }
    ensures axioms { IfOk result (λ slots. AreNoAxioms limits.now slots.axioms) }
    ensures files { IfOk result (λ slots. slots.files ≡ no_files limits.now) }
{
    Ok(SlotMemory {
        axioms: no_axioms(alloc, limits)?,
        words: no_words(alloc, limits)?,
        files: no_files(alloc, limits)?,
    })
}

/// Allocates the memory. The fields with most parts come last: each field is freed wherever a later allocation fails, which takes long to
/// check. Nothing is read yet.
pub fn take_memory(alloc: Global, limits: &Limits) -> Result<OpeningMemory, AllocError>
    requires { IsTrue (are_in_range limits.now) }
    ensures { IfOk result (IsEmptyMemory limits.now) }
{
    let row = Rows::new(alloc, 1, limits.props)?;
    let scratch = FileScratch {
        search: Search::new(alloc)?,
        bytes: Buffer::new(alloc)?,
        blocks: ArrayVec::new(),
    };
    let marks = Flags::new(alloc, 64 * data_start(limits).div_ceil(64))?;
    let slots = take_slot_memory(alloc, limits)?;
    Ok(OpeningMemory {
        words: slots.words,
        files: slots.files,
        later: LaterMemory {
            axioms: slots.axioms,
            row,
            scratch,
            marks,
        },
    })
}
