//! A store from an image, after its journal.

ghost use Rattle.std.specs.Prelude.{◌≡◌, ℕ, List, Bool, [], false, IfOk, OnOk};
ghost use Rattle.lis_bits.specs.Rows.{HasShape};
ghost use Rattle.lis_journal.specs.Images.{Fits};
ghost use Rattle.lis_fields.specs.Layouts.{SpellsSuper};
ghost use Rattle.lis_store.specs.Stored.{IsSound};
ghost use Rattle.lis_open.specs.Reading.{Recalls, Passes, ReadsPart, IsReadable};
ghost use Rattle.lis_open.specs.ReadWords.{no_words, AreFirstWords, WordsAreSpelled};
ghost use Rattle.lis_open.specs.ReadFiles.{no_files};
ghost use Rattle.lis_open.specs.ReadAll.{metadata_in, is_stray, IsEmptyMemory, IsEmptyLater, AreSlotsRead, ArePassed, SlotsEnded, AreRead, PartsEnded, LaterEnded, AllEnded, StoreEnded};

use crate::axioms::read_axioms;
use crate::blocks::LastBlock;
use crate::checks::{check_bitmap, check_rows, check_sets, check_words};
use crate::files::{FileSlots, Files, Known, read_files};
use crate::memory::{LaterMemory, OpeningMemory};
use crate::mounting::OpenFault;
use crate::words::{WordSlots, Words, read_words};
use lis_journal::Journal;
use lis_kept::{Fields, Metadata};
use lis_model::limits::Limits;
use lis_ports::Disk;
use lis_store::{Built, Store};

// Reads axioms and files, and checks each slot as it is read.
fn read_slots<D: Disk>(
    last: &mut LastBlock,
    disk: &mut D,
    journal: &Journal,
    limits: &Limits,
    words: &Words,
    slots: FileSlots,
    memory: &mut LaterMemory,
) -> Result<Files, OpenFault>
    requires readable { IsReadable limits.now journal.now (D.meaning disk.old) }
    requires words { AreFirstWords limits.now words.now limits.now.props }
    requires slots { slots ≡ no_files limits.now }
    requires memory { IsEmptyLater limits.now memory.old }
    ensures same { memory.new.row ≡ memory.old.row }
    ensures marks { memory.new.marks ≡ memory.old.marks }
    ensures disk { ReadsPart (D.meaning disk.old) (D.meaning disk.new) result }
    ensures read { IfOk result (λ files. AreSlotsRead limits.now words.now memory.new.axioms files) }
    ensures recalls { OnOk result ((kept : ℕ → List ℕ) → Fits journal.now (D.meaning disk.old) kept → Recalls last.old kept → Recalls last.new kept) }
    ensures ended { (kept : ℕ → List ℕ) → Fits journal.now (D.meaning disk.old) kept → Recalls last.old kept
        → Passes limits.now kept 2 (WordsAreSpelled limits.now kept words.now limits.now.props)
        → SlotsEnded limits.now kept words.now memory.new.axioms result }
{
    read_axioms(last, disk, journal, limits, words, &mut memory.axioms)?;
    let known = Known {
        journal,
        limits,
        words,
        axioms: &memory.axioms,
    };
    read_files(last, disk, known, slots, &mut memory.scratch)
}

// Checks what must hold after the slots: words are in use, and the bitmap, the rows and the sets are right.
fn check_parts<D: Disk>(
    last: &mut LastBlock,
    disk: &mut D,
    journal: &Journal,
    limits: &Limits,
    words: &Words,
    files: &Files,
    memory: &mut LaterMemory,
) -> Result<(), OpenFault>
    requires readable { IsReadable limits.now journal.now (D.meaning disk.old) }
    requires read { AreSlotsRead limits.now words.now memory.old.axioms files.now }
    requires shape { HasShape memory.old.row 1 limits.now.props }
    ensures same { memory.new ≡ record memory.old { row = memory.new.row } }
    ensures disk { ReadsPart (D.meaning disk.old) (D.meaning disk.new) result }
    ensures used { OnOk result ((marks : List Bool) (n : ℕ)
        → is_stray (metadata_in limits.now words.now memory.old.axioms files.now marks) n ≡ false) }
    ensures ended { (kept : ℕ → List ℕ) → Fits journal.now (D.meaning disk.old) kept → Recalls last.old kept
        → ArePassed limits.now kept words.now memory.old.axioms files.now
        → PartsEnded limits.now kept words.now memory.old.axioms files.now result }
{
    check_words(limits, words, &memory.axioms, files, &mut memory.row)?;
    check_bitmap(disk, journal, limits, &files.map)?;
    check_rows(last, disk, journal, limits, &files.ext)?;
    check_sets(last, disk, journal, limits, &files.ext)
}

// Reads axioms and files, and checks what must hold after them.
fn read_later<D: Disk>(
    last: &mut LastBlock,
    disk: &mut D,
    journal: &Journal,
    limits: &Limits,
    words: &Words,
    slots: FileSlots,
    memory: &mut LaterMemory,
) -> Result<Files, OpenFault>
    requires readable { IsReadable limits.now journal.now (D.meaning disk.old) }
    requires words { AreFirstWords limits.now words.now limits.now.props }
    requires slots { slots ≡ no_files limits.now }
    requires memory { IsEmptyLater limits.now memory.old }
    ensures marks { memory.new.marks ≡ memory.old.marks }
    ensures disk { ReadsPart (D.meaning disk.old) (D.meaning disk.new) result }
    ensures read { IfOk result (λ files. (marks : List Bool) → AreRead limits.now words.now memory.new.axioms files marks) }
    ensures ended { (kept : ℕ → List ℕ) → Fits journal.now (D.meaning disk.old) kept → Recalls last.old kept
        → Passes limits.now kept 2 (WordsAreSpelled limits.now kept words.now limits.now.props)
        → LaterEnded limits.now kept words.now memory.new.axioms result }
{
    let files = read_slots(last, disk, journal, limits, words, slots, memory)?;
    match check_parts(last, disk, journal, limits, words, &files, memory) {
        Ok(()) => Ok(files),
        Err(fault) => {
            files.close();
            Err(fault)
        }
    }
}

// Reads and checks all parts in their order.
fn read_parts<D: Disk>(
    disk: &mut D,
    journal: &Journal,
    limits: &Limits,
    word_slots: WordSlots,
    file_slots: FileSlots,
    memory: &mut LaterMemory,
) -> Result<(Words, Files), OpenFault>
    requires readable { IsReadable limits.now journal.now (D.meaning disk.old) }
    requires word_slots { word_slots ≡ no_words limits.now }
    requires file_slots { file_slots ≡ no_files limits.now }
    requires memory { IsEmptyLater limits.now memory.old }
    ensures marks { memory.new.marks ≡ memory.old.marks }
    ensures disk { ReadsPart (D.meaning disk.old) (D.meaning disk.new) result }
    ensures read { IfOk result (λ parts. (marks : List Bool) → AreRead limits.now parts.0 memory.new.axioms parts.1 marks) }
    ensures ended { (kept : ℕ → List ℕ) → Fits journal.now (D.meaning disk.old) kept
        → AllEnded limits.now kept memory.new.axioms result }
{
    let mut last = LastBlock::new();
    let words = read_words(&mut last, disk, journal, limits, word_slots)?;
    match read_later(&mut last, disk, journal, limits, &words, file_slots, memory) {
        Ok(files) => Ok((words, files)),
        Err(fault) => {
            words.close();
            Err(fault)
        }
    }
}

/// Reads all that a store keeps in memory, and checks that the image represents a state. It allocates no memory.
pub fn read_store<D: Disk>(
    disk: &mut D,
    limits: Limits,
    journal: Journal,
    memory: OpeningMemory,
) -> Result<Store, OpenFault>
    requires readable { IsReadable limits journal (D.meaning disk.old) }
    requires memory { IsEmptyMemory limits memory }
    requires unplaced { journal.placed ≡ [] }
    ensures disk { ReadsPart (D.meaning disk.old) (D.meaning disk.new) result }
    ensures sound { IfOk result IsSound }
    ensures journal { IfOk result (λ store. store.journal ≡ journal) }
    ensures unbroken { IfOk result (λ store. store.is_broken ≡ false) }
    ensures ended { (kept : ℕ → List ℕ) → Fits journal (D.meaning disk.old) kept
        → SpellsSuper limits (kept 0) → StoreEnded limits kept result }
{
    let OpeningMemory {
        words,
        files,
        mut later,
    } = memory;
    let (words, files) = match read_parts(disk, &journal, &limits, words, files, &mut later) {
        Ok(parts) => parts,
        // Dropped by a call, since a function's end is checked with all that is dropped there.
        Err(fault) => {
            later.close();
            return Err(fault);
        }
    };
    let scratch = later.scratch;
    let metadata = Metadata::join(Fields {
        limits,
        dict: words.dict,
        declared: words.declared,
        axioms: later.axioms.slots,
        taxonomy: later.axioms.taxonomy,
        catalog: files.catalog,
        map: files.map,
        ext: files.ext,
        marks: later.marks,
    });
    Ok(Store::join(Built {
        metadata,
        journal,
        bytes: scratch.bytes,
    }))
}
