//! The files of an image: its file slots, and the descriptions that they have.

ghost use Rattle.std.specs.Prelude.{◌≡◌, ◌<◌, ◌≤◌, ◌&&◌, nat_lt, ℕ, List, length, All, Some, None, IsTrue, IfOk, IfSome};
ghost use Rattle.std.specs.Bool.{OnTrue, OnFalse};
ghost use Rattle.std.specs.List.{list_all};
ghost use Rattle.std.specs.List.Sorted.{IsStrictlyIncreasing};
ghost use Rattle.std.specs.Option.{option_map};
ghost use Rattle.lis_ports.specs.Calls.{ReadsDisk};
ghost use Rattle.lis_journal.specs.Images.{Fits};
ghost use Rattle.lis_content.specs.Content.{marked, are_free};
ghost use Rattle.lis_dict.specs.Dict.{number_of};
ghost use Rattle.lis_taxonomy.specs.Search.{is_found};
ghost use Rattle.lis_ext.specs.Ext.{empty_ext};
ghost use Rattle.lis_ext.specs.Numbers.{numbers_where};
ghost use Rattle.lis_fields.specs.Layouts.{file_bytes, is_file, is_record};
ghost use Rattle.lis_words.specs.Words.{test_of};
ghost use Rattle.lis_model.specs.Tests.{is_met, met_tests};
ghost use Rattle.lis_model.specs.Ranges.{are_in_range};
ghost use Rattle.lis_kept.specs.Areas.{file_slots, axiom_slots};
ghost use Rattle.lis_kept.specs.Telling.{bit_of};
ghost use Rattle.lis_open.specs.Reading.{Recalls, IsReadAs, ReadsPart, IsReadable};
ghost use Rattle.lis_open.specs.ReadWords.{AreWords, declared_words, AreFirstWords, AreFirstAxioms, WordsAreSpelled, AxiomsAreSpelled};
ghost use Rattle.lis_open.specs.ReadFiles.{no_files, Gathered, AreListed, found_words, numbers_of, is_numbered, AreDescribed, TakesNumbers, TakesRecord, TakesFile, RecordFault, HasSlotFault, AreFirstRecords, RecordsEnded, AreFiles, FilesEnded, IsFreeSlot};
ghost use Rattle.lis_model.specs.Sets.{are_distinct};

use crate::axioms::Axioms;
use crate::blocks::LastBlock;
use crate::contents::read_content;
use crate::indexes::free_blocks;
use crate::mounting::OpenFault;
use crate::naming::{are_assignable, numbered};
use crate::words::Words;
use arrayvec::ArrayVec;
use lis_blockmap::BlockMap;
use lis_catalog::{Catalog, Unsorted};
use lis_content::{Buffer, MOST_BLOCKS};
use lis_derive::derive_words;
use lis_ext::Ext;
use lis_fields::{FileRec, FileSlot, read_file};
use lis_journal::Journal;
use lis_kept::files_start;
use lis_limits::{FILE_LEN, MAX_DESCRIPTION, V3_MAX_PROPS};
use lis_model::derived::Derived;
use lis_model::limits::Limits;
use lis_model::met::is_met;
use lis_model::spot::Spot;
use lis_ports::{Disk, Failed};
use lis_taxonomy::{Search, Taxonomy};
use lis_words::{Word, test_of};
use std::alloc::{AllocError, Global};

/// The files of an image, the data blocks that they use, and their descriptions.
#[derive(Drop)]
pub struct Files {
    pub catalog: Catalog,
    pub map: BlockMap,
    /// By file slot: the numbers of the words of the file's description.
    pub ext: Ext,
}

impl Files {
    /// Frees their memory. A caller that drops them by this call is not checked with the drop of all that they own.
    pub fn close(self) {}
}

/// What is read of the file slots: the records by their slots, not sorted by their names yet, and the rest as in `Files`.
#[derive(Drop)]
pub struct FileSlots {
    pub unsorted: Unsorted,
    pub map: BlockMap,
    pub ext: Ext,
}

impl FileSlots {
    /// Frees their memory, as `Files::close` does.
    pub fn close(self) {}
}

// No file has a set yet. Before version 3 images are spelled from rows.
fn no_sets(alloc: Global, limits: &Limits) -> Result<Ext, AllocError>
    requires { IsTrue (are_in_range limits.now) }
    ensures { IfOk result (λ made. made ≡ empty_ext limits.now.props limits.now.files) }
{
    if limits.version == 3 {
        return Ext::new(alloc, limits.props, limits.files);
    }
    Ext::with_rows(alloc, limits.props, limits.files)
}

/// No slot is read yet.
#[tactic(auto, unfolding(crate::specs::ReadFiles::no_files))]
pub fn no_files(alloc: Global, limits: &Limits) -> Result<FileSlots, AllocError>
    requires { IsTrue (are_in_range limits.now) }
    ensures { IfOk result (λ slots. slots ≡ no_files limits.now) }
{
    Ok(FileSlots {
        unsorted: Unsorted::new(alloc, limits.files)?,
        map: BlockMap::new(alloc, limits.blocks)?,
        ext: no_sets(alloc, limits)?,
    })
}

// Reads a file slot. The result is `None` if the slot is in no layout.
fn read_slot<D: Disk>(
    last: &mut LastBlock,
    disk: &mut D,
    journal: &Journal,
    limits: &Limits,
    slot: u32,
) -> Result<Option<FileSlot>, Failed>
    requires readable { IsReadable limits.now journal.now (D.meaning disk.old) }
    requires slot { slot < limits.now.files }
    ensures disk { ReadsDisk (D.meaning disk.old) (D.meaning disk.new) result }
    ensures form { IfOk result (λ found. IfSome found (λ file. IsTrue (is_file limits.now file))) }
    ensures recalls { (kept : ℕ → List ℕ) → Fits journal.now (D.meaning disk.old) kept → Recalls last.old kept → Recalls last.new kept }
    ensures read { IfOk result (λ found. (kept : ℕ → List ℕ) → Fits journal.now (D.meaning disk.old) kept → Recalls last.old kept
        → IsReadAs (file_bytes limits.now.version) (is_file limits.now) (file_slots limits.now) kept slot found) }
{
    let mut bytes = [0; FILE_LEN];
    last.read_slot(disk, journal, files_start(limits), slot, &mut bytes)?;
    Ok(read_file(&bytes, limits))
}

fn mark_all(map: &mut BlockMap, blocks: &[u32])
    requires free { IsTrue (are_free map.old blocks.now) }
    requires distinct { IsTrue (are_distinct blocks.now) }
    ensures { map.new ≡ marked map.old blocks.now }
{
    for block in blocks {
        map.mark(*block);
    }
}

// Whether a word of that number is a declared test that this many bytes meet. Few words are tests, so that is checked first.
fn is_met_word(words: &Words, word: &Word, number: u32, size: u64) -> bool
    requires are { AreWords words.now }
    requires number { number_of words.now.dict word.now ≡ Some number }
    ensures { result ≡ (is_met (test_of word.now) size && bit_of words.now.declared (number_of words.now.dict word.now)) }
{
    is_met(test_of(word), size) && words.declared.get(number)
}

// Finds the numbers.
fn gather(numbers: &[u32], search: &mut Search)
    requires { IsTrue (list_all (λ n. nat_lt n V3_MAX_PROPS) numbers.now) }
    ensures { Gathered search.old search.new numbers.now }
{
    for number in numbers {
        search.meet(*number);
    }
}

// Finds the numbers of the derived words. The result is whether each of them, and its head, has a number.
fn gather_derived(words: &Words, derived: &Derived, search: &mut Search) -> bool
    requires { AreWords words.now }
    ensures all { result ≡ list_all (is_numbered words.now.dict) derived.now }
    ensures gathered { OnTrue result (Gathered search.old search.new (numbers_of words.now.dict derived.now)) }
{
    for word in derived.as_slice() {
        let Some(number) = numbered(words, word) else {
            return false;
        };
        search.meet(number);
    }
    true
}

// Finds the numbers of the declared tests that a file of this size meets.
fn gather_met(words: &Words, size: u64, search: &mut Search)
    requires { AreWords words.now }
    ensures { Gathered search.old search.new (numbers_of words.now.dict (met_tests (declared_words words.now) size)) }
{
    let (start, end) = words.dict.tests();
    for k in start..end {
        let Some((word, number)) = words.dict.word_at(k) else {
            unreachable!()
        };
        if is_met_word(words, &word, number, size) {
            search.meet(number);
        }
    }
}

// The found numbers, in rising order. None comes if there are more than a description may have.
fn list_numbers(search: &Search) -> Option<ArrayVec<u32, MAX_DESCRIPTION>>
    ensures { (props : ℕ) → props ≤ V3_MAX_PROPS → ((n : ℕ) → IsTrue (is_found search.now n) → n < props)
        → AreListed (numbers_where props (is_found search.now)) (option_map (λ listed. listed.items) result) }
{
    let mut numbers = ArrayVec::new();
    let mut start = 0;
    while let Some(number) = search.next(start) {
        if numbers.is_full() {
            return None;
        }
        numbers.push(number);
        start = number + 1;
    }
    Some(numbers)
}

// The numbers of a file's description: all that its own words entail. None comes if one of these has no number, or if there are more
// than a description may have.
fn describe(
    words: &Words,
    taxonomy: &Taxonomy,
    rec: &FileRec,
    bytes: &[u8],
    search: &mut Search,
) -> Option<ArrayVec<u32, MAX_DESCRIPTION>>
    requires are { AreWords words.now }
    requires props { taxonomy.now.props ≡ words.now.dict.props }
    requires below { IsTrue (list_all (λ n. nat_lt n taxonomy.now.props) rec.now.tags) }
    ensures { AreDescribed words.now taxonomy.now rec.now (found_words words.now rec.now.name bytes.now)
        (option_map (λ listed. listed.items) result) }
{
    let derived = derive_words(&rec.name, bytes);
    search.clear();
    gather(rec.tags.as_slice(), search);
    if !gather_derived(words, &derived, search) {
        return None;
    }
    gather_met(words, bytes.len() as u64, search);
    taxonomy.close(search);
    list_numbers(search)
}

// Takes a record, marks its blocks, and gives its slot the numbers of its description.
fn file(slots: &mut FileSlots, slot: u32, rec: FileRec, blocks: &[u32], numbers: &[u32])
    requires distinct { IsTrue (are_distinct blocks.now) }
    requires free { IsTrue (are_free slots.old.map blocks.now) }
    requires slot { IsFreeSlot slots.old slot }
    requires few { length numbers.now ≤ MAX_DESCRIPTION }
    requires rise { IsStrictlyIncreasing numbers.now }
    requires in_range { All (λ n. n < slots.old.ext.props) numbers.now }
    ensures { TakesNumbers slot rec blocks.now numbers.now slots.old slots.new }
{
    mark_all(&mut slots.map, blocks);
    slots.unsorted.put(slot, rec);
    slots.ext.set_file(slot, numbers);
    slots.ext.settle();
}

/// Memory that each file is read with.
#[derive(Drop)]
pub struct FileScratch {
    /// It finds the description of the file.
    pub search: Search,
    /// Its bytes.
    pub bytes: Buffer,
    /// All blocks of the file.
    pub blocks: ArrayVec<u32, MOST_BLOCKS>,
}

/// What the reader of files only reads.
#[derive(Clone, Copy)]
pub struct Known<'a> {
    pub journal: &'a Journal,
    pub limits: &'a Limits,
    pub words: &'a Words,
    pub axioms: &'a Axioms,
}

// Takes the file of a record if it may, and returns whether it does. If nothing else is wrong with the file, it reads enough of the content
// to derive the words.
fn take_record<D: Disk>(
    disk: &mut D,
    known: Known,
    slots: &mut FileSlots,
    scratch: &mut FileScratch,
    slot: u32,
    rec: FileRec,
) -> Result<bool, Failed>
    requires readable { IsReadable known.limits.now known.journal.now (D.meaning disk.old) }
    requires are { AreWords known.words.now }
    requires form { IsTrue (is_record known.limits.now rec) }
    requires props { known.axioms.now.taxonomy.props ≡ known.words.now.dict.props }
    requires ext { slots.old.ext.props ≡ known.words.now.dict.props }
    requires map { length slots.old.map ≡ known.limits.now.blocks }
    requires slot { IsFreeSlot slots.old slot }
    ensures disk { ReadsDisk (D.meaning disk.old) (D.meaning disk.new) result }
    ensures taken { IfOk result (λ taken. OnTrue taken
        (TakesRecord known.entry.limits.now (Fits known.entry.journal.now (D.meaning disk.old)) known.entry.words.now known.entry.axioms.now.taxonomy slot rec slots.old slots.new)) }
    ensures refused { IfOk result (λ taken. OnFalse taken ((slots.new ≡ slots.old)
        × ((kept : ℕ → List ℕ) → Fits known.entry.journal.now (D.meaning disk.old) kept
        → RecordFault known.entry.limits.now kept known.entry.words.now known.entry.axioms.now.taxonomy slots.old.map rec))) }
{
    if !are_assignable(known.words, rec.tags.as_slice()) {
        return Ok(false);
    }
    let FileScratch {
        search,
        bytes,
        blocks,
    } = scratch;
    blocks.clear();
    if !free_blocks(disk, known.journal, known.limits, &slots.map, &rec, blocks)? {
        return Ok(false);
    }
    let blocks = blocks.as_slice();
    read_content(disk, known.journal, known.limits, &rec, blocks, bytes)?;
    match describe(
        known.words,
        &known.axioms.taxonomy,
        &rec,
        bytes.bytes(),
        search,
    ) {
        None => Ok(false),
        Some(numbers) => {
            file(slots, slot, rec, blocks, numbers.as_slice());
            Ok(true)
        }
    }
}

// Takes the file of a slot, and returns whether it does. It does if the slot is in its layout and the file may be taken.
fn take_file<D: Disk>(
    disk: &mut D,
    known: Known,
    slots: &mut FileSlots,
    scratch: &mut FileScratch,
    slot: u32,
    found: Option<FileSlot>,
) -> Result<bool, Failed>
    requires readable { IsReadable known.limits.now known.journal.now (D.meaning disk.old) }
    requires are { AreWords known.words.now }
    requires form { IfSome found (λ file. IsTrue (is_file known.limits.now file)) }
    requires props { known.axioms.now.taxonomy.props ≡ known.words.now.dict.props }
    requires ext { slots.old.ext.props ≡ known.words.now.dict.props }
    requires map { length slots.old.map ≡ known.limits.now.blocks }
    requires slot { IsFreeSlot slots.old slot }
    ensures disk { ReadsDisk (D.meaning disk.old) (D.meaning disk.new) result }
    ensures taken { IfOk result (λ taken. OnTrue taken
        (TakesFile known.entry.limits.now (Fits known.entry.journal.now (D.meaning disk.old)) known.entry.words.now known.entry.axioms.now.taxonomy slot found slots.old slots.new)) }
    ensures refused { IfOk result (λ taken. OnFalse taken ((slots.new ≡ slots.old)
        × ((kept : ℕ → List ℕ) → Fits known.entry.journal.now (D.meaning disk.old) kept
        → HasSlotFault known.entry.limits.now kept known.entry.words.now known.entry.axioms.now.taxonomy slots.old.map found))) }
{
    match found {
        None => Ok(false),
        Some(FileSlot::Free) => Ok(true),
        Some(FileSlot::Used(rec)) => take_record(disk, known, slots, scratch, slot, rec),
    }
}

// Reads the file slots up to the first one whose file it does not take, and returns that slot, or the number of all slots.
fn read_records<D: Disk>(
    last: &mut LastBlock,
    disk: &mut D,
    known: Known,
    slots: &mut FileSlots,
    scratch: &mut FileScratch,
) -> Result<u32, Failed>
    requires readable { IsReadable known.limits.now known.journal.now (D.meaning disk.old) }
    requires words { AreFirstWords known.limits.now known.words.now known.limits.now.props }
    requires axioms { AreFirstAxioms known.limits.now known.words.now known.axioms.now (axiom_slots known.limits.now).count }
    requires none { slots.old ≡ no_files known.limits.now }
    ensures disk { ReadsDisk (D.meaning disk.old) (D.meaning disk.new) result }
    ensures read { IfOk result (λ end. AreFirstRecords known.entry.limits.now known.entry.words.now known.entry.axioms.now slots.new end) }
    ensures recalls { (kept : ℕ → List ℕ) → Fits known.entry.journal.now (D.meaning disk.old) kept → Recalls last.old kept → Recalls last.new kept }
    ensures ended { (kept : ℕ → List ℕ) → Fits known.entry.journal.now (D.meaning disk.old) kept → Recalls last.old kept
        → WordsAreSpelled known.entry.limits.now kept known.entry.words.now known.entry.limits.now.props
        → AxiomsAreSpelled known.entry.limits.now kept known.entry.axioms.now (axiom_slots known.entry.limits.now).count
        → IfOk result (λ end. RecordsEnded known.entry.limits.now kept known.entry.words.now known.entry.axioms.now slots.new end) }
{
    for slot in 0..known.limits.files {
        let found = read_slot(last, disk, known.journal, known.limits, slot)?;
        let is_taken = take_file(disk, known, slots, scratch, slot, found)?;
        if !is_taken {
            return Ok(slot);
        }
    }
    Ok(known.limits.files)
}

/// Reads the file slots, and sorts their names once. The spot is that of the first slot that is in no layout, whose file may not be
/// taken, or that has a name of an earlier one. No slot is read past one whose file is not taken for another reason, so a name that is
/// there twice was read before it.
pub fn read_files<D: Disk>(
    last: &mut LastBlock,
    disk: &mut D,
    known: Known,
    slots: FileSlots,
    scratch: &mut FileScratch,
) -> Result<Files, OpenFault>
    requires readable { IsReadable known.limits.now known.journal.now (D.meaning disk.old) }
    requires words { AreFirstWords known.limits.now known.words.now known.limits.now.props }
    requires axioms { AreFirstAxioms known.limits.now known.words.now known.axioms.now (axiom_slots known.limits.now).count }
    requires none { slots ≡ no_files known.limits.now }
    ensures disk { ReadsPart (D.meaning disk.old) (D.meaning disk.new) result }
    ensures read { IfOk result (λ files. AreFiles known.entry.limits.now known.entry.words.now known.entry.axioms.now files) }
    ensures recalls { (kept : ℕ → List ℕ) → Fits known.entry.journal.now (D.meaning disk.old) kept → Recalls last.old kept → Recalls last.new kept }
    ensures ended { (kept : ℕ → List ℕ) → Fits known.entry.journal.now (D.meaning disk.old) kept → Recalls last.old kept
        → WordsAreSpelled known.entry.limits.now kept known.entry.words.now known.entry.limits.now.props
        → AxiomsAreSpelled known.entry.limits.now kept known.entry.axioms.now (axiom_slots known.entry.limits.now).count
        → FilesEnded known.entry.limits.now kept known.entry.words.now known.entry.axioms.now result }
{
    let mut slots = slots;
    let end = read_records(last, disk, known, &mut slots, scratch)?;
    let FileSlots { unsorted, map, ext } = slots;
    let slot = match unsorted.sort() {
        Ok(catalog) if end == known.limits.files => return Ok(Files { catalog, map, ext }),
        Ok(_) => end,
        Err(again) => again,
    };
    Err(OpenFault::Damaged(Spot::File(slot)))
}
