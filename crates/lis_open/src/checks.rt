//! What else must hold of an image: each word is in use, and the bitmap, the rows and the sets are right.

ghost use Rattle.std.specs.Prelude.{◌≡◌, ◌↔◌, ◌+◌, ◌/◌, ◌<◌, ◌≤◌, ◌||◌, ◌&&◌, not, is_some, ℕ, Bool, List, length, false, Some, slice_get, IsTrue, IfOk, IfNone, IfSome};
ghost use Rattle.std.specs.List.{list_any};
ghost use Rattle.lis_ports.specs.Calls.{ReadsDisk};
ghost use Rattle.lis_journal.specs.Images.{Fits};
ghost use Rattle.lis_bits.specs.Rows.{HasShape, get};
ghost use Rattle.lis_blockmap.specs.Bitmap.{is_taken, bitmap_bytes, IsFirstDifference};
ghost use Rattle.lis_dict.specs.Dict.{word_of};
ghost use Rattle.lis_ext.specs.Ext.{has, set_of};
ghost use Rattle.lis_fields.specs.Layouts.{set_bytes};
ghost use Rattle.lis_fields.specs.declared.slots.AxiomSlot.TheVariants.{Pair};
ghost use Rattle.lis_model.specs.Ranges.{are_in_range};
ghost use Rattle.lis_model.specs.Image.{bitmap_start, bitmap_blocks};
ghost use Rattle.lis_kept.specs.Areas.{axiom_slots, row_slots, set_slots};
ghost use Rattle.lis_kept.specs.Rows.{row_bytes};
ghost use Rattle.lis_kept.specs.Telling.{is_had, is_left_of, is_left_head_of};
ghost use Rattle.lis_open.specs.Reading.{Recalls, ReadsPart, IsReadable};
ghost use Rattle.lis_open.specs.ReadWords.{AreWords, AreFirstWords, AreFirstAxioms};
ghost use Rattle.lis_open.specs.ReadFiles.{AreFiles};
ghost use Rattle.lis_open.specs.ReadAll.{metadata_in, WordsChecked, BitmapChecked, IsRowSpelled, RowsChecked, IsSetSpelled, SetsChecked};

use crate::axioms::{Axioms, head_number};
use crate::blocks::LastBlock;
use crate::files::Files;
use crate::mounting::OpenFault;
use crate::words::Words;
use lis_bits::Rows;
use lis_blockmap::BlockMap;
use lis_ext::Ext;
use lis_fields::{AxiomSlot, are_zeros, write_set};
use lis_journal::Journal;
use lis_kept::{bitmap_start, descriptions_start};
use lis_limits::{BLOCK_BITS, BLOCK_LEN, MAX_FILES, SET_LEN};
use lis_model::limits::{Limits, bitmap_blocks};
use lis_model::spot::Spot;
use lis_ports::{Disk, Failed};

/// How many bytes a row has if the image has the most files. In version 3 there are no rows.
const MAX_ROW: usize = MAX_FILES as usize / 8;

// Marks the left side of an axiom, and its head if it is valued.
fn mark_left(words: &Words, row: &mut Rows, slot: AxiomSlot)
    requires words { AreWords words.now }
    requires left { (left right : ℕ) → slot ≡ Pair left right → left < words.now.dict.props }
    requires shape { HasShape row.old 1 words.now.dict.props }
    ensures shape { HasShape row.new 1 words.now.dict.props }
    ensures bits { (n : ℕ) → n < words.now.dict.props
        → get row.new 0 n ≡ (get row.old 0 n || (is_left_of n slot || is_left_head_of words.now.dict n slot)) }
{
    let AxiomSlot::Pair(left, _) = slot else {
        return;
    };
    row.put(0, left, true);
    let Some(head) = head_number(words, left) else {
        return;
    };
    row.put(0, head, true);
}

// Makes a row of the left sides of axioms, and of the heads of those that are valued.
fn mark_lefts(words: &Words, axioms: &Axioms, row: &mut Rows)
    requires words { AreWords words.now }
    requires lefts { (k left right : ℕ) → slice_get axioms.now.slots.items k ≡ Some (Pair left right) → left < words.now.dict.props }
    requires shape { HasShape row.old 1 words.now.dict.props }
    ensures shape { HasShape row.new 1 words.now.dict.props }
    ensures bits { (n : ℕ) → n < words.now.dict.props
        → get row.new 0 n ≡ list_any (λ slot. is_left_of n slot || is_left_head_of words.now.dict n slot) axioms.now.slots.items }
{
    row.fill(0, false);
    for slot in axioms.slots.as_slice() {
        mark_left(words, row, *slot);
    }
}

// Whether the number has a word that is not declared, is in no description, and is not marked as a left side or the head of one.
fn is_stray(words: &Words, ext: &Ext, lefts: &Rows, number: u32) -> bool
    requires words { AreWords words.now }
    requires props { ext.now.props ≡ words.now.dict.props }
    requires shape { HasShape lefts.now 1 words.now.dict.props }
    requires below { number < words.now.dict.props }
    ensures { result ≡ (is_some (word_of words.now.dict number)
        && not (is_taken words.now.declared number || is_had ext.now number || get lefts.now 0 number)) }
{
    if words.dict.word_of(number).is_none() {
        return false;
    }
    if words.declared.get(number) {
        return false;
    }
    if ext.is_had(number) {
        return false;
    }
    !lefts.get(0, number)
}

/// Checks that each word is declared, in a description, or the left side of an axiom or the head of one.
pub fn check_words(
    limits: &Limits,
    words: &Words,
    axioms: &Axioms,
    files: &Files,
    row: &mut Rows,
) -> Result<(), OpenFault>
    requires range { IsTrue (are_in_range limits.now) }
    requires words { AreFirstWords limits.now words.now limits.now.props }
    requires axioms { AreFirstAxioms limits.now words.now axioms.now (axiom_slots limits.now).count }
    requires files { AreFiles limits.now words.now axioms.now files.now }
    requires shape { HasShape row.old 1 limits.now.props }
    ensures { (marks : List Bool) → WordsChecked (metadata_in limits.now words.now axioms.now files.now marks) result }
{
    mark_lefts(words, axioms, row);
    for number in 0..limits.props {
        if is_stray(words, &files.ext, row, number) {
            return Err(OpenFault::Damaged(Spot::Word(number)));
        }
    }
    Ok(())
}

// Reads block `n` of the bitmap. The result is the first of its bits that is not as its data block: taken or free.
fn read_bits<D: Disk>(
    disk: &mut D,
    journal: &Journal,
    limits: &Limits,
    map: &BlockMap,
    n: u32,
) -> Result<Option<u32>, Failed>
    requires readable { IsReadable limits.now journal.now (D.meaning disk.old) }
    requires there { n < bitmap_blocks limits.now }
    requires map { length map.now ≡ limits.now.blocks }
    ensures disk { ReadsDisk (D.meaning disk.old) (D.meaning disk.new) result }
    ensures same { IfOk result (λ found. IfNone found ((kept : ℕ → List ℕ) → Fits journal.now (D.meaning disk.old) kept
        → kept (bitmap_start limits.now + n) ≡ bitmap_bytes n map.now)) }
    ensures within { IfOk result (λ found. IfSome found (λ bit. bit < BLOCK_BITS)) }
    ensures differs { IfOk result (λ found. IfSome found (λ bit. (kept : ℕ → List ℕ) → Fits journal.now (D.meaning disk.old) kept
        → IsFirstDifference n (kept (bitmap_start limits.now + n)) map.now bit)) }
{
    let mut bytes = [0; BLOCK_LEN];
    journal.read(disk, bitmap_start(limits) + n, &mut bytes)?;
    Ok(map.first_difference(n, &bytes))
}

/// Checks that the bitmap shows which data blocks files use.
pub fn check_bitmap<D: Disk>(
    disk: &mut D,
    journal: &Journal,
    limits: &Limits,
    map: &BlockMap,
) -> Result<(), OpenFault>
    requires readable { IsReadable limits.now journal.now (D.meaning disk.old) }
    requires map { length map.now ≡ limits.now.blocks }
    ensures disk { ReadsPart (D.meaning disk.old) (D.meaning disk.new) result }
    ensures ended { (kept : ℕ → List ℕ) → Fits journal.now (D.meaning disk.old) kept
        → BitmapChecked limits.now kept map.now result }
{
    for n in 0..bitmap_blocks(limits) {
        if let Some(bit) = read_bits(disk, journal, limits, map, n)? {
            return Err(OpenFault::Damaged(Spot::Bitmap(BLOCK_BITS * n + bit)));
        }
    }
    Ok(())
}

// How many rows there is room for in the part.
fn row_count(limits: &Limits) -> u32
    requires { IsTrue (are_in_range limits.now) }
    ensures { result ≡ (row_slots limits.now).count }
{
    if limits.version == 3 {
        return 0;
    }
    let per_block = BLOCK_LEN as u32 / (limits.files / 8);
    per_block * (bitmap_start(limits) - descriptions_start(limits))
}

// Whether the bytes are those of a number's row. Past the last number a row is zeros.
fn is_row(ext: &Ext, limits: &Limits, number: u32, bytes: &[u8]) -> bool
    requires range { IsTrue (are_in_range limits.now) }
    requires props { ext.now.props ≡ limits.now.props }
    requires files { length ext.now.sets ≡ limits.now.files }
    requires rest { (n slot : ℕ) → limits.now.props ≤ n → has ext.now n slot ≡ false }
    requires width { length bytes.now ≡ limits.now.files / 8 }
    ensures { IsTrue result ↔ (bytes.now ≡ row_bytes ext.now number) }
{
    if number >= limits.props {
        return are_zeros(bytes);
    }
    ext.has_row_bytes(number, bytes)
}

// Whether row slot p is spelled as memory requires.
fn read_row<D: Disk>(
    last: &mut LastBlock,
    disk: &mut D,
    journal: &Journal,
    limits: &Limits,
    ext: &Ext,
    p: u32,
) -> Result<bool, Failed>
    requires readable { IsReadable limits.now journal.now (D.meaning disk.old) }
    requires p { p < (row_slots limits.now).count }
    requires props { ext.now.props ≡ limits.now.props }
    requires files { length ext.now.sets ≡ limits.now.files }
    requires rest { (n slot : ℕ) → limits.now.props ≤ n → has ext.now n slot ≡ false }
    ensures disk { ReadsDisk (D.meaning disk.old) (D.meaning disk.new) result }
    ensures recalls { (kept : ℕ → List ℕ) → Fits journal.now (D.meaning disk.old) kept → Recalls last.old kept → Recalls last.new kept }
    ensures read { IfOk result (λ is_same. (kept : ℕ → List ℕ) → Fits journal.now (D.meaning disk.old) kept → Recalls last.old kept
        → (IsTrue is_same ↔ IsRowSpelled limits.now kept ext.now p)) }
{
    let mut row = [0; MAX_ROW];
    let row = &mut row[..limits.files as usize / 8];
    last.read_slot(disk, journal, descriptions_start(limits), p, row)?;
    Ok(is_row(ext, limits, p, row))
}

/// Checks that each row shows which file's description has its word, and that the rest of the part after the last row is zero.
pub fn check_rows<D: Disk>(
    last: &mut LastBlock,
    disk: &mut D,
    journal: &Journal,
    limits: &Limits,
    ext: &Ext,
) -> Result<(), OpenFault>
    requires readable { IsReadable limits.now journal.now (D.meaning disk.old) }
    requires props { ext.now.props ≡ limits.now.props }
    requires files { length ext.now.sets ≡ limits.now.files }
    requires rest { (n slot : ℕ) → limits.now.props ≤ n → has ext.now n slot ≡ false }
    ensures disk { ReadsPart (D.meaning disk.old) (D.meaning disk.new) result }
    ensures recalls { (kept : ℕ → List ℕ) → Fits journal.now (D.meaning disk.old) kept → Recalls last.old kept → Recalls last.new kept }
    ensures ended { (kept : ℕ → List ℕ) → Fits journal.now (D.meaning disk.old) kept → Recalls last.old kept
        → RowsChecked limits.now kept ext.now result }
{
    for p in 0..row_count(limits) {
        if !read_row(last, disk, journal, limits, ext, p)? {
            return Err(OpenFault::Damaged(Spot::Row(p.min(limits.props))));
        }
    }
    Ok(())
}

// How many sets the image has.
fn set_count(limits: &Limits) -> u32
    ensures { result ≡ (set_slots limits.now).count }
{
    if limits.version == 3 { limits.files } else { 0 }
}

// Whether the bytes are those of the set of the file in a slot.
fn is_set(ext: &Ext, slot: u32, bytes: &[u8]) -> bool
    requires slot { slot < length ext.now.sets }
    ensures { IsTrue result ↔ (bytes.now ≡ set_bytes (set_of ext.now slot)) }
{
    let mut spelled = [0; SET_LEN];
    write_set(ext.numbers(slot), &mut spelled);
    bytes == spelled.as_slice()
}

// Whether set i is spelled as memory requires.
fn read_set<D: Disk>(
    last: &mut LastBlock,
    disk: &mut D,
    journal: &Journal,
    limits: &Limits,
    ext: &Ext,
    i: u32,
) -> Result<bool, Failed>
    requires readable { IsReadable limits.now journal.now (D.meaning disk.old) }
    requires i { i < (set_slots limits.now).count }
    requires files { length ext.now.sets ≡ limits.now.files }
    ensures disk { ReadsDisk (D.meaning disk.old) (D.meaning disk.new) result }
    ensures recalls { (kept : ℕ → List ℕ) → Fits journal.now (D.meaning disk.old) kept → Recalls last.old kept → Recalls last.new kept }
    ensures read { IfOk result (λ is_same. (kept : ℕ → List ℕ) → Fits journal.now (D.meaning disk.old) kept → Recalls last.old kept
        → (IsTrue is_same ↔ IsSetSpelled limits.now kept ext.now i)) }
{
    let mut bytes = [0; SET_LEN];
    last.read_slot(disk, journal, descriptions_start(limits), i, &mut bytes)?;
    Ok(is_set(ext, i, &bytes))
}

/// Checks that each set has the numbers of the words of its file's description.
pub fn check_sets<D: Disk>(
    last: &mut LastBlock,
    disk: &mut D,
    journal: &Journal,
    limits: &Limits,
    ext: &Ext,
) -> Result<(), OpenFault>
    requires readable { IsReadable limits.now journal.now (D.meaning disk.old) }
    requires files { length ext.now.sets ≡ limits.now.files }
    ensures disk { ReadsPart (D.meaning disk.old) (D.meaning disk.new) result }
    ensures ended { (kept : ℕ → List ℕ) → Fits journal.now (D.meaning disk.old) kept → Recalls last.old kept
        → SetsChecked limits.now kept ext.now result }
{
    for i in 0..set_count(limits) {
        if !read_set(last, disk, journal, limits, ext, i)? {
            return Err(OpenFault::Damaged(Spot::Set(i)));
        }
    }
    Ok(())
}
