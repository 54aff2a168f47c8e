//! File slots.

ghost use Rattle.std.specs.Prelude.{◌-◌, ◌*◌, ◌+◌, ◌≡◌, ◌==◌, ◌++◌, ℕ, ◌≤◌, List, length, Option, Some, IfSome, IsSomeAnd, IsTrue};
ghost use Rattle.std.specs.List.{list_any};
ghost use Rattle.std.specs.Ordering.{nat_cmp};
ghost use Rattle.lis_graph.specs.Graph.{is_rising};
ghost use Rattle.lis_words.specs.Words.{is_file_name};
ghost use Rattle.lis_fields.specs.Records.{FileRecord};
ghost use Rattle.lis_fields.specs.Layouts.{file_start, number_width, numbers, record_bytes, file_bytes, are_tags, slot_blocks, are_blocks, is_record, is_file};
ghost use Rattle.lis_fields.specs.declared.slots.FileSlot.{FileSlot};
ghost use Rattle.lis_model.specs.Sets.{are_distinct};

use crate::fields::{
    TEXT_FIELD, are_zeros, numbers_field, read_number, read_numbers, read_text, write_number,
    write_numbers, write_text, write_zeros,
};
use crate::slots::{FileRec, FileSlot};
use arrayvec::ArrayVec;
use lis_limits::{BLOCK_LEN, FILE_LEN, MAX_ASSIGNED, NUMBERS_PER_INDEX, SLOT_BLOCKS};
use lis_model::limits::{Limits, file_limit};
use lis_words::{Name, read_name};

/// How many bytes are before the size.
const START_LEN: usize = 64;

/// How many block numbers the slot of a file has: those of its content, or of the blocks that number these.
fn slot_blocks(version: u32, size: u32) -> u32
    ensures { result ≡ slot_blocks version size }
{
    let needed = size.div_ceil(BLOCK_LEN as u32);
    if version == 1 || needed <= SLOT_BLOCKS {
        return needed;
    }
    needed.div_ceil(NUMBERS_PER_INDEX)
}

/// Whether each number is above the one before it.
pub(crate) fn rise(numbers: &[u32]) -> bool
    ensures { result ≡ is_rising nat_cmp numbers.now }
{
    let mut floor = 0;
    for number in numbers {
        if u64::from(*number) < floor {
            return false;
        }
        floor = u64::from(*number) + 1;
    }
    true
}

fn is_among(number: u32, others: &[u32]) -> bool
    ensures { result ≡ list_any (λ other. other == number) others.now }
{
    others.iter().any(|other| *other == number)
}

fn are_distinct(numbers: &[u32]) -> bool
    ensures { result ≡ are_distinct numbers.now }
{
    for (k, number) in numbers.iter().enumerate() {
        let (_, behind) = numbers.split_at(k + 1);
        if is_among(*number, behind) {
            return false;
        }
    }
    true
}

/// The name, and how many assigned words there are.
fn read_start(bytes: &[u8]) -> Option<(Name, u8)>
    requires { length bytes.now ≡ START_LEN }
    ensures spelled { IfSome result (λ found. IsTrue (is_file_name found.0) × (bytes.now ≡ file_start found.0 found.1)) }
    ensures same { (name : List ℕ) (count : ℕ) → IsTrue (is_file_name name) → bytes.now ≡ file_start name count
        → result ≡ Some (name, count) }
{
    let (kind, rest) = bytes.split_first()?;
    if *kind != 1 {
        return None;
    }
    let (text, end) = rest.split_at(TEXT_FIELD);
    let (count, gap) = end.split_first()?;
    if !are_zeros(gap) {
        return None;
    }
    let name = read_name(read_text(text)?)?;
    Some((name, *count))
}

/// The slot numbers of the assigned words.
fn read_tags(field: &[u8], count: usize, version: u32) -> Option<ArrayVec<u32, 16>>
    requires { length field.now ≡ MAX_ASSIGNED * number_width version }
    ensures spelled { IfSome result (λ found.
        (length found.items ≡ count) × IsTrue (are_tags version found.items) × (field.now ≡ numbers (number_width version) found.items)) }
    ensures same { (tags : List ℕ) → length tags ≡ count → IsTrue (are_tags version tags) → field.now ≡ numbers (number_width version) tags
        → IsSomeAnd result (λ found. found.items ≡ tags) }
{
    let tags = read_numbers(field, count, version)?;
    if !rise(tags.as_slice()) {
        return None;
    }
    Some(tags)
}

/// The block numbers of a file of that size.
fn read_blocks(field: &[u8], size: u32, version: u32) -> Option<ArrayVec<u32, 16>>
    requires len { length field.now ≡ MAX_ASSIGNED * number_width version }
    requires few { slot_blocks version size ≤ MAX_ASSIGNED }
    ensures spelled { IfSome result (λ found.
        IsTrue (are_blocks version size found.items) × (field.now ≡ numbers (number_width version) found.items)) }
    ensures same { (blocks : List ℕ) → IsTrue (are_blocks version size blocks) → field.now ≡ numbers (number_width version) blocks
        → IsSomeAnd result (λ found. found.items ≡ blocks) }
{
    let blocks = read_numbers(field, slot_blocks(version, size) as usize, version)?;
    if !are_distinct(blocks.as_slice()) {
        return None;
    }
    Some(blocks)
}

/// A file slot, cut into its fields.
#[derive(Clone, Copy)]
struct FileFields<'a> {
    start: &'a [u8],
    size: &'a [u8],
    tags: &'a [u8],
    block_numbers: &'a [u8],
    end: &'a [u8],
}

fn cut(bytes: &[u8], version: u32) -> FileFields<'_>
    requires { length bytes.now ≡ FILE_LEN }
    ensures whole { bytes.now
        ≡ result.start.now ++ (result.size.now ++ (result.tags.now ++ (result.block_numbers.now ++ result.end.now))) }
    ensures start_len { length result.start.now ≡ START_LEN }
    ensures size_len { length result.size.now ≡ 4 }
    ensures tags_len { length result.tags.now ≡ MAX_ASSIGNED * number_width version }
    ensures blocks_len { length result.block_numbers.now ≡ MAX_ASSIGNED * number_width version }
    ensures end_len { length result.end.now ≡ FILE_LEN - (START_LEN + 4 + 2 * (MAX_ASSIGNED * number_width version)) }
{
    let width = numbers_field(version);
    let (start, rest) = bytes.split_at(START_LEN);
    let (size, rest) = rest.split_at(4);
    let (tags, rest) = rest.split_at(width);
    let (block_numbers, end) = rest.split_at(width);
    FileFields {
        start,
        size,
        tags,
        block_numbers,
        end,
    }
}

fn read_record(bytes: &[u8], limits: &Limits) -> Option<FileRec>
    requires { length bytes.now ≡ FILE_LEN }
    ensures spelled { IfSome result (λ rec. IsTrue (is_record limits.now rec) × (bytes.now ≡ record_bytes limits.now.version rec)) }
    ensures same { (rec : FileRecord) → IsTrue (is_record limits.now rec) → bytes.now ≡ record_bytes limits.now.version rec → result ≡ Some rec }
{
    let fields = cut(bytes, limits.version);
    if !are_zeros(fields.end) {
        return None;
    }
    let size = read_number(fields.size);
    let most = file_limit(limits);
    if u64::from(size) > most {
        return None;
    }
    let (name, count) = read_start(fields.start)?;
    let tags = read_tags(fields.tags, usize::from(count), limits.version)?;
    let numbers = read_blocks(fields.block_numbers, size, limits.version)?;
    Some(FileRec {
        name,
        size,
        tags,
        blocks: numbers,
    })
}

/// Reads a file slot of an image of these limits. None exactly if the bytes are no spelling of one.
#[tactic(auto, unfolding(crate::specs::Layouts::file_bytes))]
pub fn read_file(bytes: &[u8], limits: &Limits) -> Option<FileSlot>
    ensures spelled { IfSome result (λ slot. IsTrue (is_file limits.now slot) × (bytes.now ≡ file_bytes limits.now.version slot)) }
    ensures same { (slot : FileSlot) → IsTrue (is_file limits.now slot) → bytes.now ≡ file_bytes limits.now.version slot → result ≡ Some slot }
{
    if bytes.len() != FILE_LEN {
        return None;
    }
    if are_zeros(bytes) {
        return Some(FileSlot::Free);
    }
    let rec = read_record(bytes, limits)?;
    Some(FileSlot::Used(rec))
}

fn write_start(name: &Name, count: u8, bytes: &mut [u8])
    requires { length bytes.old ≡ START_LEN }
    ensures { bytes.new ≡ file_start name.now count }
{
    let (kind, rest) = bytes.split_at_mut(1);
    let (text, end) = rest.split_at_mut(TEXT_FIELD);
    kind[0] = 1;
    write_text(name.bytes(), text);
    end.copy_from_slice(&[count, 0]);
}

fn write_record(rec: &FileRec, bytes: &mut [u8], version: u32)
    requires { length bytes.old ≡ FILE_LEN }
    ensures { bytes.new ≡ record_bytes version rec.now }
{
    let width = numbers_field(version);
    let (start, rest) = bytes.split_at_mut(START_LEN);
    let (size, rest) = rest.split_at_mut(4);
    let (tags, rest) = rest.split_at_mut(width);
    let (blocks, end) = rest.split_at_mut(width);
    write_start(&rec.name, rec.tags.len() as u8, start);
    write_number(rec.size, size);
    write_numbers(rec.tags.as_slice(), tags, version);
    write_numbers(rec.blocks.as_slice(), blocks, version);
    write_zeros(end);
}

/// Writes a file slot of an image of these limits.
#[tactic(auto, unfolding(crate::specs::Layouts::file_bytes))]
pub fn write_file(slot: &FileSlot, bytes: &mut [u8], limits: &Limits)
    requires len { length bytes.old ≡ FILE_LEN }
    requires range { IsTrue (is_file limits.now slot.now) }
    ensures { bytes.new ≡ file_bytes limits.now.version slot.now }
{
    match slot {
        FileSlot::Free => write_zeros(bytes),
        FileSlot::Used(rec) => write_record(rec, bytes, limits.version),
    }
}
