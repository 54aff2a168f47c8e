//! The fields of which the parts of an image are made.

ghost use Rattle.std.specs.Prelude.{◌+◌, ◌≡◌, ℕ, ◌*◌, ◌≤◌, ◌==◌, List, length, IfSome, IsSomeAnd, IsTrue};
ghost use Rattle.std.specs.List.{list_all, flat_map};
ghost use Rattle.byteorder.specs.Endian.{little_bytes};
ghost use Rattle.lis_fields.specs.Layouts.{text_bytes, zeros, number_width, numbers};
ghost use Rattle.lis_model.specs.Sets.{fit};

use crate::numbers::{number_width, read_wide, write_wide};
use arrayvec::ArrayVec;
use byteorder::{ByteOrder, LittleEndian};
use lis_limits::MAX_WORD;

/// The most bytes of a text.
const MAX_TEXT: u8 = 60;

/// How many bytes the field of a text has: the length, and room for the text.
pub const TEXT_FIELD: usize = MAX_WORD + 1;

/// The most numbers of a field of numbers.
const MAX_NUMBERS: usize = 16;

/// How many bytes a field of numbers has in an image of that version.
pub fn numbers_field(version: u32) -> usize
    ensures len { result ≡ MAX_NUMBERS * number_width version }
    ensures few { result ≤ 64 }
{
    MAX_NUMBERS * number_width(version)
}

/// Whether all bytes are zero.
pub fn are_zeros(bytes: &[u8]) -> bool
    ensures { result ≡ list_all (λ b. b == 0) bytes.now }
{
    bytes.iter().all(|byte| *byte == 0)
}

/// Makes all bytes zero.
pub fn write_zeros(bytes: &mut [u8])
    ensures { bytes.new ≡ zeros (length bytes.old) }
{
    bytes.fill(0);
}

/// The number that a field of four bytes spells.
pub fn read_number(field: &[u8]) -> u32
    requires { length field.now ≡ 4 }
    ensures { field.now ≡ little_bytes 4 result }
{
    LittleEndian::read_u32(field)
}

/// Writes a number into a field of four bytes.
pub fn write_number(number: u32, field: &mut [u8])
    requires { length field.old ≡ 4 }
    ensures { field.new ≡ little_bytes 4 number }
{
    LittleEndian::write_u32(field, number);
}

/// The text of a field of 61 bytes. None exactly if the field spells no text.
pub fn read_text(field: &[u8]) -> Option<&[u8]>
    requires { length field.now ≡ MAX_WORD + 1 }
    ensures spelled { IfSome result (λ text. (length text.now ≤ MAX_WORD) × (field.now ≡ text_bytes text.now)) }
    ensures same { (text : List ℕ) → length text ≤ MAX_WORD → field.now ≡ text_bytes text → IsSomeAnd result (λ found. found.now ≡ text) }
{
    let (len, rest) = field.split_first()?;
    if *len > MAX_TEXT {
        return None;
    }
    let (text, padding) = rest.split_at(*len as usize);
    if !are_zeros(padding) {
        return None;
    }
    Some(text)
}

/// Writes a text into a field of 61 bytes.
#[tactic(auto, unfolding(crate::specs::Layouts::zeros))]
pub fn write_text(text: &[u8], field: &mut [u8])
    requires len { length field.old ≡ MAX_WORD + 1 }
    requires short { length text.now ≤ MAX_WORD }
    ensures { field.new ≡ text_bytes text.now }
{
    let (len, rest) = field.split_at_mut(1);
    len[0] = text.len() as u8;
    let (start, padding) = rest.split_at_mut(text.len());
    start.copy_from_slice(text);
    write_zeros(padding);
}

fn read_list(bytes: &[u8], count: usize, version: u32) -> ArrayVec<u32, 16>
    requires count { count ≤ MAX_NUMBERS }
    requires len { length bytes.now ≡ number_width version * count }
    ensures len { length result.items ≡ count }
    ensures fit { IsTrue (fit (number_width version) result.items) }
    ensures spelled { bytes.now ≡ flat_map (little_bytes (number_width version)) result.items }
{
    let mut held = [0; MAX_NUMBERS];
    let (used, _) = held.split_at_mut(count);
    read_wide(bytes, used, version);
    let mut numbers = ArrayVec::new();
    numbers.try_extend_from_slice(used).unwrap();
    numbers
}

/// The `count` numbers of a field for up to 16. None exactly if the field spells no such numbers.
pub fn read_numbers(field: &[u8], count: usize, version: u32) -> Option<ArrayVec<u32, 16>>
    requires { length field.now ≡ MAX_NUMBERS * number_width version }
    ensures spelled { IfSome result (λ found. (length found.items ≡ count) × (count ≤ MAX_NUMBERS)
        × IsTrue (fit (number_width version) found.items) × (field.now ≡ numbers (number_width version) found.items)) }
    ensures same { (ns : List ℕ) → length ns ≡ count → count ≤ MAX_NUMBERS → IsTrue (fit (number_width version) ns)
        → field.now ≡ numbers (number_width version) ns → IsSomeAnd result (λ found. found.items ≡ ns) }
{
    if count > MAX_NUMBERS {
        return None;
    }
    let (start, padding) = field.split_at(number_width(version) * count);
    if !are_zeros(padding) {
        return None;
    }
    Some(read_list(start, count, version))
}

/// Writes numbers into a field for up to 16.
#[tactic(auto, unfolding(crate::specs::Layouts::zeros))]
pub fn write_numbers(list: &[u32], field: &mut [u8], version: u32)
    requires len { length field.old ≡ MAX_NUMBERS * number_width version }
    requires few { length list.now ≤ MAX_NUMBERS }
    ensures { field.new ≡ numbers (number_width version) list.now }
{
    let (start, padding) = field.split_at_mut(number_width(version) * list.len());
    write_wide(list, start, version);
    write_zeros(padding);
}
