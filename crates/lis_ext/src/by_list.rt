//! What is asked of the files that have a number, by a look at the list of each file.

ghost use Rattle.std.specs.Prelude.{◌≡◌, ℕ, ◌+◌, ◌*◌, ◌<◌, ◌≤◌, ◌↔◌, ◌&&◌, [], length, slice_index_or, IsTrue};
ghost use Rattle.std.specs.List.Sorted.{IsStrictlyIncreasing};
ghost use Rattle.lis_bits.specs.Rows.{get, SetsBits};
ghost use Rattle.lis_bits.specs.Bytes.{bits_number, bits_bytes};
ghost use Rattle.lis_ext.specs.Numbers.{has_number};
ghost use Rattle.lis_ext.specs.Inside.{has_in, ListsRise};

use crate::lists::Lists;
use lis_bits::Rows;
use lis_limits::V3_MAX_FILES;

/// Whether the number is one of these, which rise.
pub(crate) fn is_among(numbers: &[u32], number: u32) -> bool
    requires { IsStrictlyIncreasing numbers.now }
    ensures { result ≡ has_number numbers.now number }
{
    numbers.binary_search(&number).is_ok()
}

/// Whether each file in row 0 has a number.
pub(crate) fn all_have(lists: &Lists, files: u32, prop: u32, found: &Rows) -> bool
    requires rise { ListsRise lists.now }
    requires files { files ≡ length lists.now }
    requires row { 0 < length found.now.rows }
    requires bits { found.now.bits ≡ files }
    ensures { IsTrue result ↔ ((i : ℕ) → i < files → IsTrue (get found.now 0 i) → IsTrue (has_in lists.now prop i)) }
{
    for file in 0..files {
        if found.get(0, file) && !is_among(lists.numbers(file), prop) {
            return false;
        }
    }
    true
}

/// Keeps in a row only the files that have a number.
pub(crate) fn and_row(lists: &Lists, files: u32, prop: u32, to: &mut Rows, row: u32)
    requires rise { ListsRise lists.now }
    requires files { files ≡ length lists.now }
    requires bits { to.old.bits ≡ files }
    requires row { row < length to.old.rows }
    ensures { SetsBits to.old to.new (length to.old.rows) to.old.bits row (λ bit. get to.old row bit && has_in lists.now prop bit) }
{
    for file in 0..files {
        if to.get(row, file) && !is_among(lists.numbers(file), prop) {
            to.put(row, file, false);
        }
    }
}

/// Writes the files that have a number into a row.
pub(crate) fn copy_row(lists: &Lists, files: u32, prop: u32, to: &mut Rows, row: u32)
    requires rise { ListsRise lists.now }
    requires files { files ≡ length lists.now }
    requires bits { to.old.bits ≡ files }
    requires row { row < length to.old.rows }
    ensures { SetsBits to.old to.new (length to.old.rows) to.old.bits row (has_in lists.now prop) }
{
    for file in 0..files {
        to.put(row, file, is_among(lists.numbers(file), prop));
    }
}

// Whether each of eight files from 8 * k on has a number, as a byte: that of the first one is its lowest bit.
fn byte_at(lists: &Lists, prop: u32, k: u32) -> u8
    requires rise { ListsRise lists.now }
    requires within { 8 * k + 8 ≤ length lists.now }
    requires few { length lists.now ≤ V3_MAX_FILES }
    ensures { result ≡ bits_number 8 (λ i. has_in lists.now prop (8 * k + i)) }
{
    let mut byte = 0;
    for done in 0..8 {
        let is_had = is_among(lists.numbers(8 * k + 7 - done), prop);
        byte = 2 * byte + u8::from(is_had);
    }
    byte
}

/// Writes the files that have a number as bytes, eight files in each.
pub(crate) fn write_bits(lists: &Lists, prop: u32, buf: &mut [u8])
    requires rise { ListsRise lists.now }
    requires room { 8 * length buf.old ≡ length lists.now }
    requires few { length lists.now ≤ V3_MAX_FILES }
    ensures { buf.new ≡ bits_bytes (length buf.old) (has_in lists.now prop) }
{
    for k in 0..buf.len() {
        buf[k] = byte_at(lists, prop, k as u32);
    }
}

/// Whether the bytes are those that `write_bits` writes.
pub(crate) fn has_bits(lists: &Lists, prop: u32, bytes: &[u8]) -> bool
    requires rise { ListsRise lists.now }
    requires room { 8 * length bytes.now ≡ length lists.now }
    requires few { length lists.now ≤ V3_MAX_FILES }
    ensures { IsTrue result ↔ bytes.now ≡ bits_bytes (length bytes.now) (has_in lists.now prop) }
{
    for (k, byte) in bytes.iter().enumerate() {
        if *byte != byte_at(lists, prop, k as u32) {
            return false;
        }
    }
    true
}
