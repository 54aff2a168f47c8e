ghost use Rattle.std.specs.Prelude.{◌≡◌, ℕ, ◌+◌, ◌<◌, ◌≤◌, ◌^◌, true, All, List, [], length, slice_get, slice_index, slice_index_or, slice_set};
ghost use Rattle.std.specs.List.Sorted.{IsStrictlyIncreasing};
ghost use Rattle.lis_bits.specs.Rows.{HasShape, get};
ghost use Rattle.lis_ext.specs.Numbers.{differs, has_number, numbers_where};
ghost use Rattle.lis_ext.specs.Inside.{AreInStep, CountsUp, Touches, PutsBits, has_alone};

use crate::by_list::is_among;
use lis_bits::Rows;

// Adds one to the count of each number that is none of the others, and marks the number.
pub(crate) fn gain(
    counts: &mut [u32],
    marks: &mut Rows,
    props: u32,
    numbers: &[u32],
    others: &[u32],
)
    requires room { length counts.old ≡ props }
    requires marks_shape { HasShape marks.old 1 props }
    requires in_props { All (λ number. number < props) numbers.now }
    requires rise { IsStrictlyIncreasing numbers.now }
    requires others_rise { IsStrictlyIncreasing others.now }
    requires fit { (p : ℕ) → p < props → slice_index counts.old p + 1 < 2 ^ 32 }
    ensures counts { CountsUp counts.old counts.new props (has_alone numbers.now others.now) }
    ensures marks { Touches marks.old marks.new props (has_alone numbers.now others.now) }
{
    for number in numbers {
        if !is_among(others, *number) {
            counts[*number as usize] += 1;
            marks.put(0, *number, true);
        }
    }
}

// Subtracts one from the count of each number that is none of the others, and marks the number.
pub(crate) fn lose(
    counts: &mut [u32],
    marks: &mut Rows,
    props: u32,
    numbers: &[u32],
    others: &[u32],
)
    requires room { length counts.old ≡ props }
    requires marks_shape { HasShape marks.old 1 props }
    requires in_props { All (λ number. number < props) numbers.now }
    requires rise { IsStrictlyIncreasing numbers.now }
    requires others_rise { IsStrictlyIncreasing others.now }
    requires counted { (p : ℕ) → has_number numbers.now p ≡ true → 0 < slice_index counts.old p }
    ensures counts { CountsUp counts.new counts.old props (has_alone numbers.now others.now) }
    ensures marks { Touches marks.old marks.new props (has_alone numbers.now others.now) }
{
    for number in numbers {
        if !is_among(others, *number) {
            counts[*number as usize] -= 1;
            marks.put(0, *number, true);
        }
    }
}

// Sets the file's bit to the value in the row of each number that is none of the others.
fn put_bits(
    rows: &mut Rows,
    props: u32,
    files: u32,
    file: u32,
    numbers: &[u32],
    others: &[u32],
    value: bool,
)
    requires shape { HasShape rows.old props files }
    requires file { file < files }
    requires in_props { All (λ number. number < props) numbers.now }
    requires rise { IsStrictlyIncreasing numbers.now }
    requires others_rise { IsStrictlyIncreasing others.now }
    ensures { PutsBits rows.old rows.new props files file (has_alone numbers.now others.now) value }
{
    for number in numbers {
        if !is_among(others, *number) {
            rows.put(*number, file, value);
        }
    }
}

// Puts the file's new numbers in place of its old ones in the rows, if there are rows.
pub(crate) fn replace_bits(
    rows: &mut Rows,
    kept: u32,
    files: u32,
    file: u32,
    old: &[u32],
    new: &[u32],
)
    requires shape { HasShape rows.old kept files }
    requires file { file < files }
    requires old_in { 0 < kept → All (λ number. number < kept) old.now }
    requires new_in { 0 < kept → All (λ number. number < kept) new.now }
    requires old_rises { IsStrictlyIncreasing old.now }
    requires new_rises { IsStrictlyIncreasing new.now }
    ensures shape { HasShape rows.new kept files }
    ensures in_step { (lists : List (List ℕ)) → length lists ≡ files → slice_index_or lists file [] ≡ old.now
        → AreInStep lists rows.old kept files → AreInStep (slice_set lists file new.now) rows.new kept files }
    ensures edits { rows.new.edits ≤ rows.old.edits + length (numbers_where kept (differs old.now new.now)) }
    ensures no_fewer { rows.old.edits ≤ rows.new.edits }
{
    if kept > 0 {
        put_bits(rows, kept, files, file, old, new, false);
        put_bits(rows, kept, files, file, new, old, true);
    }
}

// Adds one to the count of each of these numbers.
pub(crate) fn count_all(counts: &mut [u32], numbers: &[u32])
    requires in_counts { All (λ number. number < length counts.old) numbers.now }
    requires rise { IsStrictlyIncreasing numbers.now }
    requires fit { (p : ℕ) → p < length counts.old → slice_index counts.old p + 1 < 2 ^ 32 }
    ensures { CountsUp counts.old counts.new (length counts.old) (has_number numbers.now) }
{
    for number in numbers {
        counts[*number as usize] += 1;
    }
}

// The number of the k-th true bit of the first row.
pub(crate) fn true_bit(marks: &Rows, props: u32, k: u32) -> Option<u32>
    requires { HasShape marks.now 1 props }
    ensures { result ≡ slice_get (numbers_where props (get marks.now 0)) k }
{
    let mut start = 0;
    for _ in 0..k {
        start = marks.next(0, start)? + 1;
    }
    marks.next(0, start)
}
