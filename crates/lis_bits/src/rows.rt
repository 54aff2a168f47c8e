ghost use Rattle.std.specs.Prelude.{◌≡◌, ℕ, ◌+◌, ◌*◌, ◌%◌, ◌^◌, ◌<◌, ◌≤◌, ◌↔◌, ◌==◌, length, slice_index, IfOk, IfSome, IfNone, IsTrue, Bool, not, ◌&&◌, ◌||◌, if◌then◌else◌};

use crate::words;
use lis_region::{Frame, Region};
use std::alloc::{AllocError, Global};
use std::marker::Model;

/// Rows of as many bits each. All memory is taken by `new`.
#[derive(Drop)]
pub struct Rows {
    region: Region<u64>,
    // The words of all rows, row by row. The first bit of a word is its lowest.
    frame: Frame,
    rows: u32,
    // How many words a row has.
    width: u32,
    edits: u64,
}

impl Model for Rows {
    ghost use Rattle.lis_bits.specs.Rows.{Rows as Table};

    ghost Value = { Table };

    ghost use Rattle.lis_bits.specs.Inside.{seen, AreSoundRows};

    ghost view = { λ r. seen r.region r.frame r.rows r.width r.edits };

    ghost invariant = { λ r. AreSoundRows r.region r.frame r.rows r.width };
}

impl Rows {
    ghost use Rattle.lis_bits.specs.Rows.{get, empty_rows, with_row, NoneTrue};
    ghost use Rattle.lis_bits.specs.Rows.{row_at, row_of};
    ghost use Rattle.lis_bits.specs.Bytes.{bits_number, bits_bytes};
    ghost use Rattle.lis_bits.specs.Words.{words_bit};
    ghost use Rattle.lis_bits.specs.Inside.{IsBitwise};

    /// New rows of one width, with all bits false.
    pub fn new(alloc: Global, rows: u32, bits: u32) -> Result<Rows, AllocError>
        requires whole_words { bits % 64 ≡ 0 }
        requires few { rows * bits ≤ 2 ^ 27 }
        ensures { IfOk result (λ made. made ≡ empty_rows rows bits) }
    {
        let width = bits / 64;
        let mut region = Region::new(alloc, 1, rows * width, 0)?;
        let Some(frame) = region.take() else {
            unreachable!()
        };
        Ok(Rows {
            region,
            frame,
            rows,
            width,
            edits: 0,
        })
    }

    /// The truth value at a bit.
    pub fn get(&self, row: u32, bit: u32) -> bool
        requires row { row < length self.now.rows }
        requires bit { bit < self.now.bits }
        ensures { result ≡ get self.now row bit }
    {
        let words = self.region.items(&self.frame);
        let word = words[row as usize * self.width as usize + bit as usize / 64];
        word >> (bit % 64) & 1 == 1
    }

    /// Sets one bit.
    pub fn put(&mut self, row: u32, bit: u32, value: bool)
        requires row { row < length self.old.rows }
        requires bit { bit < self.old.bits }
        ensures { self.new ≡ with_row self.old row (λ k. if k == bit then value else get self.old row k) }
    {
        let place = row as usize * self.width as usize + bit as usize / 64;
        let word = &mut self.region.items_mut(&self.frame)[place];
        *word = words::with_bit(*word, bit % 64, value);
        self.edits = self.edits.saturating_add(1);
    }

    /// Sets each bit of a row.
    pub fn fill(&mut self, row: u32, value: bool)
        requires { row < length self.old.rows }
        ensures { self.new ≡ with_row self.old row (λ _. value) }
    {
        let word = if value { u64::MAX } else { 0 };
        self.join(row, row, |_, _| word);
    }

    /// Sets a row to another one. The two may be one row, here and in the other joins.
    pub fn copy(&mut self, to: u32, from: u32)
        requires to { to < length self.old.rows }
        requires from { from < length self.old.rows }
        ensures { self.new ≡ with_row self.old to (λ bit. get self.old from bit) }
    {
        self.join(to, from, |_, b| b);
    }

    /// Keeps those bits of a row that are true in another one too.
    pub fn and(&mut self, to: u32, from: u32)
        requires to { to < length self.old.rows }
        requires from { from < length self.old.rows }
        ensures { self.new ≡ with_row self.old to (λ bit. get self.old to bit && get self.old from bit) }
    {
        self.join(to, from, |a, b| a & b);
    }

    /// Adds to a row the bits that are true in another one.
    pub fn or(&mut self, to: u32, from: u32)
        requires to { to < length self.old.rows }
        requires from { from < length self.old.rows }
        ensures { self.new ≡ with_row self.old to (λ bit. get self.old to bit || get self.old from bit) }
    {
        self.join(to, from, |a, b| a | b);
    }

    /// Takes from a row the bits that are true in another one.
    pub fn and_not(&mut self, to: u32, from: u32)
        requires to { to < length self.old.rows }
        requires from { from < length self.old.rows }
        ensures { self.new ≡ with_row self.old to (λ bit. get self.old to bit && not (get self.old from bit)) }
    {
        self.join(to, from, |a, b| a & !b);
    }

    /// Inverts each bit of a row.
    pub fn negate(&mut self, row: u32)
        requires { row < length self.old.rows }
        ensures { self.new ≡ with_row self.old row (λ bit. not (get self.old row bit)) }
    {
        self.join(row, row, |a, _| !a);
    }

    /// The number of calls since `new` that change a row: those above, and the joins with a row of other rows.
    /// At 2^64 - 1 it stays.
    pub fn edits(&self) -> u64
        ensures { result ≡ self.now.edits }
    {
        self.edits
    }

    /// Whether each bit that is true in the first row is true in the second one.
    pub fn subset(&self, a: u32, b: u32) -> bool
        requires a { a < length self.now.rows }
        requires b { b < length self.now.rows }
        ensures { IsTrue result
            ↔ ((bit : ℕ) → bit < self.now.bits → IsTrue (get self.now a bit) → IsTrue (get self.now b bit)) }
    {
        words::is_subset(self.words(a), self.words(b))
    }

    /// The least true bit of a row that is at least `start`. There is none if `start` is no bit of the row.
    pub fn next(&self, row: u32, start: u32) -> Option<u32>
        requires { row < length self.now.rows }
        ensures true_bit { IfSome result (λ bit. IsTrue (get self.now row bit)) }
        ensures in_row { IfSome result (λ bit. bit < self.now.bits) }
        ensures from_start { IfSome result (λ bit. start ≤ bit) }
        ensures least { IfSome result (λ bit. NoneTrue self.now row start bit) }
        ensures none { IfNone result (NoneTrue self.now row start self.now.bits) }
        ensures few { self.now.bits ≤ 2 ^ 27 }
    {
        let bit = words::next(self.words(row), start as usize)?;
        Some(bit as u32)
    }

    /// Writes a row as bytes: bit i of the row is bit i % 8 of byte i / 8, and bit 0 is the lowest.
    pub fn row_bytes(&self, row: u32, buf: &mut [u8])
        requires row { row < length self.now.rows }
        requires room { 8 * length buf.old ≡ self.now.bits }
        ensures { buf.new ≡ bits_bytes (length buf.old) (get self.now row) }
    {
        words::write_bytes(self.words(row), buf);
    }

    /// Whether the bytes are those of a row, as `row_bytes` writes them.
    pub fn has_bytes(&self, row: u32, bytes: &[u8]) -> bool
        requires row { row < length self.now.rows }
        requires room { 8 * length bytes.now ≡ self.now.bits }
        ensures { IsTrue result ↔ bytes.now ≡ bits_bytes (length bytes.now) (get self.now row) }
    {
        words::are_bytes(self.words(row), bytes)
    }

    /// Eight bits of a row as a number, the first of them the lowest.
    pub fn byte(&self, row: u32, k: u32) -> u8
        requires row { row < length self.now.rows }
        requires bits { 8 * k < self.now.bits }
        ensures { result ≡ bits_number 8 (λ i. get self.now row (8 * k + i)) }
    {
        words::byte(self.words(row), k as usize)
    }

    // The words of a row.
    pub(crate) fn words(&self, row: u32) -> &[u64]
        requires { row < length self.now.rows }
        ensures bits { 64 * length result.now ≡ self.now.bits }
        ensures small { 64 * length result.now ≤ 2 ^ 27 }
        ensures fit { (k : ℕ) → slice_index result.now k < 2 ^ 64 }
        ensures words { (k : ℕ) → k < self.now.bits → get self.now row k ≡ words_bit result.now k }
        ensures row { row_at self.now row ≡ row_of self.now.bits (words_bit result.now) }
    {
        let width = self.width as usize;
        let start = row as usize * width;
        let words = self.region.items(&self.frame);
        &words[start..start + width]
    }

    // Sets a row to what `op` gives, word by word, of it and of another row.
    fn join<F: Fn(u64, u64) -> u64>(&mut self, to: u32, from: u32, op: F)
        requires callable { F.IsAlwaysCallable op }
        requires to { to < length self.old.rows }
        requires from { from < length self.old.rows }
        ensures { (join : Bool → Bool → Bool) → IsBitwise join (F.post op)
            → self.new ≡ with_row self.old to (λ bit. join (get self.old to bit) (get self.old from bit)) }
    {
        let width = self.width as usize;
        let to = to as usize * width;
        let from = from as usize * width;
        words::join(self.region.items_mut(&self.frame), to, from, width, op);
        self.edits = self.edits.saturating_add(1);
    }

    // Sets a row to what `op` gives, word by word, of it and of a row of other rows.
    pub(crate) fn join_with<F: Fn(u64, u64) -> u64>(
        &mut self,
        to: u32,
        other: &Rows,
        from: u32,
        op: F,
    )
        requires callable { F.IsAlwaysCallable op }
        requires to { to < length self.old.rows }
        requires from { from < length other.now.rows }
        requires bits { other.now.bits ≡ self.old.bits }
        ensures { (join : Bool → Bool → Bool) → IsBitwise join (F.post op)
            → self.new ≡ with_row self.old to (λ bit. join (get self.old to bit) (get other.now from bit)) }
    {
        let to = to as usize * self.width as usize;
        let others = other.words(from);
        words::join_with(self.region.items_mut(&self.frame), to, others, op);
        self.edits = self.edits.saturating_add(1);
    }
}
