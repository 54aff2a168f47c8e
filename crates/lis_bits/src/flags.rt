ghost use Rattle.std.specs.Prelude.{◌≡◌, ℕ, ◌%◌, ◌^◌, ◌<◌, ◌≤◌, max, false, length, slice_index, slice_index_or, slice_set, replicate, vec_capacity, IfOk, IfSome, IfNone, IsTrue};

use crate::words;
use std::alloc::{AllocError, Global};
use std::marker::Model;

/// Flags by number, a bit for each. All memory is allocated by `new`.
#[derive(Drop)]
pub struct Flags {
    bits: u32,
    // The first flag of a word is its lowest bit. The vector is only as long as flags were set, and each flag past its end is false, so
    // that memory beyond is not touched.
    words: Vec<u64>,
}

impl Model for Flags {
    ghost use Rattle.std.specs.Prelude.{Bool, List, vec_capacity};
    ghost use Rattle.lis_bits.specs.Rows.{row_of};
    ghost use Rattle.lis_bits.specs.Words.{words_bit};
    ghost use Rattle.lis_bits.specs.Inside.{AreSoundFlags};

    ghost Value = { List Bool };

    ghost view = { λ f. row_of f.bits (words_bit f.words.items) };

    ghost invariant = { λ f. AreSoundFlags f.words.items f.bits (vec_capacity f.words) };
}

impl Flags {
    /// New flags, all of them false.
    pub fn new(alloc: Global, bits: u32) -> Result<Flags, AllocError>
        requires whole_words { bits % 64 ≡ 0 }
        requires few { bits ≤ 2 ^ 27 }
        ensures { IfOk result (λ made. made ≡ replicate bits false) }
    {
        Ok(Flags {
            bits,
            words: Vec::with_capacity(alloc, bits as usize / 64)?,
        })
    }

    /// How many flags there are.
    pub fn len(&self) -> u32
        ensures { result ≡ length self.now }
    {
        self.bits
    }

    /// The flag of a number.
    pub fn get(&self, number: u32) -> bool
        requires { number < length self.now }
        ensures { result ≡ slice_index_or self.now number false }
    {
        let place = number as usize / 64;
        place < self.words.len() && self.words[place] >> (number % 64) & 1 == 1
    }

    /// Sets one flag.
    pub fn put(&mut self, number: u32, value: bool)
        requires { number < length self.old }
        ensures { self.new ≡ slice_set self.old number value }
    {
        let place = number as usize / 64;
        if !value && self.words.len() <= place {
            // It is false already.
            return;
        }
        extend(&mut self.words, place + 1, 0);
        self.words[place] = words::with_bit(self.words[place], number % 64, value);
    }

    /// Sets each flag.
    pub fn fill(&mut self, value: bool)
        ensures { self.new ≡ replicate (length self.old) value }
    {
        let len = if value { self.bits as usize / 64 } else { 0 };
        self.words.clear();
        extend(&mut self.words, len, u64::MAX);
    }

    /// The first flag from a number on that is true.
    pub fn next(&self, start: u32) -> Option<u32>
        ensures true_flag { IfSome result (λ number. IsTrue (slice_index_or self.now number false)) }
        ensures in_row { IfSome result (λ number. number < length self.now) }
        ensures from_start { IfSome result (λ number. start ≤ number) }
        ensures least { IfSome result (λ number. (k : ℕ) → start ≤ k → k < number → slice_index_or self.now k false ≡ false) }
        ensures none { IfNone result ((k : ℕ) → start ≤ k → k < length self.now → slice_index_or self.now k false ≡ false) }
    {
        let number = words::next(&self.words, start as usize)?;
        Some(number as u32)
    }
}

// Adds copies of a word until there are `len` words.
fn extend(words: &mut Vec<u64>, len: usize, word: u64)
    requires { len ≤ vec_capacity words.old }
    ensures same { (k : ℕ) → k < length words.old.items → slice_index words.new.items k ≡ slice_index words.old.items k }
    ensures added { (k : ℕ) → length words.old.items ≤ k → k < len → slice_index words.new.items k ≡ word }
    ensures long { length words.new.items ≡ max (length words.old.items) len }
    ensures room { vec_capacity words.new ≡ vec_capacity words.old }
{
    while words.len() < len {
        words.push_reserved(word);
    }
}
