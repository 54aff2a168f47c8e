ghost use Rattle.std.specs.Prelude.{◌≡◌, ℕ, ◌+◌, ◌*◌, ◌<◌, ◌≤◌, ◌⊎◌, [], length, replicate, slice_index, slice_index_or, slice_set, vec_capacity, IfOk};

use lis_limits::{MAX_DESCRIPTION, V3_MAX_FILES};
use std::alloc::{AllocError, Global};
use std::marker::Model;

/// Lists of at most `MAX_DESCRIPTION` numbers each. All memory is allocated by `new`.
#[derive(Drop)]
pub(crate) struct Lists {
    // The numbers of list i are the first ones from index MAX_DESCRIPTION * i on. The vector is only as long as some list has had numbers,
    // so memory beyond is not touched.
    numbers: Vec<u32>,
    // How many numbers each list has.
    lengths: Vec<u32>,
}

impl Model for Lists {
    ghost use Rattle.std.specs.Prelude.{ℕ, List, vec_capacity};
    ghost use Rattle.lis_ext.specs.Stride.{lists_of, AreSoundLists};

    ghost Value = { List (List ℕ) };

    ghost view = { λ l. lists_of l.numbers.items l.lengths.items };

    ghost invariant = { λ l. AreSoundLists l.numbers.items l.lengths.items (vec_capacity l.numbers) };
}

impl Lists {
    /// `lists` lists, all of them empty.
    pub(crate) fn new(alloc: Global, lists: u32) -> Result<Lists, AllocError>
        requires few { lists ≤ V3_MAX_FILES }
        ensures { IfOk result (λ made. made ≡ replicate lists []) }
    {
        Ok(Lists {
            numbers: Vec::with_capacity(alloc, lists as usize * MAX_DESCRIPTION)?,
            lengths: vec![in alloc; 0; lists as usize]?,
        })
    }

    /// The numbers of a list.
    pub(crate) fn numbers(&self, list: u32) -> &[u32]
        requires { list < length self.now }
        ensures numbers { result.now ≡ slice_index_or self.now list [] }
        ensures few { length result.now ≤ MAX_DESCRIPTION }
    {
        let many = self.lengths[list as usize] as usize;
        if many == 0 {
            return &[];
        }
        let start = list as usize * MAX_DESCRIPTION;
        &self.numbers[start..start + many]
    }

    /// Replaces a list.
    pub(crate) fn set(&mut self, list: u32, numbers: &[u32])
        requires list { list < length self.old }
        requires few { length numbers.now ≤ MAX_DESCRIPTION }
        ensures { self.new ≡ slice_set self.old list numbers.now }
    {
        let start = list as usize * MAX_DESCRIPTION;
        fill_to(&mut self.numbers, start + numbers.len());
        write(&mut self.numbers, start, numbers);
        self.lengths[list as usize] = numbers.len() as u32;
    }
}

// Adds zeros up to `len` numbers.
fn fill_to(numbers: &mut Vec<u32>, len: usize)
    requires { len ≤ vec_capacity numbers.old }
    ensures same { (k : ℕ) → slice_index numbers.new.items k ≡ slice_index numbers.old.items k }
    ensures long { len ≤ length numbers.new.items }
    ensures no_shorter { length numbers.old.items ≤ length numbers.new.items }
    ensures room { vec_capacity numbers.new ≡ vec_capacity numbers.old }
{
    while numbers.len() < len {
        numbers.push_reserved(0);
    }
}

// Writes numbers at the indexes from `start` on.
fn write(places: &mut [u32], start: usize, numbers: &[u32])
    requires { start + length numbers.now ≤ length places.old }
    ensures written { (k : ℕ) → k < length numbers.now
        → slice_index places.new (start + k) ≡ slice_index numbers.now k }
    ensures others { (k : ℕ) → (k < start) ⊎ (start + length numbers.now ≤ k)
        → slice_index places.new k ≡ slice_index places.old k }
{
    for k in 0..numbers.len() {
        places[start + k] = numbers[k];
    }
}
