ghost use Rattle.std.specs.Prelude.{◌≡◌, ℕ, ◌<◌, ◌≤◌, None, Some, is_some, length, replicate, slice_index_or, slice_set, vec_capacity, List, IsTrue, IfOk, IfErr};
ghost use Rattle.lis_limits.specs.declared.TheConstants.{V3_MAX_PROPS};
ghost use Rattle.lis_graph.specs.Again.{IsFirstAgain};
ghost use Rattle.lis_graph.specs.Inside.{IsUnsorted, named_cmp, RisesByName, IsLeastRepeat};
ghost use Rattle.lis_words.specs.Words.{is_property, word_cmp};
ghost use Rattle.lis_dict.specs.Dict.{HasWords};
ghost use Rattle.lis_dict.specs.Inside.{word_in};

use crate::dict::{Dict, bytes_at};
use lis_words::Word;
use std::alloc::{AllocError, Global};
use std::cmp::Ordering;
use std::marker::Model;

/// Words by their numbers, not in order yet, and room for a dictionary of them. All memory is taken by `new`.
#[derive(Drop)]
pub struct Unsorted {
    // The word that has it, at each number.
    holders: Vec<Option<Word>>,
    // The numbers that have a word, in the order of the calls of `put`.
    order: Vec<u32>,
}

impl Model for Unsorted {
    ghost use Rattle.std.specs.Prelude.{ℕ, List, Option, vec_capacity};

    ghost Value = { List (Option (List ℕ)) };

    ghost use Rattle.lis_limits.specs.declared.TheConstants.{V3_MAX_PROPS};
    ghost use Rattle.lis_graph.specs.Inside.{IsUnsorted};

    ghost view = { λ u. u.holders.items };

    ghost invariant = { λ u. IsUnsorted V3_MAX_PROPS u.holders.items u.order.items (vec_capacity u.order) };
}

// Compares two numbers by their words, and by themselves if they have the same word.
fn compare(holders: &[Option<Word>], number: u32, other: u32) -> Ordering
    ensures { result ≡ named_cmp word_cmp (word_in holders.now) number other }
{
    bytes_at(holders, number)
        .cmp(bytes_at(holders, other))
        .then(number.cmp(&other))
}

// Sorts numbers by their words, and numbers of the same word by themselves.
fn put_in_order(holders: &[Option<Word>], order: &mut Vec<u32>)
    requires { IsUnsorted V3_MAX_PROPS holders.now order.old.items (vec_capacity order.old) }
    ensures held { IsUnsorted V3_MAX_PROPS holders.now order.new.items (vec_capacity order.new) }
    ensures ordered { RisesByName word_cmp (word_in holders.now) order.new.items }
{
    order.sort_unstable_by(|number, other| compare(holders, *number, *other));
}

// The least number that has the same word as the number before it in the order.
fn first_again(holders: &[Option<Word>], order: &[u32]) -> Option<u32>
    requires { (k : ℕ) → k < length order.now → IsTrue (is_some (slice_index_or holders.now (slice_index_or order.now k 0) None)) }
    ensures first { IsLeastRepeat (word_in holders.now) order.now (length order.now) result }
    ensures forms { (k : ℕ) → k < length order.now → IsTrue (is_property (word_in holders.now (slice_index_or order.now k 0))) }
{
    let mut first = None;
    let mut before = b"".as_slice();
    for number in order {
        let bytes = bytes_at(holders, *number);
        if bytes == before {
            first = Some(first.unwrap_or(*number).min(*number));
        }
        before = bytes;
    }
    first
}

impl Unsorted {
    /// Numbers below `props`, without words.
    pub fn new(alloc: Global, props: u32) -> Result<Unsorted, AllocError>
        requires { props ≤ V3_MAX_PROPS }
        ensures { IfOk result (λ words. words ≡ replicate props None) }
    {
        Ok(Unsorted {
            holders: vec![in alloc; None; props as usize]?,
            order: Vec::with_capacity(alloc, props as usize)?,
        })
    }

    /// Gives a number its word.
    pub fn put(&mut self, number: u32, word: &Word)
        requires below { number < length self.old }
        requires free { slice_index_or self.old number None ≡ None }
        ensures { self.new ≡ slice_set self.old number (Some word.now) }
    {
        let Ok(()) = self.order.push(number) else {
            unreachable!()
        };
        self.holders[number as usize] = Some(word.copied());
    }

    /// The dictionary of these words, or the first number whose word a lower number has too. It sorts once, and takes no memory.
    pub fn sort(self) -> Result<Dict, u32>
        ensures sorted { IfOk result (λ d. HasWords d self) }
        ensures again { IfErr result (λ n. IsFirstAgain (λ (word : List ℕ). word) self n) }
    {
        let Unsorted { holders, mut order } = self;
        put_in_order(&holders, &mut order);
        match first_again(&holders, &order) {
            Some(number) => Err(number),
            None => Ok(Dict::of_parts(holders, order)),
        }
    }
}
