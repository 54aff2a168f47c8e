ghost use Rattle.std.specs.Prelude.{◌≡◌, ℕ, ◌<◌, ◌≤◌, List, [], Some, None, length, slice_get, slice_index_or, vec_capacity, IsTrue, IfOk, IfErr, IfSome, IfNone, false, is_some, is_none, position};
ghost use Rattle.std.specs.List.{HoldsAt};
ghost use Rattle.std.specs.List.Sorted.{IsSearchInRange, IsPartitionPoint};
ghost use Rattle.std.specs.declared.cmp.Ordering.TheVariants.{Less, Greater};
ghost use Rattle.lis_limits.specs.declared.TheConstants.{V3_MAX_PROPS};
ghost use Rattle.lis_words.specs.Words.{is_property, word_cmp, test_of};
ghost use Rattle.lis_dict.specs.Dict.{number_of, word_of, place_of, with_entry, without_word, IsDict, Adds};
ghost use Rattle.lis_dict.specs.Inside.{word_in, dict_of, AreTaken, IsSoundDict};

use lis_words::Word;
use std::alloc::{AllocError, Global};
use std::marker::Model;

/// Each number that a word can have is taken.
#[derive(Clone, Copy, Debug, PartialEq, Eq)]
pub struct NoPropertyRoom;

/// Words and their numbers. All memory is taken by `new`.
#[derive(Drop)]
pub struct Dict {
    props: u32,
    // All numbers below it have words, so a search for a free number starts from it.
    free_from: u32,
    // The numbers that have a word, in the order of their words.
    order: Vec<u32>,
    // The word that has it, at each number below `props`.
    holders: Vec<Option<Word>>,
}

impl Model for Dict {
    ghost use Rattle.std.specs.Prelude.{vec_capacity};
    ghost use Rattle.lis_dict.specs.Dict.{Dict as Table};

    ghost Value = { Table };

    ghost use Rattle.lis_dict.specs.Inside.{dict_of, IsKeptDict};

    ghost view = { λ d. dict_of d.props d.holders.items d.order.items };

    ghost invariant = { λ d. IsKeptDict d.props d.free_from d.holders.items d.order.items (vec_capacity d.order) };
}

// The bytes of the word that has the number, or no bytes.
pub(crate) fn bytes_at(holders: &[Option<Word>], number: u32) -> &[u8]
    ensures bytes { result.now ≡ word_in holders.now number }
    ensures word { IsTrue (is_some (slice_index_or holders.now number None)) → IsTrue (is_property result.now) }
{
    match holders.get(number as usize) {
        Some(Some(word)) => word.bytes(),
        _ => b"".as_slice(),
    }
}

// The first number that no word has.
fn first_free(holders: &[Option<Word>]) -> Option<usize>
    ensures { result ≡ position is_none holders.now }
{
    holders.iter().position(|holder| holder.is_none())
}

// The same. All numbers below `from` have words, so it looks only at those from there on.
fn first_free_from(holders: &[Option<Word>], from: u32) -> Option<usize>
    requires { AreTaken holders.now from }
    ensures { result ≡ position is_none holders.now }
{
    let from = from as usize;
    let found = first_free(&holders[from..])?;
    Some(from + found)
}

impl Dict {
    // The dictionary of these words by number, whose numbers stand in the order of their words.
    pub(crate) fn of_parts(holders: Vec<Option<Word>>, order: Vec<u32>) -> Dict
        requires { IsSoundDict (length holders.items) holders.items order.items (vec_capacity order) }
        ensures { result ≡ dict_of (length holders.items) holders.items order.items }
    {
        Dict {
            props: holders.len() as u32,
            free_from: 0,
            order,
            holders,
        }
    }

    /// No words yet, with room for `props` words.
    pub fn new(alloc: Global, props: u32) -> Result<Dict, AllocError>
        requires { props ≤ V3_MAX_PROPS }
        ensures { IfOk result (λ d. d ≡ record { props = props; entries = [] }) }
    {
        Ok(Dict {
            props,
            free_from: 0,
            order: Vec::with_capacity(alloc, props as usize)?,
            holders: vec![in alloc; None; props as usize]?,
        })
    }

    /// How many words there are.
    pub fn len(&self) -> u32
        ensures value { result ≡ length self.now.entries }
        ensures kept { IsDict self.now }
    {
        self.order.len() as u32
    }

    /// The word's number.
    pub fn id_of(&self, word: &Word) -> Option<u32>
        ensures { result ≡ number_of self.now word.now }
    {
        match self.search(word) {
            Ok(place) => Some(self.order[place]),
            Err(_) => None,
        }
    }

    /// The word that has the number.
    pub fn word_of(&self, number: u32) -> Option<Word>
        ensures { result ≡ word_of self.now number }
    {
        let holder = self.holders.get(number as usize)?.as_ref()?;
        Some(holder.copied())
    }

    /// The k-th word in byte order, and its number.
    pub fn word_at(&self, k: u32) -> Option<(Word, u32)>
        ensures { result ≡ slice_get self.now.entries k }
    {
        let number = *self.order.get(k as usize)?;
        Some((self.word_of(number)?, number))
    }

    /// The index, in byte order, of the word that has the number.
    pub fn place_of(&self, number: u32) -> Option<u32>
        ensures { result ≡ place_of self.now number }
    {
        let word = self.word_of(number)?;
        let Ok(place) = self.search_bytes(word.bytes()) else {
            unreachable!()
        };
        Some(place as u32)
    }

    /// The indexes in byte order between which all tests are: from the first one on, and before the second one.
    pub fn tests(&self) -> (u32, u32)
        ensures kept { IsDict self.now }
        ensures rise { result.0 ≤ result.1 }
        ensures within { result.1 ≤ length self.now.entries }
        ensures before { (k : ℕ) (e : List ℕ × ℕ) → k < result.0 → slice_get self.now.entries k ≡ Some e → test_of e.0 ≡ None }
        ensures behind { (k : ℕ) (e : List ℕ × ℕ) → result.1 ≤ k → slice_get self.now.entries k ≡ Some e → test_of e.0 ≡ None }
    {
        let start = self.place_from(b"size<".as_slice());
        // The other sign is `size>=`, and `?` comes after `>`.
        let end = self.place_from(b"size?".as_slice());
        (start, end.max(start))
    }

    /// The word's number. A new word is first added with a free number.
    pub fn add(&mut self, word: &Word) -> Result<u32, NoPropertyRoom>
        ensures { Adds self.old word.now self.new result }
    {
        if let Some(number) = self.id_of(word) {
            return Ok(number);
        }
        let Some(number) = self.free_number() else {
            return Err(NoPropertyRoom);
        };
        self.place(number, word);
        Ok(number)
    }

    /// Removes the word, and frees its number.
    pub fn remove(&mut self, word: &Word) -> Option<u32>
        ensures number { result ≡ number_of self.old word.now }
        ensures gone { self.new ≡ without_word self.old word.now }
    {
        let Ok(place) = self.search(word) else {
            return None;
        };
        let number = self.order.remove(place);
        self.holders[number as usize] = None;
        self.free_from = self.free_from.min(number);
        Some(number)
    }

    // Adds a new word with this free number.
    fn place(&mut self, number: u32, word: &Word)
        requires below { number < self.old.props }
        requires free { word_of self.old number ≡ None }
        requires new { number_of self.old word.now ≡ None }
        ensures { self.new ≡ with_entry self.old word.now number }
    {
        let Err(place) = self.search(word) else {
            unreachable!()
        };
        let Ok(()) = self.order.insert(place, number) else {
            unreachable!()
        };
        self.holders[number as usize] = Some(word.copied());
    }

    // The place of the word, or else the place that it would have.
    fn search(&self, word: &Word) -> Result<usize, usize>
        ensures bound { IsSearchInRange result (length self.now.entries) }
        ensures found { IfOk result (HoldsAt (λ e. e.0 ≡ word.now) self.now.entries) }
        ensures absent { IfErr result (IsPartitionPoint (λ e. word_cmp e.0 word.now ≡ Less) (λ e. word_cmp e.0 word.now ≡ Greater) self.now.entries) }
        ensures word { IsTrue (is_property word.now) }
    {
        self.search_bytes(word.bytes())
    }

    // The same for any bytes.
    fn search_bytes(&self, bytes: &[u8]) -> Result<usize, usize>
        ensures bound { IsSearchInRange result (length self.now.entries) }
        ensures found { IfOk result (HoldsAt (λ e. e.0 ≡ bytes.now) self.now.entries) }
        ensures absent { IfErr result (IsPartitionPoint (λ e. word_cmp e.0 bytes.now ≡ Less) (λ e. word_cmp e.0 bytes.now ≡ Greater) self.now.entries) }
        ensures kept { IsDict self.now }
        ensures few { length self.now.entries ≤ V3_MAX_PROPS }
    {
        let holders = self.holders.as_slice();
        self.order
            .binary_search_by(|number| bytes_at(holders, *number).cmp(bytes))
    }

    // How many words come before these bytes, which are no word.
    fn place_from(&self, bytes: &[u8]) -> u32
        requires { is_property bytes.now ≡ false }
        ensures kept { IsDict self.now }
        ensures bound { result ≤ length self.now.entries }
        ensures place { IsPartitionPoint (λ e. word_cmp e.0 bytes.now ≡ Less) (λ e. word_cmp e.0 bytes.now ≡ Greater) self.now.entries result }
    {
        let Err(place) = self.search_bytes(bytes) else {
            unreachable!()
        };
        place as u32
    }

    // The lowest number that no word has. The next search starts from it.
    fn free_number(&mut self) -> Option<u32>
        ensures none { IfNone result (length self.old.entries ≡ self.old.props) }
        ensures below { IfSome result (λ n. n < self.old.props) }
        ensures free { IfSome result (λ n. word_of self.old n ≡ None) }
        ensures same { self.new ≡ self.old }
    {
        let number = first_free_from(&self.holders, self.free_from)? as u32;
        self.free_from = number;
        Some(number)
    }
}
