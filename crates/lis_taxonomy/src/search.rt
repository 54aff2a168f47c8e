ghost use Rattle.std.specs.Prelude.{◌≡◌, ℕ, ◌<◌, ◌≤◌, ◌↔◌, ◌∷◌, [], All, false, length, slice_index_or, IfOk, IfSome, IfNone, IsTrue, count_by};
ghost use Rattle.lis_graph.specs.Graph.{Entails};
ghost use Rattle.std.specs.List.{range_with_len};
ghost use Rattle.lis_taxonomy.specs.Search.{is_found, met};
ghost use Rattle.lis_taxonomy.specs.Taxonomy.{no_links};
ghost use Rattle.lis_taxonomy.specs.Inside.{AreInOrder, AreEntered, MeetsRights, IsSearched, ChainToMarked};

use crate::edges::place_of;
use lis_bits::{Flags, Rows};
use lis_limits::V3_MAX_PROPS;
use std::alloc::{AllocError, Global};
use std::marker::Model;

/// The numbers that a search of a taxonomy found, each once, in the order in which it met them. All memory is taken by
/// `new`, and serves one search after another, of any taxonomy.
#[derive(Drop)]
pub struct Search {
    numbers: Vec<u32>,
    // Which numbers were found.
    marks: Flags,
}

impl Model for Search {
    ghost use Rattle.std.specs.Prelude.{ℕ, List, vec_capacity};

    ghost Value = { List ℕ };

    ghost use Rattle.lis_taxonomy.specs.Inside.{IsSoundSearch};

    ghost view = { λ s. s.numbers.items };

    ghost invariant = { λ s. IsSoundSearch s.numbers.items s.marks (vec_capacity s.numbers) };
}

// Clears the flags of these numbers.
fn unmark(marks: &mut Flags, numbers: &[u32])
    requires { All (λ number. number < length marks.old) numbers.now }
    ensures len { length marks.new ≡ length marks.old }
    ensures others { (q : ℕ) → IsTrue (slice_index_or marks.new q false) → IsTrue (slice_index_or marks.old q false) }
    ensures cleared { (q : ℕ) → IsTrue (is_found numbers.now q) → slice_index_or marks.new q false ≡ false }
{
    for number in numbers {
        marks.put(*number, false);
    }
}

impl Search {
    /// A search that found nothing.
    pub fn new(alloc: Global) -> Result<Search, AllocError>
        ensures { IfOk result (λ made. made ≡ []) }
    {
        Ok(Search {
            numbers: Vec::with_capacity(alloc, V3_MAX_PROPS as usize)?,
            marks: Flags::new(alloc, V3_MAX_PROPS)?,
        })
    }

    /// Whether the number was found.
    pub fn has(&self, number: u32) -> bool
        requires { number < V3_MAX_PROPS }
        ensures { result ≡ is_found self.now number }
    {
        self.marks.get(number)
    }

    /// How many numbers were found.
    pub fn count(&self) -> u32
        ensures value { result ≡ length self.now }
        ensures once { (props : ℕ) → props ≤ V3_MAX_PROPS → ((q : ℕ) → IsTrue (is_found self.now q) → q < props)
            → result ≡ count_by (is_found self.now) (range_with_len 0 props) }
    {
        self.numbers.len() as u32
    }

    /// The least number that was found and is not below `start`.
    pub fn next(&self, start: u32) -> Option<u32>
        ensures found { IfSome result (λ q. IsTrue (is_found self.now q)) }
        ensures below { IfSome result (λ q. q < V3_MAX_PROPS) }
        ensures from_start { IfSome result (λ q. start ≤ q) }
        ensures least { IfSome result (λ q. (k : ℕ) → start ≤ k → k < q → is_found self.now k ≡ false) }
        ensures none { IfNone result ((k : ℕ) → start ≤ k → is_found self.now k ≡ false) }
    {
        self.marks.next(start)
    }

    // The numbers, in the order in which the search met them.
    pub(crate) fn numbers(&self) -> &[u32]
        ensures value { result.now ≡ self.now }
        ensures below { All (λ q. q < V3_MAX_PROPS) result.now }
        ensures few { length result.now ≤ V3_MAX_PROPS }
        ensures once { (props : ℕ) → props ≤ V3_MAX_PROPS → ((q : ℕ) → IsTrue (is_found self.now q) → q < props)
            → length result.now ≡ count_by (is_found self.now) (range_with_len 0 props) }
    {
        self.numbers.as_slice()
    }

    /// Forgets all numbers.
    pub fn clear(&mut self)
        ensures { self.new ≡ [] }
    {
        unmark(&mut self.marks, &self.numbers);
        self.numbers.clear();
    }

    /// Adds a number, unless it was found before.
    pub fn meet(&mut self, number: u32)
        requires { number < V3_MAX_PROPS }
        ensures { self.new ≡ met self.old number }
    {
        if self.marks.get(number) {
            return;
        }
        self.marks.put(number, true);
        let Ok(()) = self.numbers.push(number) else {
            unreachable!()
        };
    }

    // Adds the numbers to which edges lead from one.
    pub(crate) fn meet_rights(&mut self, edges: &[(u32, u32)], number: u32)
        requires order { (props : ℕ) × AreInOrder edges.now props }
        requires number { number < V3_MAX_PROPS }
        ensures { MeetsRights edges.now self.old self.new number }
    {
        let mut place = place_of(edges, number, 0);
        while place < edges.len() && edges[place].0 == number {
            self.meet(edges[place].1);
            place += 1;
        }
    }

    // Adds all numbers to which chains of edges lead from those that are found.
    pub(crate) fn close(&mut self, edges: &[(u32, u32)])
        requires { (props : ℕ) × AreInOrder edges.now props }
        ensures found { IsSearched edges.now self.old self.new }
        ensures once { (props : ℕ) → props ≤ V3_MAX_PROPS → ((q : ℕ) → IsTrue (is_found self.new q) → q < props)
            → length self.new ≡ count_by (is_found self.new) (range_with_len 0 props) }
    {
        let mut done = 0;
        while done < self.numbers().len() {
            let number = self.numbers()[done];
            self.meet_rights(edges, number);
            done += 1;
        }
    }

    // Finds all numbers to which chains of edges lead from p.
    pub(crate) fn run(&mut self, edges: &[(u32, u32)], p: u32)
        requires order { (props : ℕ) × AreInOrder edges.now props }
        requires p { p < V3_MAX_PROPS }
        ensures { IsSearched edges.now (p ∷ []) self.new }
    {
        self.clear();
        self.meet(p);
        self.close(edges);
    }

    // Whether a chain of edges leads from p to q. The flag of each number to which an edge leads is set.
    pub(crate) fn reaches(&mut self, edges: &[(u32, u32)], entered: &Flags, p: u32, q: u32) -> bool
        requires order { (props : ℕ) × AreInOrder edges.now props }
        requires entered { AreEntered edges.now entered.now }
        requires p { p < V3_MAX_PROPS }
        requires q { q < V3_MAX_PROPS }
        ensures { IsTrue result ↔ Entails no_links edges.now p q }
    {
        if p != q && !entered.get(q) {
            return false;
        }
        self.run(edges, p);
        self.has(q)
    }

    // Whether a chain of edges leads from a number to another one whose bit is true in the first row of these.
    pub(crate) fn leads(&mut self, edges: &[(u32, u32)], number: u32, marks: &Rows) -> bool
        requires order { AreInOrder edges.now marks.now.bits }
        requires number { number < marks.now.bits }
        requires marks { 0 < length marks.now.rows }
        ensures { IsTrue result ↔ ChainToMarked edges.now number marks.now }
    {
        self.clear();
        self.meet(number);
        let mut done = 0;
        while done < self.numbers().len() {
            let found = self.numbers()[done];
            if found != number && marks.get(0, found) {
                return true;
            }
            self.meet_rights(edges, found);
            done += 1;
        }
        false
    }
}
