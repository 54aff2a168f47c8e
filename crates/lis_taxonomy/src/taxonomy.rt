ghost use Rattle.std.specs.Prelude.{◌≡◌, ◌≢◌, ℕ, ◌+◌, ◌<◌, ◌≤◌, ◌↔◌, All, false, length, count_by, IfOk, OnOk, OnErr, IsTrue, Err};
ghost use Rattle.std.specs.List.{range_with_len};

use crate::edges::{find, place_of};
use crate::search::Search;
use lis_bits::{Flags, Rows};
use lis_limits::V3_MAX_PROPS;
use std::alloc::{AllocError, Global};
use std::marker::Model;

/// Why an edge was not added or removed.
#[derive(Clone, Copy, Debug, PartialEq, Eq)]
pub enum EdgeFault {
    /// The edge is there already.
    Present,
    /// The edge would close a cycle.
    Cycle,
    /// There is no such edge.
    Absent,
}

// For each number an edge to its head or to the next weaker test, an axiom, and one that a change needs on its way.
const EDGES_PER_PROP: u32 = 3;

/// Edges between numbers, which never form a cycle. All memory is taken by `new`.
#[derive(Drop)]
pub struct Taxonomy {
    props: u32,
    // In the order of their left sides, and then of their right sides.
    edges: Vec<(u32, u32)>,
    // Each number to which an edge leads, or has led, is marked: a new edge to another number closes no cycle.
    entered: Flags,
    // For the test of a new edge.
    search: Search,
}

impl Model for Taxonomy {
    ghost use Rattle.std.specs.Prelude.{vec_capacity};
    ghost use Rattle.lis_taxonomy.specs.Taxonomy.{Taxonomy as Edges, taxonomy_code};

    ghost Value = { Edges };

    ghost coded = { taxonomy_code };

    ghost use Rattle.lis_taxonomy.specs.Inside.{seen, IsSoundTaxonomy};

    ghost view = { λ t. seen t.edges.items t.props };

    ghost invariant = { λ t. IsSoundTaxonomy t.edges.items t.entered t.props (vec_capacity t.edges) };
}

impl Taxonomy {
    ghost use Rattle.lis_taxonomy.specs.Search.{is_found};
    ghost use Rattle.lis_taxonomy.specs.Taxonomy.{has_edge, leads_to, edge_count, edge_room, Entails, IsAcyclic, LeadsToMarked, any_entails, empty_taxonomy, with_edge, without_edge};

    /// A taxonomy of the numbers below `props`, with no edge.
    pub fn new(alloc: Global, props: u32) -> Result<Taxonomy, AllocError>
        requires { props ≤ V3_MAX_PROPS }
        ensures { IfOk result (λ made. made ≡ empty_taxonomy props) }
    {
        Ok(Taxonomy {
            props,
            edges: Vec::with_capacity(alloc, (EDGES_PER_PROP * props) as usize)?,
            entered: Flags::new(alloc, V3_MAX_PROPS)?,
            search: Search::new(alloc)?,
        })
    }

    /// How many numbers there are. The other clauses say what holds of each taxonomy.
    pub fn props(&self) -> u32
        ensures value { result ≡ self.now.props }
        ensures acyclic { IsAcyclic self.now }
        ensures in_range { (p q : ℕ) → IsTrue (has_edge self.now p q) → (p < self.now.props) × (q < self.now.props) }
        ensures few { self.now.props ≤ V3_MAX_PROPS }
    {
        self.props
    }

    /// Adds the edge from p to q. `Cycle` comes also where p is q.
    pub fn add(&mut self, p: u32, q: u32) -> Result<(), EdgeFault>
        requires p { p < self.old.props }
        requires q { q < self.old.props }
        requires room { edge_count self.old < edge_room self.old.props }
        ensures present { (result ≡ Err EdgeFault.Present) ↔ IsTrue (has_edge self.old p q) }
        ensures cycle { (result ≡ Err EdgeFault.Cycle) ↔ Entails self.old q p }
        ensures not_absent { result ≢ Err EdgeFault.Absent }
        ensures ok { OnOk result (self.new ≡ with_edge self.old p q) }
        ensures err { OnErr result (self.new ≡ self.old) }
        ensures acyclic { IsAcyclic self.new }
    {
        let Err(place) = find(&self.edges, p, q) else {
            return Err(EdgeFault::Present);
        };
        if self.search.reaches(&self.edges, &self.entered, q, p) {
            return Err(EdgeFault::Cycle);
        }
        let Ok(()) = self.edges.insert(place, (p, q)) else {
            unreachable!()
        };
        self.entered.put(q, true);
        Ok(())
    }

    /// Removes the edge from p to q.
    pub fn remove(&mut self, p: u32, q: u32) -> Result<(), EdgeFault>
        requires p { p < self.old.props }
        requires q { q < self.old.props }
        ensures absent { (result ≡ Err EdgeFault.Absent) ↔ (has_edge self.old p q ≡ false) }
        ensures only { OnErr result (result ≡ Err EdgeFault.Absent) }
        ensures ok { OnOk result (self.new ≡ without_edge self.old p q) }
        ensures err { OnErr result (self.new ≡ self.old) }
        ensures acyclic { IsAcyclic self.new }
    {
        let Ok(place) = find(&self.edges, p, q) else {
            return Err(EdgeFault::Absent);
        };
        self.edges.remove(place);
        Ok(())
    }

    /// Whether there is an edge from p to q.
    pub fn linked(&self, p: u32, q: u32) -> bool
        requires p { p < self.now.props }
        requires q { q < self.now.props }
        ensures { result ≡ has_edge self.now p q }
    {
        find(&self.edges, p, q).is_ok()
    }

    /// The edges that lead from a number. It looks at no others, except to find them.
    pub fn edges_from(&self, p: u32) -> &[(u32, u32)]
        requires { p < self.now.props }
        ensures { (q : ℕ) → has_edge self.now p q ≡ leads_to result.now q }
    {
        let start = place_of(&self.edges, p, 0);
        let end = place_of(&self.edges, p + 1, 0);
        &self.edges[start..end]
    }

    /// Finds all that the found numbers entail too.
    pub fn close(&self, search: &mut Search)
        requires { (q : ℕ) → IsTrue (is_found search.old q) → q < self.now.props }
        ensures found { (q : ℕ) → is_found search.new q ≡ any_entails self.now search.old q }
        ensures below { (q : ℕ) → IsTrue (is_found search.new q) → q < self.now.props }
        ensures count { length search.new ≡ count_by (any_entails self.now search.old) (range_with_len 0 self.now.props) }
    {
        search.close(&self.edges);
    }

    /// Finds all that these numbers entail, themselves included.
    pub fn find_all(&self, numbers: &[u32], search: &mut Search)
        requires { All (λ p. p < self.now.props) numbers.now }
        ensures found { (q : ℕ) → is_found search.new q ≡ any_entails self.now numbers.now q }
        ensures below { (q : ℕ) → IsTrue (is_found search.new q) → q < self.now.props }
        ensures count { length search.new ≡ count_by (any_entails self.now numbers.now) (range_with_len 0 self.now.props) }
    {
        let edges = &self.edges;
        search.clear();
        for number in numbers {
            search.meet(*number);
        }
        search.close(edges);
    }

    /// Whether a chain of edges leads from p to q, as it does where p is q.
    pub fn entails(&self, p: u32, q: u32, search: &mut Search) -> bool
        requires p { p < self.now.props }
        requires q { q < self.now.props }
        ensures { IsTrue result ↔ Entails self.now p q }
    {
        search.run(&self.edges, p);
        search.has(q)
    }

    /// Whether a chain of edges leads from a number to another one whose bit is true in the first row of these.
    pub fn leads_to_marked(&self, number: u32, marks: &Rows, search: &mut Search) -> bool
        requires number { number < self.now.props }
        requires marks { 0 < length marks.now.rows }
        requires bits { marks.now.bits ≡ self.now.props }
        ensures { IsTrue result ↔ LeadsToMarked self.now number marks.now }
    {
        search.leads(&self.edges, number, marks)
    }
}
