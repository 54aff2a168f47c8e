//! Places and paths.

ghost use Rattle.std.specs.Prelude.{◌≡◌, ◌==◌, ◌+◌, ◌≤◌, List, [], ◌++◌, length, take, IsTrue, IfSome, MatchOption};
ghost use Rattle.arrayvec.specs.ArrayVec.{array_vec_len};
ghost use Rattle.lis_grammar.specs.Formula.{Formula};
ghost use Rattle.lis_grammar.specs.Places.{IsPlace, without_last};
ghost use Rattle.lis_place.specs.Nodes.{nodes_of};
ghost use Rattle.lis_place.specs.Steps.{operands, before_last};

use crate::limits::{are_place, tree_count};
use crate::node::Node;
use arrayvec::ArrayVec;
use lis_limits::MAX_NODES;
use std::marker::Model;

/// A place: a list of steps, each a tree of nodes. It represents the files of which all steps hold. It has at most 64 nodes and prints to
/// at most 1,024 bytes, and the numbers of its tests are below 10^12.
#[derive(Drop, Debug)]
pub struct Place {
    nodes: ArrayVec<Node, MAX_NODES>,
}

impl Model for Place {
    ghost use Rattle.std.specs.Prelude.{List, IsTrue};
    ghost use Rattle.std.specs.Coded.{coded_list};
    ghost use Rattle.lis_grammar.specs.Formula.{Formula};
    ghost use Rattle.lis_grammar.specs.Codes.{formula_code};
    ghost use Rattle.lis_place.specs.Nodes.{steps_of};
    ghost use Rattle.lis_place.specs.Limits.{are_place};

    ghost Value = { List Formula };

    ghost coded = { coded_list formula_code };

    ghost view = { λ p. steps_of p.nodes.items };

    ghost invariant = { λ p. IsTrue (are_place p.nodes.items) };
}

/// What a formula text reads as: a place from the root, or from the place where it is read.
#[derive(Drop, Debug)]
pub struct Path {
    pub rooted: bool,
    pub place: Place,
}

/// Appends copies of the nodes to those that are held.
fn extend(held: &mut ArrayVec<Node, MAX_NODES>, nodes: &[Node])
    requires { array_vec_len held.old + length nodes.now ≤ MAX_NODES }
    ensures { held.new.items ≡ held.old.items ++ nodes.now }
{
    for node in nodes {
        held.push(node.copied());
    }
}

/// How many trees before the node are its operands.
fn operands(node: &Node) -> usize
    ensures value { result ≡ operands node.now }
    ensures few { result ≤ 2 }
{
    match node {
        Node::Word(_) | Node::AtLeast(_) | Node::Below(_) => 0,
        Node::Not => 1,
        Node::And | Node::Or => 2,
    }
}

/// Where the last tree of the nodes begins.
fn last_start(nodes: &[Node]) -> usize
    requires { length nodes.now ≤ MAX_NODES }
    ensures inside { result ≤ length nodes.now }
    ensures before { take result nodes.now ≡ before_last nodes.now }
{
    let mut at = nodes.len();
    let mut wanted = 1;
    while wanted > 0 && at > 0 {
        wanted = wanted - 1 + operands(&nodes[at - 1]);
        at -= 1;
    }
    at
}

impl Place {
    /// The place without a step, which every file is at.
    pub fn root() -> Place
        ensures { result ≡ [] }
    {
        Place {
            nodes: ArrayVec::new(),
        }
    }

    /// The place of these nodes. None exactly if they are the nodes of no place.
    pub fn of(nodes: &[Node]) -> Option<Place>
        ensures nodes { MatchOption result
            ((steps : List Formula) → IsPlace steps → nodes.now ≡ nodes_of steps → ⊥)
            (λ place. nodes.now ≡ nodes_of place) }
        ensures place { IfSome result (λ place. IsPlace place) }
    {
        if !are_place(nodes) {
            return None;
        }
        let mut held = ArrayVec::new();
        extend(&mut held, nodes);
        Some(Place { nodes: held })
    }

    /// The nodes of the steps in order: each operand before its operator, and the left operand before the right one.
    pub fn nodes(&self) -> &[Node]
        ensures nodes { result.now ≡ nodes_of self.now }
        ensures place { IsPlace self.now }
        ensures few { length result.now ≤ MAX_NODES }
    {
        self.nodes.as_slice()
    }

    /// How many steps the place has.
    pub fn len(&self) -> usize
        ensures { result ≡ length self.now }
    {
        tree_count(self.nodes.as_slice())
    }

    /// Whether the place is the root.
    pub fn is_empty(&self) -> bool
        ensures { result ≡ (length self.now == 0) }
    {
        self.len() == 0
    }

    /// The same place, without an allocation.
    pub fn copied(&self) -> Place
        ensures { result ≡ self.now }
    {
        let mut nodes = ArrayVec::new();
        extend(&mut nodes, self.nodes.as_slice());
        Place { nodes }
    }

    /// The place without its last step; the root stays.
    pub fn without_last(&self) -> Place
        ensures { result ≡ without_last self.now }
    {
        let all = self.nodes.as_slice();
        let mut nodes = ArrayVec::new();
        extend(&mut nodes, &all[..last_start(all)]);
        Place { nodes }
    }

    /// The place with the steps of another after its own. None exactly if these together are no place.
    pub fn appended(&self, more: &Place) -> Option<Place>
        ensures steps { MatchOption result
            (IsPlace (self.now ++ more.now) → ⊥)
            (λ place. place ≡ self.now ++ more.now) }
        ensures place { IfSome result (λ place. IsPlace place) }
    {
        let front = self.nodes.as_slice();
        let behind = more.nodes.as_slice();
        if front.len() + behind.len() > MAX_NODES {
            return None;
        }
        let mut nodes = ArrayVec::new();
        extend(&mut nodes, front);
        extend(&mut nodes, behind);
        if !are_place(nodes.as_slice()) {
            return None;
        }
        Some(Place { nodes })
    }
}
