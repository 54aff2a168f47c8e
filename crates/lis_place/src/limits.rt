//! Which nodes are those of a place.

ghost use Rattle.std.specs.Prelude.{◌≡◌, ◌+◌, ◌*◌, ◌<◌, ◌≤◌, length, IfSome, IsTrue};
ghost use Rattle.std.specs.Fmt.{decimal};
ghost use Rattle.lis_place.specs.Limits.{with_operand, with_test, with_mark, with_joint, tally_with, tally_after, no_tally, are_place};
ghost use Rattle.lis_place.specs.Nodes.{steps_of};
ghost use Rattle.lis_place.specs.declared.node.Node.TheVariants.{Word as NodeWord};

use crate::node::Node;
use itoa::Buffer;
use lis_limits::{MAX_FORMULA, MAX_NODES, MAX_WORD};
use lis_words::{Word, is_word};

/// The first number that is too large for a test.
const TEST_LIMIT: u64 = 1_000_000_000_000;

/// How many trees the nodes so far make, and how many bytes these print to.
#[derive(Clone, Copy)]
pub struct Tally {
    pub trees: usize,
    pub bytes: usize,
}

/// How many decimal digits a number has.
fn digit_count(number: u64) -> usize
    ensures count { result ≡ length (decimal number) }
    ensures short { result ≤ 40 }
{
    let mut buffer = Buffer::new();
    buffer.format(number).len()
}

impl Tally {
    fn with_operand(self, bytes: usize) -> Option<Tally>
        requires trees { self.trees ≤ MAX_NODES }
        requires sum { self.bytes ≤ MAX_WORD * MAX_NODES }
        requires bytes { bytes ≤ MAX_WORD }
        ensures { result ≡ with_operand self bytes }
    {
        Some(Tally {
            trees: self.trees + 1,
            bytes: self.bytes + bytes,
        })
    }

    /// A word that no formula may have, such as a test, makes no tree.
    fn with_word(self, word: &Word) -> Option<Tally>
        requires trees { self.trees ≤ MAX_NODES }
        requires sum { self.bytes ≤ MAX_WORD * MAX_NODES }
        ensures value { result ≡ tally_with self (NodeWord word.now) }
        ensures bytes { IfSome result (λ next. next.bytes ≤ self.bytes + MAX_WORD) }
    {
        if !is_word(word.bytes()) {
            return None;
        }
        self.with_operand(word.len())
    }

    fn with_test(self, sign: usize, number: u64) -> Option<Tally>
        requires trees { self.trees ≤ MAX_NODES }
        requires sum { self.bytes ≤ MAX_WORD * MAX_NODES }
        requires sign { sign ≤ 6 }
        ensures value { result ≡ with_test self sign number }
        ensures bytes { IfSome result (λ next. next.bytes ≤ self.bytes + MAX_WORD) }
    {
        if number >= TEST_LIMIT {
            return None;
        }
        self.with_operand(sign + digit_count(number))
    }

    fn with_mark(self) -> Option<Tally>
        requires sum { self.bytes ≤ MAX_WORD * MAX_NODES }
        ensures { result ≡ with_mark self }
    {
        if self.trees < 1 {
            return None;
        }
        Some(Tally {
            trees: self.trees,
            bytes: self.bytes + 1,
        })
    }

    fn with_joint(self) -> Option<Tally>
        requires sum { self.bytes ≤ MAX_WORD * MAX_NODES }
        ensures { result ≡ with_joint self }
    {
        if self.trees < 2 {
            return None;
        }
        Some(Tally {
            trees: self.trees - 1,
            bytes: self.bytes + 3,
        })
    }

    fn with(self, node: &Node) -> Option<Tally>
        requires trees { self.trees ≤ MAX_NODES }
        requires sum { self.bytes ≤ MAX_WORD * MAX_NODES }
        ensures value { result ≡ tally_with self node.now }
        ensures trees { IfSome result (λ next. next.trees ≤ self.trees + 1) }
        ensures bytes { IfSome result (λ next. next.bytes ≤ self.bytes + MAX_WORD) }
    {
        match node {
            Node::Word(word) => self.with_word(word),
            Node::AtLeast(size) => self.with_test(6, *size),
            Node::Below(size) => self.with_test(5, *size),
            Node::Not => self.with_mark(),
            Node::And => self.with_joint(),
            Node::Or => self.with_joint(),
        }
    }
}

fn tally_of(nodes: &[Node]) -> Option<Tally>
    requires { length nodes.now ≤ MAX_NODES }
    ensures value { result ≡ tally_after no_tally nodes.now }
    ensures trees { IfSome result (λ tally. tally.trees ≤ MAX_NODES) }
    ensures bytes { IfSome result (λ tally. tally.bytes ≤ MAX_WORD * MAX_NODES) }
{
    let mut tally = Tally { trees: 0, bytes: 0 };
    for node in nodes {
        tally = tally.with(node)?;
    }
    Some(tally)
}

/// Whether the nodes are those of a place.
pub fn are_place(nodes: &[Node]) -> bool
    ensures { result ≡ are_place nodes.now }
{
    if nodes.len() > MAX_NODES {
        return false;
    }
    let Some(tally) = tally_of(nodes) else {
        return false;
    };
    let joints = tally.trees.saturating_sub(1);
    if nodes.len() + joints > MAX_NODES {
        return false;
    }
    tally.bytes + joints <= MAX_FORMULA
}

/// How many trees the nodes of a place make.
pub fn tree_count(nodes: &[Node]) -> usize
    requires { IsTrue (are_place nodes.now) }
    ensures { result ≡ length (steps_of nodes.now) }
{
    match tally_of(nodes) {
        Some(tally) => tally.trees,
        None => 0,
    }
}
