//! The reader of a path: byte by byte, with what waits for an operand on a stack of fixed size.

ghost use Rattle.std.specs.Prelude.{◌≡◌, ◌+◌, ◌<◌, ◌≤◌, [], ◌∷◌, ◌++◌, length, Some, None, MatchBool};
ghost use Rattle.lis_grammar.specs.Machine.{is_joint};
ghost use Rattle.lis_formula.specs.Walk.{no_nodes, noted, noted_in, with_sign, marked, closed_bar, closed_slash, slashed, unwrapped, settled_in, walk_within, walk_joint, walk_step, walk_settled, walk_end};
ghost use Rattle.lis_formula.specs.Walk.Walk.{Begins, Inside};
ghost use Rattle.lis_formula.specs.Reader.{walk_of};

use crate::operand::{is_operand_front, operand};
use crate::signs::{Sign, Signs};
use arrayvec::ArrayVec;
use lis_limits::MAX_FORMULA;
use lis_place::Node;

/// The first 64 nodes that were read, and whether there were more: a formula is read to its end before it is refused as too large.
#[derive(Drop)]
pub struct Nodes {
    pub nodes: ArrayVec<Node, 64>,
    pub over: bool,
}

impl Nodes {
    fn note(&mut self, node: Node)
        ensures { self.new ≡ noted self.old node }
    {
        if self.nodes.is_full() {
            self.over = true;
        } else {
            self.nodes.push(node);
        }
    }
}

/// The signs that wait, and the nodes so far.
#[derive(Drop)]
pub struct Held {
    pub signs: Signs,
    pub kept: Nodes,
}

impl Held {
    fn new() -> Held
        ensures signs { result.signs ≡ [] }
        ensures nodes { result.kept ≡ no_nodes }
    {
        Held {
            signs: Signs::new(),
            kept: Nodes {
                nodes: ArrayVec::new(),
                over: false,
            },
        }
    }

    fn note(&mut self, node: Node)
        ensures { self.new ≡ noted_in self.old node }
    {
        self.kept.note(node);
    }

    fn push(&mut self, sign: Sign)
        requires { length self.old.signs < MAX_FORMULA }
        ensures { self.new ≡ with_sign sign self.old }
    {
        self.signs.push(sign);
    }

    /// The exclamation marks before an operand that has ended apply.
    fn apply_marks(&mut self)
        ensures held { self.new ≡ marked self.old }
        ensures fewer { length self.new.signs ≤ length self.old.signs }
    {
        while self.signs.pop_if(Sign::Mark) {
            self.note(Node::Not);
        }
    }

    fn close_bar(&mut self)
        ensures held { self.new ≡ closed_bar self.old }
        ensures fewer { length self.new.signs ≤ length self.old.signs }
    {
        if self.signs.pop_if(Sign::Bar) {
            self.note(Node::Or);
        }
    }

    fn close_slash(&mut self)
        ensures held { self.new ≡ closed_slash self.old }
        ensures fewer { length self.new.signs ≤ length self.old.signs }
    {
        if self.signs.pop_if(Sign::Slash) {
            self.note(Node::And);
        }
    }

    /// A slash after an operand: outside of parentheses it ends a step.
    fn slash(&mut self)
        requires { length self.old.signs < MAX_FORMULA }
        ensures held { self.new ≡ slashed self.old }
        ensures signs { length self.new.signs ≤ length self.old.signs + 1 }
    {
        if !self.signs.is_empty() {
            self.signs.push(Sign::Slash);
        }
    }
}

/// The state of the reader: an operand must begin, or is being read, or has ended.
#[derive(Clone, Copy, Debug)]
pub enum Phase {
    Wants,
    Within,
    Complete,
}

/// A reader of one path.
#[derive(Drop)]
pub struct Reader {
    pub held: Held,
    pub phase: Phase,
    pub inside: ArrayVec<u8, 60>,
}

fn is_joint(byte: u8) -> bool
    ensures { result ≡ is_joint byte }
{
    byte == b'|' || byte == b'/' || byte == b')'
}

impl Reader {
    pub fn new() -> Reader
        ensures walk { walk_of result ≡ Begins (record { signs = []; kept = no_nodes }) }
        ensures signs { result.held.signs ≡ [] }
    {
        Reader {
            held: Held::new(),
            phase: Phase::Wants,
            inside: ArrayVec::new(),
        }
    }

    /// One more byte of a word or a test.
    fn grow(&mut self, byte: u8) -> bool
        ensures walk { MatchBool result
            (walk_within self.old.held (self.old.inside.items ++ byte ∷ []) ≡ Some (walk_of self.new))
            (walk_within self.old.held (self.old.inside.items ++ byte ∷ []) ≡ None) }
        ensures held { self.new.held ≡ self.old.held }
    {
        if self.inside.is_full() {
            return false;
        }
        self.inside.push(byte);
        self.phase = Phase::Within;
        is_operand_front(self.inside.as_slice())
    }

    /// The first byte of an operand, or a sign before one.
    fn begin(&mut self, byte: u8) -> bool
        requires { length self.old.held.signs < MAX_FORMULA }
        ensures walk { MatchBool result
            (walk_step (Begins self.old.held) byte ≡ Some (walk_of self.new))
            (walk_step (Begins self.old.held) byte ≡ None) }
        ensures signs { length self.new.held.signs ≤ length self.old.held.signs + 1 }
    {
        self.phase = Phase::Wants;
        match byte {
            b'!' => self.held.push(Sign::Mark),
            b'(' => self.held.push(Sign::Paren),
            _ => {
                self.inside.clear();
                return self.grow(byte);
            }
        }
        true
    }

    /// A closing parenthesis after an operand.
    fn unwrap(&mut self) -> bool
        ensures walk { MatchBool result
            (unwrapped self.old.held ≡ Some (walk_of self.new))
            (unwrapped self.old.held ≡ None) }
        ensures fewer { length self.new.held.signs ≤ length self.old.held.signs }
    {
        if !self.held.signs.pop_if(Sign::Paren) {
            return false;
        }
        self.held.apply_marks();
        self.phase = Phase::Complete;
        true
    }

    /// A byte after an operand that has ended.
    fn join(&mut self, byte: u8) -> bool
        requires { length self.old.held.signs < MAX_FORMULA }
        ensures walk { MatchBool result
            (walk_joint byte self.old.held ≡ Some (walk_of self.new))
            (walk_joint byte self.old.held ≡ None) }
        ensures signs { length self.new.held.signs ≤ length self.old.held.signs + 1 }
    {
        self.held.close_bar();
        if byte == b'|' {
            self.held.push(Sign::Bar);
            self.phase = Phase::Wants;
            return true;
        }
        self.held.close_slash();
        if byte == b'/' {
            self.held.slash();
            self.phase = Phase::Wants;
            return true;
        }
        if byte == b')' {
            return self.unwrap();
        }
        false
    }

    /// The word or the test that was read has ended.
    fn settle(&mut self) -> bool
        ensures held { MatchBool result
            (settled_in self.old.held self.old.inside.items ≡ Some self.new.held)
            (settled_in self.old.held self.old.inside.items ≡ None) }
        ensures fewer { length self.new.held.signs ≤ length self.old.held.signs }
    {
        let Some(node) = operand(self.inside.as_slice()) else {
            return false;
        };
        self.held.note(node);
        self.held.apply_marks();
        true
    }

    /// The next byte inside a word or a test.
    fn go_on(&mut self, byte: u8) -> bool
        requires { length self.old.held.signs < MAX_FORMULA }
        ensures walk { MatchBool result
            (walk_step (Inside self.old.held self.old.inside.items) byte ≡ Some (walk_of self.new))
            (walk_step (Inside self.old.held self.old.inside.items) byte ≡ None) }
        ensures signs { length self.new.held.signs ≤ length self.old.held.signs + 1 }
    {
        if !is_joint(byte) {
            return self.grow(byte);
        }
        if !self.settle() {
            return false;
        }
        self.join(byte)
    }

    /// Reads one byte. False exactly if no path begins with what was read and this byte.
    pub fn take(&mut self, byte: u8) -> bool
        requires { length self.old.held.signs < MAX_FORMULA }
        ensures walk { MatchBool result
            (walk_step (walk_of self.old) byte ≡ Some (walk_of self.new))
            (walk_step (walk_of self.old) byte ≡ None) }
        ensures signs { length self.new.held.signs ≤ length self.old.held.signs + 1 }
    {
        match self.phase {
            Phase::Wants => self.begin(byte),
            Phase::Within => self.go_on(byte),
            Phase::Complete => self.join(byte),
        }
    }

    fn settle_last(&mut self) -> bool
        ensures { MatchBool result
            (walk_settled (walk_of self.old) ≡ Some self.new.held)
            (walk_settled (walk_of self.old) ≡ None) }
    {
        match self.phase {
            Phase::Wants => false,
            Phase::Within => self.settle(),
            Phase::Complete => true,
        }
    }

    /// Ends the path. False exactly if what was read is no whole path.
    pub fn end(&mut self) -> bool
        ensures { MatchBool result
            (walk_end (walk_of self.old) ≡ Some self.new.held.kept)
            (walk_end (walk_of self.old) ≡ None) }
    {
        if !self.settle_last() {
            return false;
        }
        self.held.close_bar();
        self.held.close_slash();
        self.held.signs.is_empty()
    }
}
