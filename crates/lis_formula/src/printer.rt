//! Printing places.

ghost use Rattle.std.specs.Prelude.{◌≡◌, ◌+◌, ◌-◌, ◌<◌, ◌≤◌, [], ◌∷◌, ◌++◌, length, fold};
ghost use Rattle.std.specs.Fmt.{decimal};
ghost use Rattle.lis_grammar.specs.Printing.{printed};
ghost use Rattle.lis_formula.specs.Pieces.{stacked_text};
ghost use Rattle.lis_formula.specs.Printer.{node_bytes, all_bytes, wrapped, with_text, slashed};

use crate::pieces::Pieces;
use itoa::Buffer;
use lis_limits::{MAX_FORMULA, MAX_NODES};
use lis_place::{Node, Place, Text};

fn put_test(pieces: &mut Pieces, sign: &[u8], number: u64)
    requires room { length (stacked_text pieces.old) + length sign.now + length (decimal number)
        ≤ MAX_FORMULA }
    requires place { length pieces.old < MAX_NODES }
    ensures text { pieces.new ≡ (sign.now ++ decimal number) ∷ pieces.old }
    ensures bytes { length (stacked_text pieces.new)
        ≤ length (stacked_text pieces.old) + length sign.now + length (decimal number) }
    ensures count { length pieces.new ≡ length pieces.old + 1 }
{
    let mut buffer = Buffer::new();
    pieces.push(sign);
    pieces.put_end(buffer.format(number).as_bytes());
}

/// Puts the last two texts in parentheses, with a sign between them.
fn wrap(pieces: &mut Pieces, sign: u8)
    requires { length (stacked_text pieces.old) + 3 ≤ MAX_FORMULA }
    ensures text { pieces.new ≡ wrapped sign pieces.old }
    ensures bytes { length (stacked_text pieces.new) ≤ length (stacked_text pieces.old) + 3 }
    ensures count { length pieces.new ≤ length pieces.old }
{
    pieces.join(sign);
    pieces.put_front(b'(');
    pieces.put_end(b")".as_slice());
}

fn put(pieces: &mut Pieces, node: &Node)
    requires room { length (stacked_text pieces.old) + node_bytes node.now ≤ MAX_FORMULA }
    requires place { length pieces.old < MAX_NODES }
    ensures text { pieces.new ≡ with_text pieces.old node.now }
    ensures bytes { length (stacked_text pieces.new) ≤ length (stacked_text pieces.old) + node_bytes node.now }
    ensures count { length pieces.new ≤ length pieces.old + 1 }
{
    match node {
        Node::Word(word) => pieces.push(word.bytes()),
        Node::AtLeast(size) => put_test(pieces, b"size>=".as_slice(), *size),
        Node::Below(size) => put_test(pieces, b"size<".as_slice(), *size),
        Node::Not => pieces.put_front(b'!'),
        Node::And => wrap(pieces, b'/'),
        Node::Or => wrap(pieces, b'|'),
    }
}

/// A text for each tree of the nodes.
fn put_all(nodes: &[Node]) -> Pieces
    requires few { length nodes.now ≤ MAX_NODES }
    requires bytes { all_bytes nodes.now ≤ MAX_FORMULA }
    ensures { result ≡ fold with_text [] nodes.now }
{
    let mut pieces = Pieces::new();
    for node in nodes {
        put(&mut pieces, node);
    }
    pieces
}

/// Joins all texts by slashes.
fn join_all(pieces: &mut Pieces)
    requires { length (stacked_text pieces.old) + (length pieces.old - 1) ≤ MAX_FORMULA }
    ensures { pieces.new ≡ slashed pieces.old }
{
    while pieces.len() > 1 {
        pieces.join(b'/');
    }
}

fn slash() -> Text
    ensures { result ≡ 47 ∷ [] }
{
    let mut pieces = Pieces::new();
    pieces.push(b"/".as_slice());
    pieces.into_text()
}

/// The printed form of a place: its steps joined by `/`, with parentheses around each `|` and each `/` inside a step, and `/` for the root.
pub fn print(place: &Place) -> Text
    ensures { result ≡ printed place.now }
{
    if place.is_empty() {
        return slash();
    }
    let mut pieces = put_all(place.nodes());
    join_all(&mut pieces);
    pieces.into_text()
}
