//! The files of a place, by a stack of rows.

ghost use Rattle.std.specs.Prelude.{◌≡◌, ℕ, ◌+◌, ◌<◌, ◌≤◌, ◌&&◌, reverse};
ghost use Rattle.lis_ext.specs.Ext as ext;
ghost use Rattle.lis_grammar.specs.Formula.{Formula};
ghost use Rattle.lis_grammar.specs.Formula.Formula.{Has};
ghost use Rattle.lis_bits.specs.Rows.{HasShape, get};
ghost use Rattle.lis_model.specs.Listing.{holds_all};
ghost use Rattle.lis_eval.specs.View.{IsView, TellsFiles, TellsTest};
ghost use Rattle.lis_eval.specs.Room.{HasRoom, CanMark};
ghost use Rattle.lis_eval.specs.Stack.{Pushes, PutsNode, IsStack, in_all};

use crate::scratch::Scratch;
use crate::sizes::fill_sizes;
use crate::view::View;
use lis_bits::Rows;
use lis_ext::Ext;
use lis_limits::MAX_NODES;
use lis_place::{Node, Place};
use lis_words::Word;

// Sets a row to the files that have a word.
fn put_word<V: View>(view: &V, ext: &Ext, rows: &mut Rows, files: u32, row: u32, word: &Word)
    requires room { CanMark (V.seen view.now) rows.old files }
    requires told { TellsFiles (V.seen view.now) ext.now }
    requires row { row < 65 }
    ensures { Pushes (V.seen view.now) rows.old rows.new files row (Has word.now) }
{
    match view.id_of(word) {
        Some(number) => ext.copy_row(number, rows, row),
        None => rows.fill(row, false),
    }
}

// Does to the stack of rows what a node does to a stack of formulas, and returns how many rows it has now.
fn put_node<V: View>(
    view: &V,
    ext: &Ext,
    rows: &mut Rows,
    files: u32,
    depth: u32,
    node: &Node,
) -> u32
    requires room { CanMark (V.seen view.now) rows.old files }
    requires told { TellsFiles (V.seen view.now) ext.now }
    requires depth { depth < MAX_NODES }
    ensures { PutsNode (V.seen view.now) rows.old rows.new files depth result node.now }
{
    match node {
        Node::Word(word) => {
            put_word(view, ext, rows, files, depth + 1, word);
            depth + 1
        }
        Node::AtLeast(size) => {
            fill_sizes(view, rows, files, depth + 1, *size);
            depth + 1
        }
        Node::Below(size) => {
            fill_sizes(view, rows, files, depth + 1, *size);
            rows.negate(depth + 1);
            depth + 1
        }
        Node::Not => {
            if depth < 1 {
                return depth;
            }
            rows.negate(depth);
            depth
        }
        Node::And => {
            if depth < 2 {
                return depth;
            }
            rows.and(depth - 1, depth);
            depth - 1
        }
        Node::Or => {
            if depth < 2 {
                return depth;
            }
            rows.or(depth - 1, depth);
            depth - 1
        }
    }
}

// Fills the stack with the rows of a place's steps, and returns how many there are.
fn put_steps<V: View>(view: &V, ext: &Ext, rows: &mut Rows, files: u32, place: &Place) -> u32
    requires room { CanMark (V.seen view.now) rows.old files }
    requires told { TellsFiles (V.seen view.now) ext.now }
    ensures stack { IsStack (V.seen view.now) rows.new result (reverse place.now) }
    ensures deep { result ≤ MAX_NODES }
    ensures shape { HasShape rows.new 65 files }
    ensures first { (bit : ℕ) → get rows.new 0 bit ≡ get rows.old 0 bit }
{
    let mut depth = 0;
    for node in place.nodes() {
        depth = put_node(view, ext, rows, files, depth, node);
    }
    depth
}

// Keeps in row 0 the files that are in all rows of the stack.
fn and_all(rows: &mut Rows, files: u32, depth: u32)
    requires shape { HasShape rows.old 65 files }
    requires depth { depth ≤ MAX_NODES }
    ensures shape { HasShape rows.new 65 files }
    ensures first { (bit : ℕ) → bit < files → get rows.new 0 bit ≡ (in_all rows.old depth bit && get rows.old 0 bit) }
{
    for row in 0..depth {
        rows.and(0, row + 1);
    }
}

/// Finds the files of a place: row 0 of the scratch's files has their slots.
pub fn evaluate<V: View>(view: &V, scratch: &mut Scratch, place: &Place)
    requires { HasRoom scratch.old (V.seen view.now).limits }
    ensures room { HasRoom scratch.new (V.seen view.now).limits }
    ensures found { TellsTest (V.seen view.now) (get scratch.new.files 0) (holds_all place.now) }
    ensures kept { IsView (V.seen view.now) }
{
    let ext = view.ext();
    let files = scratch.limits.files;
    let rows = &mut scratch.files;
    fill_sizes(view, rows, files, 0, 0);
    let depth = put_steps(view, ext, rows, files, place);
    and_all(rows, files, depth);
}

/// Whether the file in a slot was found.
pub fn found(scratch: &Scratch, slot: u32) -> bool
    requires room { HasRoom scratch.now scratch.now.limits }
    requires slot { slot < scratch.now.limits.files }
    ensures { result ≡ get scratch.now.files 0 slot }
{
    scratch.files.get(0, slot)
}
