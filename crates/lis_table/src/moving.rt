//! What leads from one place to another.

ghost use Rattle.std.specs.Prelude.{◌≡◌, List, ◌++◌, IfOk, OnOk};
ghost use Rattle.std.specs.List.{list_all, flat_map};
ghost use Rattle.lis_words.specs.Words.{has_word};
ghost use Rattle.lis_grammar.specs.Formula.{Formula};
ghost use Rattle.lis_grammar.specs.Places.{resolved, text_words};
ghost use Rattle.lis_grammar.specs.Places.Resolution.{NewPlace};
ghost use Rattle.lis_place.specs.Nodes.{node_words};
ghost use Rattle.lis_model.specs.Places.{is_root};

use crate::words::has_word;
use lis_formula::read_formula;
use lis_place::{Node, Place};
use lis_words::Word;
use std::alloc::{AllocError, Global};

/// Whether the place has no step.
pub fn is_root(place: &Place) -> bool
    ensures { result ≡ is_root place.now }
{
    place.is_empty()
}

/// Whether the word of the node, if it has one, is known.
pub fn is_known(known: &[Word], node: &Node) -> bool
    ensures { result ≡ list_all (has_word known.now) (node_words node.now) }
{
    match node {
        Node::Word(word) => has_word(known, word),
        _ => true,
    }
}

/// Whether all words of the nodes are known.
pub fn are_known(known: &[Word], nodes: &[Node]) -> bool
    ensures { result ≡ list_all (λ node. list_all (has_word known.now) (node_words node)) nodes.now }
{
    nodes.iter().all(|node| is_known(known, node))
}

/// Whether each word in the text is known, if the text leads from some place to another. The text `..` has no words.
pub fn knows_text(known: &[Word], text: &[u8]) -> bool
    ensures { (place new : List Formula) → resolved place text.now ≡ NewPlace new → result ≡ list_all (has_word known.now) (text_words text.now) }
{
    match read_formula(text) {
        Ok(path) => are_known(known, path.place.nodes()),
        Err(_) => true,
    }
}

fn push_named(words: &mut Vec<Word>, node: &Node) -> Result<(), AllocError>
    ensures { OnOk result (words.new.items ≡ words.old.items ++ node_words node.now) }
{
    if let Node::Word(word) = node {
        words.push(word.copied())?;
    }
    Ok(())
}

fn named_words(alloc: Global, nodes: &[Node]) -> Result<Vec<Word>, AllocError>
    ensures { IfOk result (λ words. words.items ≡ flat_map node_words nodes.now) }
{
    let mut words = Vec::new(alloc);
    for node in nodes {
        push_named(&mut words, node)?;
    }
    Ok(words)
}

/// The words in the text, if it leads from some place to another. The text `..` has no words.
pub fn text_words(alloc: Global, text: &[u8]) -> Result<Vec<Word>, AllocError>
    ensures { IfOk result (λ words. (place new : List Formula) → resolved place text.now ≡ NewPlace new → words.items ≡ text_words text.now) }
{
    match read_formula(text) {
        Ok(path) => named_words(alloc, path.place.nodes()),
        Err(_) => Ok(Vec::new(alloc)),
    }
}
