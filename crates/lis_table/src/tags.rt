//! The words of a place, and those that are assigned to a file in it.

ghost use Rattle.std.specs.Prelude.{◌≡◌, Some, None, not, filter, IfOk, OnOk, MatchOption};
ghost use Rattle.std.specs.List.{list_all, flat_map};
ghost use Rattle.lis_words.specs.Words.{has_word};
ghost use Rattle.lis_place.specs.Nodes.{node_words};
ghost use Rattle.lis_model.specs.Sets.{with_words, set_of};
ghost use Rattle.lis_model.specs.Places.{place_words, is_tag};
ghost use Rattle.lis_model.specs.Step.{words_at, tags_at, assigned_at, retagged};
ghost use Rattle.lis_table.specs.Tags.{is_conjunct};

use crate::words::{has_word, insert_word, insert_words};
use lis_place::{Node, Place};
use lis_words::{Word, is_builtin, is_head};
use std::alloc::{AllocError, Global};

/// Whether a place of these nodes has only conjunctions and words.
pub fn are_conjuncts(nodes: &[Node]) -> bool
    ensures { result ≡ list_all is_conjunct nodes.now }
{
    nodes
        .iter()
        .all(|node| matches!(node, Node::Word(_) | Node::And))
}

/// Puts the word of the node, if it has one, into the set.
pub fn insert_node(words: &mut Vec<Word>, node: &Node) -> Result<(), AllocError>
    ensures { OnOk result (words.new.items ≡ with_words words.old.items (node_words node.now)) }
{
    if let Node::Word(word) = node {
        insert_word(words, word)?;
    }
    Ok(())
}

/// The set of the words of the nodes.
pub fn words_of(alloc: Global, nodes: &[Node]) -> Result<Vec<Word>, AllocError>
    ensures { IfOk result (λ words. words.items ≡ set_of (flat_map node_words nodes.now)) }
{
    let mut words = Vec::new(alloc);
    for node in nodes {
        insert_node(&mut words, node)?;
    }
    Ok(words)
}

/// The set of the words of a place whose formula has only conjunctions and words. The result is `None` exactly at other places.
pub fn place_words(alloc: Global, place: &Place) -> Result<Option<Vec<Word>>, AllocError>
    ensures { IfOk result (λ found. MatchOption found (place_words place.now ≡ None) (λ words. place_words place.now ≡ Some words.items)) }
{
    let nodes = place.nodes();
    if !are_conjuncts(nodes) {
        return Ok(None);
    }
    let words = words_of(alloc, nodes)?;
    Ok(Some(words))
}

/// Whether the word is neither a head nor built in.
pub fn is_tag(word: &Word) -> bool
    ensures { result ≡ is_tag word.now }
{
    if is_head(word.bytes()) {
        return false;
    }
    !is_builtin(word)
}

/// The tags among the words, in their order.
pub fn tags_among(alloc: Global, words: &[Word]) -> Result<Vec<Word>, AllocError>
    ensures { IfOk result (λ tags. tags.items ≡ filter is_tag words.now) }
{
    let mut tags = Vec::new(alloc);
    for word in words {
        if is_tag(word) {
            tags.push(word.copied())?;
        }
    }
    Ok(tags)
}

/// The words of a place; none if it is no place of words.
pub fn words_at(alloc: Global, place: &Place) -> Result<Vec<Word>, AllocError>
    ensures { IfOk result (λ words. words.items ≡ words_at place.now) }
{
    match place_words(alloc, place)? {
        Some(words) => Ok(words),
        None => Ok(Vec::new(alloc)),
    }
}

/// The tags of a place; none if it is no place of words.
pub fn tags_at(alloc: Global, place: &Place) -> Result<Vec<Word>, AllocError>
    ensures { IfOk result (λ tags. tags.items ≡ tags_at place.now) }
{
    match place_words(alloc, place)? {
        Some(words) => tags_among(alloc, &words),
        None => Ok(Vec::new(alloc)),
    }
}

/// The tags of a place, and more words.
pub fn assigned_at(alloc: Global, place: &Place, more: &[Word]) -> Result<Vec<Word>, AllocError>
    ensures { IfOk result (λ assigned. assigned.items ≡ assigned_at place.now more.now) }
{
    let mut assigned = tags_at(alloc, place)?;
    insert_words(&mut assigned, more)?;
    Ok(assigned)
}

fn without(alloc: Global, words: &[Word], others: &[Word]) -> Result<Vec<Word>, AllocError>
    ensures { IfOk result (λ kept. kept.items ≡ filter (λ word. not (has_word others.now word)) words.now) }
{
    let mut kept = Vec::new(alloc);
    for word in words {
        if !has_word(others, word) {
            kept.push(word.copied())?;
        }
    }
    Ok(kept)
}

/// The words without those of one list, and with those of another.
pub fn retagged(
    alloc: Global,
    assigned: &[Word],
    here: &[Word],
    there: &[Word],
) -> Result<Vec<Word>, AllocError>
    ensures { IfOk result (λ words. words.items ≡ retagged assigned.now here.now there.now) }
{
    let mut words = without(alloc, assigned, here)?;
    insert_words(&mut words, there)?;
    Ok(words)
}
