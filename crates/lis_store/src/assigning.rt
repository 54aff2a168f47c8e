//! The words that are assigned to a new file: those of its place, and those that are named.

ghost use Rattle.std.specs.Prelude.{◌≡◌, ◌<◌, ◌≤◌, [], ◌∷◌, length, slice_get, is_some, IsSome, MatchOption, IfSome, OnOk, IfErr};
ghost use Rattle.std.specs.List.{flat_map, list_all, prefix_len, insert};
ghost use Rattle.std.specs.Ordering.{is_gt};
ghost use Rattle.lis_words.specs.Words.{word_cmp};
ghost use Rattle.lis_place.specs.Nodes.{nodes_of};
ghost use Rattle.lis_model.specs.Sets.{with_word};
ghost use Rattle.lis_model.specs.Places.{is_tag, place_words};
ghost use Rattle.lis_model.specs.State.{is_assignable};
ghost use Rattle.lis_model.specs.Step.{assigned_at};
ghost use Rattle.lis_kept.specs.Telling.{declared_of};
ghost use Rattle.lis_store.specs.Assigning.{is_conjunct, node_tags, is_held, Takes};

use arrayvec::ArrayVec;
use lis_kept::Metadata;
use lis_limits::MAX_ASSIGNED;
use lis_model::command::Tags;
use lis_place::{Node, Place};
use lis_words::{Word, head_of, is_builtin, is_head, is_plain_word};

// Whether a node is a word or a conjunction.
fn is_conjunct(node: &Node) -> bool
    ensures { result ≡ is_conjunct node.now }
{
    match node {
        Node::Word(_) => true,
        Node::AtLeast(_) => false,
        Node::Below(_) => false,
        Node::Not => false,
        Node::And => true,
        Node::Or => false,
    }
}

// Whether all nodes are words and conjunctions.
fn are_conjuncts(nodes: &[Node]) -> bool
    ensures { result ≡ list_all is_conjunct nodes.now }
{
    nodes.iter().all(|node| is_conjunct(node))
}

/// Whether the place's formula has only conjunctions and words.
pub(crate) fn has_words(place: &Place) -> bool
    ensures { result ≡ is_some (place_words place.now) }
{
    are_conjuncts(place.nodes())
}

/// Whether the word can be assigned to a file in a place of this word.
pub(crate) fn is_tag(word: &Word) -> bool
    ensures { result ≡ is_tag word.now }
{
    if is_head(word.bytes()) {
        return false;
    }
    !is_builtin(word)
}

// Whether the word is plain and declared, or valued with a declared head.
fn is_assignable(metadata: &Metadata, word: &Word) -> bool
    ensures { result ≡ is_assignable (declared_of metadata.now) word.now }
{
    if is_plain_word(word.bytes()) {
        return metadata.is_declared(word);
    }
    match head_of(word) {
        None => false,
        Some(head) => metadata.is_declared(&head),
    }
}

/// Whether each of the words can be assigned to a file.
pub(crate) fn all_assignable(metadata: &Metadata, words: &[Word]) -> bool
    ensures { result ≡ list_all (is_assignable (declared_of metadata.now)) words.now }
{
    words.iter().all(|word| is_assignable(metadata, word))
}

// Whether the word of a node, if it is a tag, can be assigned to a file.
fn is_assignable_node(metadata: &Metadata, node: &Node) -> bool
    ensures { result ≡ list_all (is_assignable (declared_of metadata.now)) (node_tags node.now) }
{
    let Node::Word(word) = node else {
        return true;
    };
    if !is_tag(word) {
        return true;
    }
    is_assignable(metadata, word)
}

// Whether the words of all nodes that are tags can be assigned to a file.
fn all_assignable_nodes(metadata: &Metadata, nodes: &[Node]) -> bool
    ensures { result ≡ list_all (λ node. list_all (is_assignable (declared_of metadata.now)) (node_tags node)) nodes.now }
{
    nodes.iter().all(|node| is_assignable_node(metadata, node))
}

/// Whether all words that are assigned to a new file at the place can be assigned.
pub(crate) fn are_assignable(metadata: &Metadata, place: &Place, tags: &Tags) -> bool
    requires { IsSome (place_words place.now) }
    ensures { result ≡ list_all (is_assignable (declared_of metadata.now)) (assigned_at place.now tags.now) }
{
    if !all_assignable_nodes(metadata, place.nodes()) {
        return false;
    }
    all_assignable(metadata, tags.as_slice())
}

// How many words at the beginning are lower than the word.
fn place_of(words: &[Word], word: &Word) -> usize
    ensures { result ≡ prefix_len (λ held. is_gt (word_cmp word.now held)) words.now }
{
    words
        .iter()
        .take_while(|held| word.cmp(*held).is_gt())
        .count()
}

// Whether the words have the word at this index.
fn stands_at(words: &[Word], place: usize, word: &Word) -> bool
    ensures { result ≡ is_held (slice_get words.now place) word.now }
{
    match words.get(place) {
        None => false,
        Some(held) => held == word,
    }
}

// The index of the word in a set of words, or, as an error, the index where it would be inserted.
fn find_place(words: &[Word], word: &Word) -> Result<usize, usize>
    ensures there { OnOk result (with_word words.now word.now ≡ words.now) }
    ensures new { IfErr result (λ place. insert words.now place word.now ≡ with_word words.now word.now) }
    ensures within { IfErr result (λ place. place ≤ length words.now) }
{
    let place = place_of(words, word);
    if stands_at(words, place, word) {
        Ok(place)
    } else {
        Err(place)
    }
}

/// Puts a word into a set of words. The result says whether there was room for it.
pub(crate) fn put_word(words: &mut ArrayVec<Word, 16>, word: &Word) -> bool
    requires { length words.old.items ≤ MAX_ASSIGNED }
    ensures { Takes (word.now ∷ []) words.old.items words.new.items result }
{
    match find_place(words.as_slice(), word) {
        Ok(_) => true,
        Err(place) => {
            if words.is_full() {
                return false;
            }
            words.insert(place, word.copied());
            true
        }
    }
}

// Puts the word of a node into a set of words, if the word is a tag.
fn put_node(words: &mut ArrayVec<Word, 16>, node: &Node) -> bool
    requires { length words.old.items ≤ MAX_ASSIGNED }
    ensures { Takes (node_tags node.now) words.old.items words.new.items result }
{
    let Node::Word(word) = node else {
        return true;
    };
    if !is_tag(word) {
        return true;
    }
    put_word(words, word)
}

/// Puts the words of a place into a set of words.
pub(crate) fn put_place(words: &mut ArrayVec<Word, 16>, place: &Place) -> bool
    requires { length words.old.items ≤ MAX_ASSIGNED }
    ensures { Takes (flat_map node_tags (nodes_of place.now)) words.old.items words.new.items result }
{
    for node in place.nodes() {
        if !put_node(words, node) {
            return false;
        }
    }
    true
}

// Puts more words into a set of words.
fn put_words(words: &mut ArrayVec<Word, 16>, more: &[Word]) -> bool
    requires { length words.old.items ≤ MAX_ASSIGNED }
    ensures { Takes more.now words.old.items words.new.items result }
{
    for word in more {
        if !put_word(words, word) {
            return false;
        }
    }
    true
}

/// The words that are assigned to a new file, as a set. The result is `None` exactly if there are more than 16.
pub(crate) fn assigned(place: &Place, tags: &Tags) -> Option<ArrayVec<Word, 16>>
    requires { IsSome (place_words place.now) }
    ensures words { MatchOption result (MAX_ASSIGNED < length (assigned_at place.now tags.now)) (λ words. words.items ≡ assigned_at place.now tags.now) }
    ensures few { IfSome result (λ words. length words.items ≤ MAX_ASSIGNED) }
{
    let mut words = ArrayVec::new();
    if !put_place(&mut words, place) {
        return None;
    }
    if !put_words(&mut words, tags.as_slice()) {
        return None;
    }
    Some(words)
}
