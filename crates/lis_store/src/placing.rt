//! The words of a place under which a word is declared, and their numbers.

ghost use Rattle.std.specs.Prelude.{◌≡◌, ◌∷◌, ◌<◌, ◌≤◌, [], false, length, IsSome, MatchOption, IfSome};
ghost use Rattle.std.specs.List.{list_all};
ghost use Rattle.lis_place.specs.Nodes.{node_words};
ghost use Rattle.lis_model.specs.Places.{place_words};
ghost use Rattle.lis_model.specs.Step.{is_plain_place, words_at};
ghost use Rattle.lis_kept.specs.Sound.{AreSound};
ghost use Rattle.lis_kept.specs.Telling.{is_declared};
ghost use Rattle.lis_store.specs.Placing.{is_plain_conjunct, declared_number, AreNumbersOf, TakesNumbers};
ghost use Rattle.lis_model.specs.Sets.{has_number};

use arrayvec::ArrayVec;
use lis_kept::Metadata;
use lis_limits::MAX_NODES;
use lis_place::{Node, Place};
use lis_words::{Word, is_plain_word};

// Whether a node is a plain word, or a conjunction.
fn is_plain_conjunct(node: &Node) -> bool
    ensures { result ≡ is_plain_conjunct node.now }
{
    match node {
        Node::Word(word) => is_plain_word(word.bytes()),
        Node::AtLeast(_) => false,
        Node::Below(_) => false,
        Node::Not => false,
        Node::And => true,
        Node::Or => false,
    }
}

// Whether all nodes are plain words and conjunctions.
fn are_plain_conjuncts(nodes: &[Node]) -> bool
    ensures { result ≡ list_all is_plain_conjunct nodes.now }
{
    nodes.iter().all(|node| is_plain_conjunct(node))
}

/// Whether the place's formula has only conjunctions and plain words.
pub(crate) fn has_plain_words(place: &Place) -> bool
    ensures { result ≡ is_plain_place (place_words place.now) }
{
    are_plain_conjuncts(place.nodes())
}

// The number of a word, if it is declared.
fn declared_number(metadata: &Metadata, word: &Word) -> Option<u32>
    ensures { result ≡ declared_number metadata.now word.now }
{
    if !metadata.is_declared(word) {
        return None;
    }
    metadata.number_of(word)
}

// Whether the number is one of these.
fn has_number(numbers: &[u32], number: u32) -> bool
    ensures { result ≡ has_number numbers.now number }
{
    numbers.iter().any(|held| *held == number)
}

// Adds the number of a word to the others, if the word is declared. The result says whether it is.
fn take_number(metadata: &Metadata, numbers: &mut ArrayVec<u32, MAX_NODES>, word: &Word) -> bool
    requires sound { AreSound metadata.now }
    requires room { length numbers.old.items < MAX_NODES }
    ensures { TakesNumbers metadata.now (word.now ∷ []) numbers.old.items numbers.new.items result }
{
    let Some(number) = declared_number(metadata, word) else {
        return false;
    };
    if has_number(numbers.as_slice(), number) {
        return true;
    }
    numbers.push(number);
    true
}

// Adds the number of a node's word to the others, if the word is declared. The result says whether it is.
fn take_node(metadata: &Metadata, numbers: &mut ArrayVec<u32, MAX_NODES>, node: &Node) -> bool
    requires sound { AreSound metadata.now }
    requires room { length numbers.old.items < MAX_NODES }
    ensures { TakesNumbers metadata.now (node_words node.now) numbers.old.items numbers.new.items result }
{
    let Node::Word(word) = node else {
        return true;
    };
    take_number(metadata, numbers, word)
}

/// The numbers of the words of the place, each once. The result is `None` exactly if some word is not declared.
pub(crate) fn place_numbers(metadata: &Metadata, place: &Place) -> Option<ArrayVec<u32, MAX_NODES>>
    requires sound { AreSound metadata.now }
    requires place { IsSome (place_words place.now) }
    ensures numbers { MatchOption result (list_all (is_declared metadata.now) (words_at place.now) ≡ false)
        (λ numbers. AreNumbersOf metadata.now (words_at place.now) numbers.items) }
    ensures few { IfSome result (λ numbers. length numbers.items ≤ MAX_NODES) }
{
    let mut numbers = ArrayVec::new();
    for node in place.nodes() {
        if !take_node(metadata, &mut numbers, node) {
            return None;
        }
    }
    Some(numbers)
}
