//! What a file is refused for that would move from one place to another.

ghost use Rattle.std.specs.Prelude.{◌≡◌, ◌<◌, ◌≤◌, not, List, Some, length, filter, IsSome, IfOk, OnOk, IfSome, MatchOption};
ghost use Rattle.std.specs.List.{flat_map, list_any};
ghost use Rattle.std.specs.List.Sorted.{IsStrictlySortedBy};
ghost use Rattle.lis_catalog.specs.Catalog.{rec_at};
ghost use Rattle.lis_fields.specs.Records.{FileRecord};
ghost use Rattle.lis_words.specs.Words.{word_cmp, has_word, is_built_in, is_head};
ghost use Rattle.lis_grammar.specs.Formula.{Formula};
ghost use Rattle.lis_grammar.specs.Places.{resolved, text_words};
ghost use Rattle.lis_grammar.specs.Places.Resolution.{NewPlace};
ghost use Rattle.lis_place.specs.Nodes.{node_words};
ghost use Rattle.lis_model.specs.Places.{place_words};
ghost use Rattle.lis_model.specs.Step.{tags_at, retagged};
ghost use Rattle.lis_store.specs.Assigning.{node_tags};
ghost use Rattle.lis_store.specs.Changes.{Judges};
ghost use Rattle.lis_store.specs.Retagging.{place_or_refusal, words_moved, text_checks, places_checks, moving_checks};

use crate::assigning::{are_assignable, has_words, is_tag, put_place};
use crate::instead::assigned_in;
use arrayvec::ArrayVec;
use lis_formula::{FormulaFault, read_formula, resolve};
use lis_kept::Metadata;
use lis_limits::MAX_ASSIGNED;
use lis_model::command::Tags;
use lis_model::refusal::Refusal;
use lis_place::{Node, Place, Text};
use lis_words::{Word, is_builtin, is_head};

// ---- the text

/// The place to which a text leads, or why it is refused.
pub(crate) fn place_or_refusal(place: &Place, text: &Text) -> Result<Place, Refusal>
    ensures { result ≡ place_or_refusal (resolved place.now text.now) }
{
    match resolve(place, text.bytes()) {
        Ok(next) => Ok(next),
        Err(FormulaFault::Syntax(_)) => Err(Refusal::BadFormula),
        Err(FormulaFault::TooLarge) => Err(Refusal::LargeFormula),
    }
}

// Whether the node has a word, and it is built in.
fn is_built_in(node: &Node) -> bool
    ensures { result ≡ list_any is_built_in (node_words node.now) }
{
    match node {
        Node::Word(word) => is_builtin(word),
        _ => false,
    }
}

// Whether the word of one of the nodes is built in.
fn has_built_in(nodes: &[Node]) -> bool
    ensures { result ≡ list_any (λ node. list_any is_built_in (node_words node)) nodes.now }
{
    nodes.iter().any(|node| is_built_in(node))
}

// Whether the node has a word, and it is a head.
fn is_head_node(node: &Node) -> bool
    ensures { result ≡ list_any is_head (node_words node.now) }
{
    match node {
        Node::Word(word) => is_head(word.bytes()),
        _ => false,
    }
}

// Whether the word of one of the nodes is a head.
fn has_head(nodes: &[Node]) -> bool
    ensures { result ≡ list_any (λ node. list_any is_head (node_words node)) nodes.now }
{
    nodes.iter().any(|node| is_head_node(node))
}

// What the words of the nodes of a text are refused for.
fn may_name_nodes(nodes: &[Node]) -> Result<(), Refusal>
    ensures { Judges (text_checks (flat_map node_words nodes.now)) result }
{
    if has_built_in(nodes) {
        return Err(Refusal::BuiltIn);
    }
    if has_head(nodes) {
        return Err(Refusal::NotAssignable);
    }
    Ok(())
}

// What the words of a text are refused for, if the text leads from some place to another. The text `..` has no words.
fn may_name_text(text: &[u8]) -> Result<(), Refusal>
    ensures { (place new : List Formula) → resolved place text.now ≡ NewPlace new → Judges (text_checks (text_words text.now)) result }
{
    match read_formula(text) {
        Ok(path) => may_name_nodes(path.place.nodes()),
        Err(_) => Ok(()),
    }
}

// ---- the words

// Whether the word is that of the node, and is a tag.
fn is_node_tag(node: &Node, word: &Word) -> bool
    ensures { result ≡ has_word (node_tags node.now) word.now }
{
    let Node::Word(held) = node else {
        return false;
    };
    if !is_tag(held) {
        return false;
    }
    held == word
}

// Whether the word is that of one of the nodes, and is a tag.
fn has_tag(nodes: &[Node], word: &Word) -> bool
    ensures { result ≡ list_any (λ node. has_word (node_tags node) word.now) nodes.now }
{
    nodes.iter().any(|node| is_node_tag(node, word))
}

// The words without the tags of the nodes.
fn without_tags(words: &[Word], nodes: &[Node]) -> ArrayVec<Word, 16>
    requires { length words.now ≤ MAX_ASSIGNED }
    ensures words { result.items ≡ filter (λ word. not (list_any (λ node. has_word (node_tags node) word) nodes.now)) words.now }
    ensures few { length result.items ≤ MAX_ASSIGNED }
{
    let mut kept = ArrayVec::new();
    for word in words {
        if !has_tag(nodes, word) {
            kept.push(word.copied());
        }
    }
    kept
}

// The words of a file, a set, without the tags of one place and with those of another. The result is `None` exactly if there are more than
// 16.
fn retagged(words: &[Word], here: &Place, there: &Place) -> Option<ArrayVec<Word, 16>>
    requires here { IsSome (place_words here.now) }
    requires there { IsSome (place_words there.now) }
    requires few { length words.now ≤ MAX_ASSIGNED }
    ensures words { IsStrictlySortedBy word_cmp words.now → MatchOption result (MAX_ASSIGNED < length (retagged words.now (tags_at here.now) (tags_at there.now)))
        (λ moved. moved.items ≡ retagged words.now (tags_at here.now) (tags_at there.now)) }
    ensures few { IfSome result (λ moved. length moved.items ≤ MAX_ASSIGNED) }
{
    let mut moved = without_tags(words, here.nodes());
    if !put_place(&mut moved, there) {
        return None;
    }
    Some(moved)
}

// The words of the file in a slot, without the tags of one place and with those of another. The result is `None` exactly if there are more
// than 16.
fn words_moved(
    metadata: &Metadata,
    slot: u32,
    here: &Place,
    there: &Place,
) -> Option<ArrayVec<Word, 16>>
    requires rec { IsSome (rec_at metadata.now.catalog slot) }
    requires here { IsSome (place_words here.now) }
    requires there { IsSome (place_words there.now) }
    ensures words { (rec : FileRecord) → rec_at metadata.now.catalog slot ≡ Some rec
        → MatchOption result (MAX_ASSIGNED < length (words_moved metadata.now rec here.now there.now)) (λ moved. moved.items ≡ words_moved metadata.now rec here.now there.now) }
    ensures few { IfSome result (λ moved. length moved.items ≤ MAX_ASSIGNED) }
{
    let words = assigned_in(metadata, slot);
    retagged(words.as_slice(), here, there)
}

// ---- the row

// What the two places and the words of the text that leads from one to the other are refused for.
fn may_lead(metadata: &Metadata, here: &Place, there: &Place, text: &Text) -> Result<(), Refusal>
    requires { resolved here.now text.now ≡ NewPlace there.now }
    ensures row { Judges (places_checks metadata.now here.now there.now (text_words text.now)) result }
    ensures here { OnOk result (IsSome (place_words here.now)) }
    ensures there { OnOk result (IsSome (place_words there.now)) }
{
    if !has_words(here) {
        return Err(Refusal::NotAPlace);
    }
    if !has_words(there) {
        return Err(Refusal::NotAPlace);
    }
    may_name_text(text.bytes())?;
    if !are_assignable(metadata, there, &Tags::new()) {
        return Err(Refusal::UnknownProperty);
    }
    Ok(())
}

/// The words that would be assigned to the file in a slot at the place to which a text leads, or what the file is refused for whatever its
/// bytes are.
pub(crate) fn may_move(
    metadata: &Metadata,
    slot: u32,
    here: &Place,
    there: &Place,
    text: &Text,
) -> Result<ArrayVec<Word, 16>, Refusal>
    requires rec { IsSome (rec_at metadata.now.catalog slot) }
    requires leads { resolved here.now text.now ≡ NewPlace there.now }
    ensures row { (rec : FileRecord) → rec_at metadata.now.catalog slot ≡ Some rec
        → Judges (moving_checks metadata.now here.now there.now (text_words text.now) rec) result }
    ensures words { IfOk result (λ words. (rec : FileRecord) → rec_at metadata.now.catalog slot ≡ Some rec
        → words.items ≡ words_moved metadata.now rec here.now there.now) }
{
    may_lead(metadata, here, there, text)?;
    let Some(moved) = words_moved(metadata, slot, here, there) else {
        return Err(Refusal::TooManyAssigned);
    };
    Ok(moved)
}
