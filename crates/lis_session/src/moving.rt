//! Where a text leads.

ghost use Rattle.std.specs.Prelude.{◌≡◌, List};
ghost use Rattle.std.specs.List.{list_all};
ghost use Rattle.lis_dict.specs.Dict.{words};
ghost use Rattle.lis_words.specs.Words.{has_word};
ghost use Rattle.lis_grammar.specs.Formula.{Formula};
ghost use Rattle.lis_grammar.specs.Places.{resolved, text_words};
ghost use Rattle.lis_grammar.specs.Places.Resolution.{NewPlace};
ghost use Rattle.lis_place.specs.Nodes.{node_words};
ghost use Rattle.lis_model.specs.State.{State, known};
ghost use Rattle.lis_model.specs.Step.{cd};
ghost use Rattle.lis_session.specs.Parts.{answer_of, led_to};

use lis_eval::View;
use lis_formula::{FormulaFault, read_formula, resolve};
use lis_model::refusal::Refusal;
use lis_place::{Node, Place, Text};
use lis_store::Store;

// Whether the word of the node, if it has one, is known.
fn is_known(store: &Store, node: &Node) -> bool
    ensures { result ≡ list_all (has_word (words store.now.metadata.dict)) (node_words node.now) }
{
    match node {
        Node::Word(word) => store.id_of(word).is_some(),
        _ => true,
    }
}

// Whether all words of the nodes are known.
fn are_known(store: &Store, nodes: &[Node]) -> bool
    ensures { result ≡ list_all (λ node. list_all (has_word (words store.now.metadata.dict)) (node_words node)) nodes.now }
{
    nodes.iter().all(|node| is_known(store, node))
}

// Whether each word in the text is known, if the text leads from some place to another. The text `..` has no words.
fn knows_text(store: &Store, text: &[u8]) -> bool
    ensures { (place new : List Formula) → resolved place text.now ≡ NewPlace new
        → result ≡ list_all (has_word (words store.now.metadata.dict)) (text_words text.now) }
{
    match read_formula(text) {
        Ok(path) => are_known(store, path.place.nodes()),
        Err(_) => true,
    }
}

// The place to which a text leads, or why it is refused.
fn led_to(store: &Store, place: &Place, text: &Text) -> Result<Place, Refusal>
    ensures { result ≡ led_to (words store.now.metadata.dict) text.now (resolved place.now text.now) }
{
    let next = match resolve(place, text.bytes()) {
        Ok(next) => next,
        Err(FormulaFault::Syntax(_)) => return Err(Refusal::BadFormula),
        Err(FormulaFault::TooLarge) => return Err(Refusal::LargeFormula),
    };
    if knows_text(store, text.bytes()) {
        return Ok(next);
    }
    Err(Refusal::UnknownProperty)
}

/// Goes to the place to which the text leads.
pub fn go(store: &Store, place: &mut Place, text: &Text) -> Result<(), Refusal>
    ensures { (state : State) → known state ≡ words store.now.metadata.dict
        → cd (record { state = state; place = place.old }) text.now ≡ record { next = record { state = state; place = place.new }; reply = answer_of result } }
{
    let next = led_to(store, place, text)?;
    *place = next;
    Ok(())
}
