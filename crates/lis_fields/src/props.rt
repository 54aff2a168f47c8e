//! Property slots.

ghost use Rattle.std.specs.Prelude.{◌≡◌, ℕ, ◌<◌, List, length, Option, Some, IfSome, IsTrue};
ghost use Rattle.lis_words.specs.Words.{is_property};
ghost use Rattle.lis_model.specs.State.{is_declarable};
ghost use Rattle.lis_fields.specs.Layouts.{named, prop_bytes, is_prop, is_undeclared};
ghost use Rattle.lis_fields.specs.declared.slots.PropSlot.{PropSlot};
ghost use Rattle.lis_fields.specs.declared.slots.PropSlot.TheVariants.{Known, Declared};

use crate::fields::{TEXT_FIELD, are_zeros, read_text, write_text, write_zeros};
use crate::slots::PropSlot;
use lis_limits::PROP_LEN;
use lis_words::{Word, is_builtin, is_head, is_plain_word, is_valued, read_word, test_of};

/// Whether the word may be known without being declared.
fn is_undeclared(word: &Word) -> bool
    ensures { result ≡ is_undeclared word.now }
{
    if is_valued(word.bytes()) {
        return true;
    }
    if !is_head(word.bytes()) {
        return false;
    }
    is_builtin(word)
}

/// Whether the word may be declared.
fn is_declarable(word: &Word) -> bool
    ensures { result ≡ is_declarable word.now }
{
    if is_plain_word(word.bytes()) {
        return true;
    }
    if test_of(word).is_some() {
        return true;
    }
    if !is_head(word.bytes()) {
        return false;
    }
    !is_builtin(word)
}

/// The kind and the word of a slot that has one.
fn read_named(bytes: &[u8]) -> Option<(u8, Word)>
    requires { length bytes.now ≡ PROP_LEN }
    ensures spelled { IfSome result (λ found. bytes.now ≡ named found.0 found.1) }
    ensures same { (kind : ℕ) (word : List ℕ) → IsTrue (is_property word) → bytes.now ≡ named kind word → result ≡ Some (kind, word) }
{
    let (kind, rest) = bytes.split_first()?;
    let (text, end) = rest.split_at(TEXT_FIELD);
    if !are_zeros(end) {
        return None;
    }
    let word = read_word(read_text(text)?)?;
    Some((*kind, word))
}

/// The slot of that kind and word. None exactly if there is none.
#[tactic(auto, unfolding(crate::specs::Layouts::prop_bytes))]
fn named_slot(kind: u8, word: Word) -> Option<PropSlot>
    ensures spelled { IfSome result (λ slot. IsTrue (is_prop slot) × (named kind word ≡ prop_bytes slot)) }
    ensures known { kind ≡ 1 → IsTrue (is_undeclared word) → result ≡ Some (Known word) }
    ensures declared { kind ≡ 2 → IsTrue (is_declarable word) → result ≡ Some (Declared word) }
{
    match kind {
        1 => {
            if !is_undeclared(&word) {
                return None;
            }
            Some(PropSlot::Known(word))
        }
        2 => {
            if !is_declarable(&word) {
                return None;
            }
            Some(PropSlot::Declared(word))
        }
        _ => None,
    }
}

/// Reads a property slot. None exactly if the bytes are no spelling of one.
#[tactic(auto, unfolding(crate::specs::Layouts::prop_bytes))]
pub fn read_prop(bytes: &[u8]) -> Option<PropSlot>
    ensures spelled { IfSome result (λ slot. IsTrue (is_prop slot) × (bytes.now ≡ prop_bytes slot)) }
    ensures same { (slot : PropSlot) → IsTrue (is_prop slot) → bytes.now ≡ prop_bytes slot → result ≡ Some slot }
{
    if bytes.len() != PROP_LEN {
        return None;
    }
    if are_zeros(bytes) {
        return Some(PropSlot::Free);
    }
    let (kind, word) = read_named(bytes)?;
    named_slot(kind, word)
}

fn write_named(kind: u8, word: &Word, bytes: &mut [u8])
    requires { length bytes.old ≡ PROP_LEN }
    ensures { bytes.new ≡ named kind word.now }
{
    let (start, rest) = bytes.split_at_mut(1);
    let (text, end) = rest.split_at_mut(TEXT_FIELD);
    start[0] = kind;
    write_text(word.bytes(), text);
    write_zeros(end);
}

/// Writes a property slot.
#[tactic(auto, unfolding(crate::specs::Layouts::prop_bytes))]
pub fn write_prop(slot: &PropSlot, bytes: &mut [u8])
    requires len { length bytes.old ≡ PROP_LEN }
    requires range { IsTrue (is_prop slot.now) }
    ensures { bytes.new ≡ prop_bytes slot.now }
{
    match slot {
        PropSlot::Free => write_zeros(bytes),
        PropSlot::Known(word) => write_named(1, word, bytes),
        PropSlot::Declared(word) => write_named(2, word, bytes),
    }
}
