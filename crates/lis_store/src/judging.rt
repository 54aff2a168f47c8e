//! What commands are refused for.

ghost use Rattle.std.specs.Prelude.{◌≡◌, ◌≤◌, is_some, length, IsTrue, OnOk, IfOk};
ghost use Rattle.std.specs.List.{list_all};
ghost use Rattle.lis_dict.specs.Dict.{word_of};
ghost use Rattle.lis_model.specs.State.{is_declarable};
ghost use Rattle.lis_model.specs.Step.{words_at};
ghost use Rattle.lis_words.specs.Words.{is_property};
ghost use Rattle.lis_kept.specs.Sound.{AreSound};
ghost use Rattle.lis_store.specs.Changes.{Judges};
ghost use Rattle.lis_store.specs.Judging.{place_checks, room_checks, word_checks, IsUndeclarable, undeclare_checks};
ghost use Rattle.lis_kept.specs.Telling.{words_told};
ghost use Rattle.lis_store.specs.Placing.{AreNumbersOf};
ghost use Rattle.lis_store.specs.Testing.{MayDeclare};

use crate::crowding::has_crowded;
use crate::placing::{has_plain_words, place_numbers};
use arrayvec::ArrayVec;
use lis_kept::Metadata;
use lis_limits::MAX_NODES;
use lis_model::refusal::Refusal;
use lis_place::Place;
use lis_taxonomy::Search;
use lis_words::{Word, is_builtin, is_valued};

// The numbers of the place's words, if the word is new and these are declared plain words.
fn may_place(
    metadata: &Metadata,
    place: &Place,
    word: &Word,
) -> Result<ArrayVec<u32, MAX_NODES>, Refusal>
    requires sound { AreSound metadata.now }
    ensures row { Judges (place_checks metadata.now place.now word.now) result }
    ensures form { OnOk result (IsTrue (is_declarable word.now)) }
    ensures word { IsTrue (is_property word.now) }
    ensures numbers { IfOk result (λ numbers. AreNumbersOf metadata.now (words_at place.now) numbers.items) }
    ensures few { IfOk result (λ numbers. length numbers.items ≤ MAX_NODES) }
{
    let bytes = word.bytes();
    if is_builtin(word) {
        return Err(Refusal::BuiltIn);
    }
    if is_valued(bytes) {
        return Err(Refusal::NotAssignable);
    }
    if metadata.is_declared(word) {
        return Err(Refusal::AlreadyDeclared);
    }
    if !has_plain_words(place) {
        return Err(Refusal::NotAPlace);
    }
    match place_numbers(metadata, place) {
        None => Err(Refusal::UnknownProperty),
        Some(numbers) => Ok(numbers),
    }
}

// Whether there is room for the word, and for axioms from it to the words of these numbers.
fn has_room(
    metadata: &Metadata,
    word: &Word,
    numbers: &[u32],
    search: &mut Search,
) -> Result<(), Refusal>
    requires named { IsTrue (list_all (λ n. is_some (word_of metadata.now.dict n)) numbers.now) }
    requires few { length numbers.now ≤ MAX_NODES }
    ensures { Judges (room_checks metadata.now word.now (length numbers.now) numbers.now) result }
{
    let props = metadata.limits().props;
    if metadata.axiom_count() + numbers.len() as u32 > props {
        return Err(Refusal::NoAxiomRoom);
    }
    if metadata.word_count() >= props {
        return Err(Refusal::NoPropertyRoom);
    }
    if has_crowded(metadata, word, numbers, search) {
        return Err(Refusal::LargeDescription);
    }
    Ok(())
}

/// The numbers of the place's words, if the word may be declared at the place.
pub(crate) fn may_declare(
    metadata: &Metadata,
    place: &Place,
    word: &Word,
    search: &mut Search,
) -> Result<ArrayVec<u32, MAX_NODES>, Refusal>
    requires sound { AreSound metadata.now }
    ensures row { Judges (word_checks metadata.now place.now word.now) result }
    ensures word { IsTrue (is_property word.now) }
    ensures may { IfOk result (λ numbers. MayDeclare metadata.now word.now numbers.items) }
    ensures told { IfOk result (λ numbers. words_told metadata.now.dict numbers.items ≡ words_at place.now) }
{
    let numbers = may_place(metadata, place, word)?;
    has_room(metadata, word, numbers.as_slice(), search)?;
    Ok(numbers)
}

/// The number of a word whose declaration may be removed.
pub(crate) fn may_undeclare(metadata: &Metadata, word: &Word) -> Result<u32, Refusal>
    requires sound { AreSound metadata.now }
    ensures row { Judges (undeclare_checks metadata.now word.now) result }
    ensures may { IfOk result (λ number. IsUndeclarable metadata.now word.now number) }
{
    if is_builtin(word) {
        return Err(Refusal::BuiltIn);
    }
    if is_valued(word.bytes()) {
        return Err(Refusal::NotAssignable);
    }
    if !metadata.is_declared(word) {
        return Err(Refusal::NotDeclared);
    }
    let Some(number) = metadata.number_of(word) else {
        unreachable!()
    };
    if metadata.is_needed(number) {
        return Err(Refusal::InUse);
    }
    Ok(number)
}
