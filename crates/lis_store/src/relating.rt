//! What a new axiom is refused for.

ghost use Rattle.std.specs.Prelude.{◌≡◌, ℕ, ◌+◌, ◌<◌, ◌≤◌, ◌&&◌, ◌||◌, nat_lt, List, length, is_some, Some, IsSome, IfSome, IfOk, if◌then◌else◌};
ghost use Rattle.lis_dict.specs.Dict.{words, number_of, word_of};
ghost use Rattle.lis_ext.specs.Ext.{has};
ghost use Rattle.lis_words.specs.Words.{has_word, is_plain_word, is_test, is_valued, head_bytes};
ghost use Rattle.lis_model.specs.Sets.{with_words};
ghost use Rattle.lis_model.specs.State.{is_known_head, is_nameable};
ghost use Rattle.lis_model.specs.Changes.{has_axiom};
ghost use Rattle.lis_kept.specs.Sound.{AreSound};
ghost use Rattle.lis_kept.specs.Telling.{declared_of, axioms_of};
ghost use Rattle.lis_store.specs.Adding.{behind_head};
ghost use Rattle.lis_store.specs.Changes.{Judges};
ghost use Rattle.lis_store.specs.Closing.{AreGained, is_gained, wider};
ghost use Rattle.lis_store.specs.Unlinking.{IsAxiomAt};
ghost use Rattle.lis_store.specs.Relating.{entails_word, has_overfull, pair_checks, axiom_room_checks, axiom_checks_of};

use crate::crowding::{find_gained, is_full};
use lis_kept::Metadata;
use lis_limits::MAX_DESCRIPTION;
use lis_model::refusal::Refusal;
use lis_taxonomy::Search;
use lis_words::{Word, head_of, is_builtin, is_head, is_plain_word, test_of};

fn is_plain_or_test(word: &Word) -> bool
    ensures { result ≡ (is_plain_word word.now || is_test word.now) }
{
    if is_plain_word(word.bytes()) {
        return true;
    }
    test_of(word).is_some()
}

// Whether the word is declared, and is plain or a test.
fn is_named(metadata: &Metadata, word: &Word) -> bool
    ensures { result ≡ ((is_plain_word word.now || is_test word.now) && has_word (declared_of metadata.now) word.now) }
{
    if !is_plain_or_test(word) {
        return false;
    }
    metadata.is_declared(word)
}

// Whether the word is a head that is declared or built in.
fn is_known_head(metadata: &Metadata, word: &Word) -> bool
    ensures { result ≡ is_known_head (declared_of metadata.now) word.now }
{
    if !is_head(word.bytes()) {
        return false;
    }
    if metadata.is_declared(word) {
        return true;
    }
    is_builtin(word)
}

// Whether the word is valued, and its head is declared or built in.
fn has_known_head(metadata: &Metadata, word: &Word) -> bool
    ensures { result ≡ (is_valued word.now && is_known_head (declared_of metadata.now) (head_bytes word.now)) }
{
    match head_of(word) {
        None => false,
        Some(head) => is_known_head(metadata, &head),
    }
}

// Whether an axiom may have the word as its left side.
fn is_nameable(metadata: &Metadata, word: &Word) -> bool
    ensures { result ≡ is_nameable (declared_of metadata.now) word.now }
{
    if is_named(metadata, word) {
        return true;
    }
    if is_known_head(metadata, word) {
        return true;
    }
    has_known_head(metadata, word)
}

/// The numbers of the two words of an axiom, if there is this axiom.
pub(crate) fn axiom_numbers(metadata: &Metadata, left: &Word, right: &Word) -> Option<(u32, u32)>
    requires sound { AreSound metadata.now }
    ensures there { is_some result ≡ has_axiom (axioms_of metadata.now) (left.now, right.now) }
    ensures numbers { IfSome result (λ pair. IsAxiomAt metadata.now left.now right.now pair.0 pair.1) }
{
    let Some(from) = metadata.number_of(left) else {
        return None;
    };
    let Some(to) = metadata.number_of(right) else {
        return None;
    };
    if !metadata.has_axiom(from, to) {
        return None;
    }
    Some((from, to))
}

// Whether a word that has a number entails the other word.
fn leads(metadata: &Metadata, number: u32, word: &Word, other: &Word, search: &mut Search) -> bool
    requires sound { AreSound metadata.now }
    requires number { number_of metadata.now.dict word.now ≡ Some number }
    ensures { result ≡ entails_word metadata.now word.now other.now }
{
    let Some(to) = metadata.number_of(other) else {
        return false;
    };
    metadata.taxonomy().entails(number, to, search)
}

// How many numbers a word still needs.
fn lacked(metadata: &Metadata, word: &Word) -> u32
    ensures { result ≡ (if is_some (number_of metadata.now.dict word.now) then 0 else 1) }
{
    match metadata.number_of(word) {
        None => 1,
        Some(_) => 0,
    }
}

// How many numbers a word and its head still need.
fn lacked_with_head(metadata: &Metadata, word: &Word) -> u32
    requires sound { AreSound metadata.now }
    ensures count { length (with_words (words metadata.now.dict) (behind_head word.now)) ≡ length metadata.now.dict.entries + result }
    ensures few { result ≤ 2 }
{
    match head_of(word) {
        None => lacked(metadata, word),
        Some(head) => lacked(metadata, &head) + lacked(metadata, word),
    }
}

// Whether the description in a slot has the left number, and would have too many words with those that were found.
fn is_overfull(metadata: &Metadata, gained: &Search, slot: u32, left: u32) -> bool
    requires sound { AreSound metadata.now }
    requires slot { slot < metadata.now.limits.files }
    requires left { IsSome (word_of metadata.now.dict left) }
    requires gained { (numbers : List ℕ) × AreGained metadata.now numbers gained.now }
    ensures { (numbers : List ℕ) → AreGained metadata.now numbers gained.now
        → result ≡ (has metadata.now.ext left slot && nat_lt MAX_DESCRIPTION (length (wider metadata.now (is_gained metadata.now numbers) slot))) }
{
    if !metadata.ext().has(left, slot) {
        return false;
    }
    is_full(metadata, gained, slot, MAX_DESCRIPTION as u32)
}

// Whether some description that has the left word would have too many words.
fn has_overfull(
    metadata: &Metadata,
    left: &Word,
    right: &Word,
    number: u32,
    search: &mut Search,
) -> bool
    requires sound { AreSound metadata.now }
    requires number { number_of metadata.now.dict right.now ≡ Some number }
    ensures { result ≡ has_overfull metadata.now left.now right.now }
{
    let Some(from) = metadata.number_of(left) else {
        return false;
    };
    let files = metadata.limits().files;
    find_gained(metadata, &[number], search);
    for slot in 0..files {
        if is_overfull(metadata, search, slot, from) {
            return true;
        }
    }
    false
}

// The number of the right word, or what the two words are refused for.
fn may_pair(
    metadata: &Metadata,
    left: &Word,
    right: &Word,
    search: &mut Search,
) -> Result<u32, Refusal>
    requires sound { AreSound metadata.now }
    ensures row { Judges (pair_checks metadata.now left.now right.now) result }
    ensures number { IfOk result (λ number. number_of metadata.now.dict right.now ≡ Some number) }
{
    if !is_plain_word(right.bytes()) {
        return Err(Refusal::NotAssignable);
    }
    if !metadata.is_declared(right) || !is_nameable(metadata, left) {
        return Err(Refusal::UnknownProperty);
    }
    if axiom_numbers(metadata, left, right).is_some() {
        return Err(Refusal::AxiomThere);
    }
    let Some(number) = metadata.number_of(right) else {
        unreachable!()
    };
    if leads(metadata, number, right, left, search) {
        return Err(Refusal::Cycle);
    }
    Ok(number)
}

// Whether there is room for an axiom between the two words.
fn has_room(
    metadata: &Metadata,
    left: &Word,
    right: &Word,
    number: u32,
    search: &mut Search,
) -> Result<(), Refusal>
    requires sound { AreSound metadata.now }
    requires number { number_of metadata.now.dict right.now ≡ Some number }
    ensures row { Judges (axiom_room_checks metadata.now left.now right.now) result }
{
    let props = metadata.limits().props;
    if metadata.axiom_count() >= props {
        return Err(Refusal::NoAxiomRoom);
    }
    if metadata.word_count() + lacked_with_head(metadata, left) > props {
        return Err(Refusal::NoPropertyRoom);
    }
    if has_overfull(metadata, left, right, number, search) {
        return Err(Refusal::LargeDescription);
    }
    Ok(())
}

/// What an axiom from the left word to the right one is refused for.
pub(crate) fn may_relate(
    metadata: &Metadata,
    left: &Word,
    right: &Word,
    search: &mut Search,
) -> Result<(), Refusal>
    requires sound { AreSound metadata.now }
    ensures row { Judges (axiom_checks_of metadata.now left.now right.now) result }
{
    let number = may_pair(metadata, left, right, search)?;
    has_room(metadata, left, right, number, search)
}
