//! What rows check of words and of the state that a command would give.

ghost use Rattle.std.specs.Prelude.{◌≡◌, ◌&&◌, ◌||◌, IfOk};
ghost use Rattle.std.specs.List.{list_any, list_all};
ghost use Rattle.lis_words.specs.Words.{same_word, has_word, is_plain_word, is_head, is_valued, is_test, is_built_in, head_bytes};
ghost use Rattle.lis_model.specs.State.{heads, description, is_known_head, is_nameable};
ghost use Rattle.lis_model.specs.Step.{exceeds_axioms, exceeds_known, exceeds_words, is_head_or_test, is_side, is_had, is_in_use, room_checks};
ghost use Rattle.lis_plain.specs.Carries.{Judges, word_room_checks};

use crate::file::File;
use crate::plain::Answer;
use crate::state::State;
use crate::table::{description, known};
use lis_limits::MAX_DESCRIPTION;
use lis_model::refusal::Refusal;
use lis_table::closure::Axiom;
use lis_table::words::has_word;
use lis_words::{Word, head_of, is_builtin, is_head, is_plain_word, test_of};
use std::alloc::{AllocError, Global};

// ---- words

/// Whether one of the words is built in.
pub fn has_built_in(words: &[Word]) -> bool
    ensures { result ≡ list_any is_built_in words.now }
{
    words.iter().any(|word| is_builtin(word))
}

/// Whether one of the words is a head.
pub fn has_head_word(words: &[Word]) -> bool
    ensures { result ≡ list_any is_head words.now }
{
    words.iter().any(|word| is_head(word.bytes()))
}

/// Whether the word is a head or a test, and so can't be assigned to a file.
fn is_head_or_test(word: &Word) -> bool
    ensures { result ≡ is_head_or_test word.now }
{
    if is_head(word.bytes()) {
        return true;
    }
    test_of(word).is_some()
}

/// Whether one of the words is a head or a test.
pub fn has_head_or_test(words: &[Word]) -> bool
    ensures { result ≡ list_any is_head_or_test words.now }
{
    words.iter().any(|word| is_head_or_test(word))
}

/// Whether all the words are declared.
pub fn are_declared(declared: &[Word], words: &[Word]) -> bool
    ensures { result ≡ list_all (has_word declared.now) words.now }
{
    words.iter().all(|word| has_word(declared, word))
}

/// Whether all the words are plain.
pub fn are_plain(words: &[Word]) -> bool
    ensures { result ≡ list_all is_plain_word words.now }
{
    words.iter().all(|word| is_plain_word(word.bytes()))
}

fn is_plain_or_test(word: &Word) -> bool
    ensures { result ≡ (is_plain_word word.now || is_test word.now) }
{
    if is_plain_word(word.bytes()) {
        return true;
    }
    test_of(word).is_some()
}

fn is_named(declared: &[Word], word: &Word) -> bool
    ensures { result ≡ ((is_plain_word word.now || is_test word.now) && has_word declared.now word.now) }
{
    if !is_plain_or_test(word) {
        return false;
    }
    has_word(declared, word)
}

fn is_known_head(declared: &[Word], word: &Word) -> bool
    ensures { result ≡ is_known_head declared.now word.now }
{
    if !is_head(word.bytes()) {
        return false;
    }
    if has_word(declared, word) {
        return true;
    }
    is_builtin(word)
}

fn has_known_head(declared: &[Word], word: &Word) -> bool
    ensures { result ≡ (is_valued word.now && is_known_head declared.now (head_bytes word.now)) }
{
    match head_of(word) {
        None => false,
        Some(head) => is_known_head(declared, &head),
    }
}

/// Whether an axiom may have the word as its left side.
pub fn is_nameable(declared: &[Word], word: &Word) -> bool
    ensures { result ≡ is_nameable declared.now word.now }
{
    if is_named(declared, word) {
        return true;
    }
    if is_known_head(declared, word) {
        return true;
    }
    has_known_head(declared, word)
}

// ---- uses of a word

fn is_left(axioms: &[Axiom], word: &Word) -> bool
    ensures { result ≡ list_any (λ pair. same_word pair.0 word.now) axioms.now }
{
    axioms.iter().any(|pair| pair.left == *word)
}

fn is_right(axioms: &[Axiom], word: &Word) -> bool
    ensures { result ≡ list_any (λ pair. same_word pair.1 word.now) axioms.now }
{
    axioms.iter().any(|pair| pair.right == *word)
}

fn is_side(state: &State, word: &Word) -> bool
    ensures { result ≡ is_side state.now word.now }
{
    is_left(&state.axioms, word) || is_right(&state.axioms, word)
}

fn is_head_of(left: &Word, word: &Word) -> bool
    ensures { result ≡ has_word (heads left.now) word.now }
{
    match head_of(left) {
        None => false,
        Some(head) => head == *word,
    }
}

fn is_left_head(axioms: &[Axiom], word: &Word) -> bool
    ensures { result ≡ list_any (λ pair. has_word (heads pair.0) word.now) axioms.now }
{
    axioms.iter().any(|pair| is_head_of(&pair.left, word))
}

fn is_word_of(alloc: Global, state: &State, file: &File, word: &Word) -> Result<bool, AllocError>
    ensures { IfOk result (λ has. has ≡ has_word (description state.now file.now) word.now) }
{
    let words = description(alloc, state, file)?;
    Ok(has_word(&words, word))
}

fn is_described(alloc: Global, state: &State, word: &Word) -> Result<bool, AllocError>
    ensures { IfOk result (λ described. described ≡ list_any (λ file. has_word (description state.now file) word.now) state.now.files) }
{
    for file in &state.files {
        let has = is_word_of(alloc, state, file, word)?;
        if has {
            return Ok(true);
        }
    }
    Ok(false)
}

fn is_had(alloc: Global, state: &State, word: &Word) -> Result<bool, AllocError>
    ensures { IfOk result (λ had. had ≡ is_had state.now word.now) }
{
    if is_left_head(&state.axioms, word) {
        return Ok(true);
    }
    let described = is_described(alloc, state, word)?;
    Ok(described)
}

/// Whether the word is a side of an axiom, or, if it is no test, the head of a left side or a word of some file.
pub fn is_in_use(alloc: Global, state: &State, word: &Word) -> Result<bool, AllocError>
    ensures { IfOk result (λ used. used ≡ is_in_use state.now word.now) }
{
    if is_side(state, word) {
        return Ok(true);
    }
    if test_of(word).is_some() {
        return Ok(false);
    }
    let had = is_had(alloc, state, word)?;
    Ok(had)
}

// ---- room

/// Whether there are more axioms than there is room for.
fn exceeds_axioms(state: &State) -> bool
    ensures { result ≡ exceeds_axioms state.now }
{
    state.axioms.len() > state.limits.props as usize
}

/// Whether there are more known words than there is room for.
fn exceeds_known(alloc: Global, state: &State) -> Result<bool, AllocError>
    ensures { IfOk result (λ exceeds. exceeds ≡ exceeds_known state.now) }
{
    let words = known(alloc, state)?;
    Ok(words.len() > state.limits.props as usize)
}

/// Whether a file has too many words.
fn exceeds_words(alloc: Global, state: &State) -> Result<bool, AllocError>
    ensures { IfOk result (λ exceeds. exceeds ≡ exceeds_words state.now) }
{
    for file in &state.files {
        let words = description(alloc, state, file)?;
        if words.len() > MAX_DESCRIPTION {
            return Ok(true);
        }
    }
    Ok(false)
}

/// Whether there is room for what a command on words and axioms makes.
pub fn word_room(alloc: Global, made: &State) -> Result<Answer, AllocError>
    ensures { Judges (word_room_checks made.now) result }
{
    if exceeds_axioms(made) {
        return Ok(Err(Refusal::NoAxiomRoom));
    }
    if exceeds_known(alloc, made)? {
        return Ok(Err(Refusal::NoPropertyRoom));
    }
    if exceeds_words(alloc, made)? {
        return Ok(Err(Refusal::LargeDescription));
    }
    Ok(Ok(()))
}

/// Whether there is room for what a command on files makes.
pub fn file_room(alloc: Global, made: &State) -> Result<Answer, AllocError>
    ensures { Judges (room_checks made.now) result }
{
    if exceeds_words(alloc, made)? {
        return Ok(Err(Refusal::LargeDescription));
    }
    if exceeds_known(alloc, made)? {
        return Ok(Err(Refusal::NoPropertyRoom));
    }
    Ok(Ok(()))
}
