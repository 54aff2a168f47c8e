//! Sets of words as sorted lists.

ghost use Rattle.std.specs.Prelude.{◌≡◌, ◌&&◌, OnOk, OnErr, IfOk};
ghost use Rattle.std.specs.List.{prefix_len, list_all};
ghost use Rattle.std.specs.Ordering.{is_gt};
ghost use Rattle.lis_words.specs.Words.{has_word, word_cmp, is_valued, head_bytes};
ghost use Rattle.lis_model.specs.Sets.{with_word, with_words};
ghost use Rattle.lis_model.specs.State.{is_assignable};
ghost use Rattle.lis_table.specs.Places.{first_is};

use lis_words::{Word, head_of, is_plain_word};
use std::alloc::{AllocError, Global};

/// Whether the word is one of these.
pub fn has_word(words: &[Word], word: &Word) -> bool
    ensures { result ≡ has_word words.now word.now }
{
    words.iter().any(|held| held == word)
}

/// How many words of a set are before the word, or would be.
pub fn word_place(words: &[Word], word: &Word) -> usize
    ensures { result ≡ prefix_len (λ held. is_gt (word_cmp word.now held)) words.now }
{
    words
        .iter()
        .take_while(|held| word.cmp(held).is_gt())
        .count()
}

/// Whether the word is the first of these.
pub fn begins_with_word(words: &[Word], word: &Word) -> bool
    ensures { result ≡ first_is word_cmp word.now words.now }
{
    match words {
        [] => false,
        [first, ..] => word.cmp(first).is_eq(),
    }
}

/// Inserts the word at its index in the order, unless it is there.
pub fn insert_word(words: &mut Vec<Word>, word: &Word) -> Result<(), AllocError>
    ensures ok { OnOk result (words.new.items ≡ with_word words.old.items word.now) }
    ensures err { OnErr result (words.new.items ≡ words.old.items) }
{
    let place = word_place(words, word);
    let (_, behind) = words.as_slice().split_at(place);
    if begins_with_word(behind, word) {
        return Ok(());
    }
    words.insert(place, word.copied())?;
    Ok(())
}

/// Puts each of the words into the set.
pub fn insert_words(words: &mut Vec<Word>, more: &[Word]) -> Result<(), AllocError>
    ensures ok { OnOk result (words.new.items ≡ with_words words.old.items more.now) }
{
    for word in more {
        insert_word(words, word)?;
    }
    Ok(())
}

/// Whether the word is valued with a declared head.
pub fn has_head(declared: &[Word], word: &Word) -> bool
    ensures { result ≡ (is_valued word.now && has_word declared.now (head_bytes word.now)) }
{
    match head_of(word) {
        None => false,
        Some(head) => has_word(declared, &head),
    }
}

/// Whether the word is plain and declared, or valued with a declared head.
pub fn is_assignable(declared: &[Word], word: &Word) -> bool
    ensures { result ≡ is_assignable declared.now word.now }
{
    if is_plain_word(word.bytes()) {
        return has_word(declared, word) || has_head(declared, word);
    }
    has_head(declared, word)
}

/// Whether each of the words is assignable.
pub fn are_assignable(declared: &[Word], words: &[Word]) -> bool
    ensures { result ≡ list_all (is_assignable declared.now) words.now }
{
    words.iter().all(|word| is_assignable(declared, word))
}

/// The same words.
pub fn copies(alloc: Global, words: &[Word]) -> Result<Vec<Word>, AllocError>
    ensures { IfOk result (λ copies. copies.items ≡ words.now) }
{
    words.iter().map(|word| word.copied()).collect(alloc)
}
