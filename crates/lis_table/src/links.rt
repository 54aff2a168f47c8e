//! A word's own links: to its head, and to the declared tests that are weaker.

ghost use Rattle.std.specs.Prelude.{◌≡◌, Some, filter, IfOk, OnOk};
ghost use Rattle.lis_words.specs.Words.{test_of};
ghost use Rattle.lis_model.specs.Sets.{with_words};
ghost use Rattle.lis_model.specs.State.{heads};
ghost use Rattle.lis_model.specs.Tests.{is_weaker, are_weaker, weaker_tests, met_tests};
ghost use Rattle.lis_table.specs.Links.{with_links, all_linked};

use crate::words::{has_word, insert_word};
use lis_model::met::is_met;
use lis_words::{Test, Word, head_of, test_of};
use std::alloc::{AllocError, Global};

fn is_weaker(q: Test, p: Test) -> bool
    ensures { result ≡ is_weaker q p }
{
    if q.at_least {
        return p.at_least && q.bytes < p.bytes;
    }
    !p.at_least && p.bytes < q.bytes
}

/// Whether the word is a test that is weaker than this one.
fn is_weaker_test(word: &Word, test: Test) -> bool
    ensures { result ≡ are_weaker (test_of word.now) (Some test) }
{
    match test_of(word) {
        None => false,
        Some(other) => is_weaker(other, test),
    }
}

/// Puts the declared tests that are weaker than this one into the set.
fn insert_weaker_than(
    words: &mut Vec<Word>,
    declared: &[Word],
    test: Test,
) -> Result<(), AllocError>
    ensures { OnOk result (words.new.items ≡ with_words words.old.items (filter (λ q. are_weaker (test_of q) (Some test)) declared.now)) }
{
    for other in declared {
        if is_weaker_test(other, test) {
            insert_word(words, other)?;
        }
    }
    Ok(())
}

/// Puts the declared tests that are weaker than a declared test into the set.
fn insert_weaker(words: &mut Vec<Word>, declared: &[Word], word: &Word) -> Result<(), AllocError>
    ensures { OnOk result (words.new.items ≡ with_words words.old.items (weaker_tests declared.now word.now)) }
{
    let Some(test) = test_of(word) else {
        return Ok(());
    };
    if !has_word(declared, word) {
        return Ok(());
    }
    insert_weaker_than(words, declared, test)
}

/// Puts the head of a valued word into the set.
pub fn insert_head(words: &mut Vec<Word>, word: &Word) -> Result<(), AllocError>
    ensures { OnOk result (words.new.items ≡ with_words words.old.items (heads word.now)) }
{
    if let Some(head) = head_of(word) {
        insert_word(words, &head)?;
    }
    Ok(())
}

/// Puts the word and what its own links lead to into the set.
pub fn insert_linked(
    words: &mut Vec<Word>,
    declared: &[Word],
    word: &Word,
) -> Result<(), AllocError>
    ensures { OnOk result (words.new.items ≡ with_words words.old.items (with_links declared.now word.now)) }
{
    insert_word(words, word)?;
    insert_head(words, word)?;
    insert_weaker(words, declared, word)?;
    Ok(())
}

/// The set of the words and what the own links of each lead to.
pub fn linked(alloc: Global, declared: &[Word], words: &[Word]) -> Result<Vec<Word>, AllocError>
    ensures { IfOk result (λ all. all.items ≡ all_linked declared.now words.now) }
{
    let mut all = Vec::new(alloc);
    for word in words {
        insert_linked(&mut all, declared, word)?;
    }
    Ok(all)
}

/// The declared tests that this many bytes meet, in their order.
pub fn met_tests(alloc: Global, declared: &[Word], size: u64) -> Result<Vec<Word>, AllocError>
    ensures { IfOk result (λ words. words.items ≡ met_tests declared.now size) }
{
    let mut met = Vec::new(alloc);
    for word in declared {
        if is_met(test_of(word), size) {
            met.push(word.copied())?;
        }
    }
    Ok(met)
}
