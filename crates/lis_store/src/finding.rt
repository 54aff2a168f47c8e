//! The numbers of words, and of the description that a file would have.

ghost use Rattle.std.specs.Prelude.{◌≡◌, ℕ, ◌<◌, ◌≤◌, ◌&&◌, [], ◌∷◌, ◌++◌, length};
ghost use Rattle.lis_ext.specs.Numbers.{numbers_where};
ghost use Rattle.lis_taxonomy.specs.Search.{AreBelow, is_found};
ghost use Rattle.lis_words.specs.Words.{test_of};
ghost use Rattle.lis_model.specs.State.{heads};
ghost use Rattle.lis_model.specs.Tests.{is_met, met_tests};
ghost use Rattle.lis_kept.specs.Sound.{AreSound};
ghost use Rattle.lis_kept.specs.Telling.{is_declared, declared_of};
ghost use Rattle.lis_store.specs.Describing.{with_heads};
ghost use Rattle.lis_store.specs.Finding.{FindsWords, FindsAll};

use arrayvec::ArrayVec;
use lis_kept::Metadata;
use lis_model::met::is_met;
use lis_taxonomy::Search;
use lis_words::{Word, head_of, test_of};

// Finds the number of a word, if it has one.
fn find_word(metadata: &Metadata, word: &Word, search: &mut Search)
    requires { AreSound metadata.now }
    ensures { FindsWords metadata.now (word.now ∷ []) search.old search.new }
{
    if let Some(number) = metadata.number_of(word) {
        search.meet(number);
    }
}

// Finds the numbers of a word and of its head.
fn find_with_head(metadata: &Metadata, word: &Word, search: &mut Search)
    requires { AreSound metadata.now }
    ensures { FindsWords metadata.now (word.now ∷ heads word.now) search.old search.new }
{
    find_word(metadata, word, search);
    if let Some(head) = head_of(word) {
        find_word(metadata, &head, search);
    }
}

/// Finds the numbers of the words.
pub(crate) fn find_words(metadata: &Metadata, words: &[Word], search: &mut Search)
    requires { AreSound metadata.now }
    ensures { FindsWords metadata.now words.now search.old search.new }
{
    for word in words {
        find_word(metadata, word, search);
    }
}

// Finds the numbers of the words and of their heads.
fn find_with_heads(metadata: &Metadata, words: &[Word], search: &mut Search)
    requires { AreSound metadata.now }
    ensures { FindsWords metadata.now (with_heads words.now) search.old search.new }
{
    for word in words {
        find_with_head(metadata, word, search);
    }
}

// Whether a word is a declared test that a file of this size meets. Few words are tests, so that is asked first.
fn is_met_word(metadata: &Metadata, word: &Word, size: u64) -> bool
    ensures { result ≡ (is_met (test_of word.now) size && is_declared metadata.now word.now) }
{
    is_met(test_of(word), size) && metadata.is_declared(word)
}

// Finds the numbers of the declared tests that a file of this size meets.
fn find_met(metadata: &Metadata, size: u64, search: &mut Search)
    requires { AreSound metadata.now }
    ensures { FindsWords metadata.now (met_tests (declared_of metadata.now) size) search.old search.new }
{
    let (start, end) = metadata.tests();
    for k in start..end {
        let Some((word, number)) = metadata.word_at(k) else {
            unreachable!()
        };
        if is_met_word(metadata, &word, size) {
            search.meet(number);
        }
    }
}

/// Finds the numbers of all words of the description that a file would have. A word without a number is passed over.
pub(crate) fn find_description(
    metadata: &Metadata,
    assigned: &[Word],
    own: &[Word],
    size: u64,
    search: &mut Search,
)
    requires { AreSound metadata.now }
    ensures { FindsAll metadata.now (assigned.now ++ own.now ++ met_tests (declared_of metadata.now) size) search.new }
{
    search.clear();
    find_with_heads(metadata, assigned, search);
    find_with_heads(metadata, own, search);
    find_met(metadata, size, search);
    metadata.taxonomy().close(search);
}

/// The found numbers, in rising order.
pub(crate) fn numbers_found<const MOST: usize>(search: &Search) -> ArrayVec<u32, MOST>
    requires { (props : ℕ) × AreBelow props search.now × (length (numbers_where props (is_found search.now)) ≤ MOST) }
    ensures { (props : ℕ) → AreBelow props search.now → result.items ≡ numbers_where props (is_found search.now) }
{
    let mut numbers = ArrayVec::new();
    let mut start = 0;
    while let Some(number) = search.next(start) {
        numbers.push(number);
        start = number + 1;
    }
    numbers
}
