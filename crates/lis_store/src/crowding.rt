//! Files that meet a test, and how many words they would have with it.

ghost use Rattle.std.specs.Prelude.{◌≡◌, ℕ, ◌<◌, nat_lt, is_some, List, length, IsTrue, Some};
ghost use Rattle.std.specs.List.{list_all};
ghost use Rattle.lis_dict.specs.Dict.{word_of};
ghost use Rattle.lis_words.specs.Words.{test_of};
ghost use Rattle.lis_kept.specs.Sound.{AreSound};
ghost use Rattle.lis_taxonomy.specs.Search.{is_found};
ghost use Rattle.lis_store.specs.Closing.{AreGained, is_gained, is_met_at, wider};
ghost use Rattle.lis_store.specs.Testing.{is_crowded, has_crowded};

use lis_kept::Metadata;
use lis_limits::MAX_DESCRIPTION;
use lis_model::met::is_met;
use lis_taxonomy::Search;
use lis_words::{Test, Word, test_of};

/// Whether there is a file in the slot, and its size meets the test.
pub(crate) fn is_met_at(metadata: &Metadata, test: Test, slot: u32) -> bool
    ensures { result ≡ is_met_at metadata.now (Some test) slot }
{
    match metadata.rec(slot) {
        None => false,
        Some(rec) => is_met(Some(test), u64::from(rec.size)),
    }
}

/// Finds the numbers of all that the words of these numbers entail.
pub(crate) fn find_gained(metadata: &Metadata, numbers: &[u32], search: &mut Search)
    requires sound { AreSound metadata.now }
    requires named { IsTrue (list_all (λ n. is_some (word_of metadata.now.dict n)) numbers.now) }
    ensures { AreGained metadata.now numbers.now search.new }
{
    metadata.taxonomy().find_all(numbers, search);
}

// How many numbers the description in a slot would have with those that were found.
fn wider_count(metadata: &Metadata, gained: &Search, slot: u32) -> u32
    requires sound { AreSound metadata.now }
    requires slot { slot < metadata.now.limits.files }
    requires gained { (numbers : List ℕ) × AreGained metadata.now numbers gained.now }
    ensures { result ≡ length (wider metadata.now (is_found gained.now) slot) }
{
    let own = metadata.ext().numbers(slot);
    let mut count = gained.count();
    for number in own {
        if !gained.has(*number) {
            count += 1;
        }
    }
    count
}

/// Whether the description in a slot would have more than `most` numbers with those that were found.
pub(crate) fn is_full(metadata: &Metadata, gained: &Search, slot: u32, most: u32) -> bool
    requires sound { AreSound metadata.now }
    requires slot { slot < metadata.now.limits.files }
    requires gained { (numbers : List ℕ) × AreGained metadata.now numbers gained.now }
    ensures { (numbers : List ℕ) → AreGained metadata.now numbers gained.now
        → result ≡ nat_lt most (length (wider metadata.now (is_gained metadata.now numbers) slot)) }
{
    wider_count(metadata, gained, slot) > most
}

// Whether a file meets the test, and would have too many words with the test and with what it gains.
fn is_crowded(metadata: &Metadata, test: Test, gained: &Search, slot: u32) -> bool
    requires sound { AreSound metadata.now }
    requires slot { slot < metadata.now.limits.files }
    requires gained { (numbers : List ℕ) × AreGained metadata.now numbers gained.now }
    ensures { (numbers : List ℕ) → AreGained metadata.now numbers gained.now → result ≡ is_crowded metadata.now (Some test) numbers slot }
{
    if !is_met_at(metadata, test, slot) {
        return false;
    }
    is_full(metadata, gained, slot, MAX_DESCRIPTION as u32 - 1)
}

/// Whether the word is a test, and some file meets it and would have too many words with the test and with what these numbers entail.
pub(crate) fn has_crowded(
    metadata: &Metadata,
    word: &Word,
    numbers: &[u32],
    search: &mut Search,
) -> bool
    requires named { IsTrue (list_all (λ n. is_some (word_of metadata.now.dict n)) numbers.now) }
    ensures { result ≡ has_crowded metadata.now (test_of word.now) numbers.now }
{
    let Some(test) = test_of(word) else {
        return false;
    };
    let files = metadata.limits().files;
    find_gained(metadata, numbers, search);
    for slot in 0..files {
        if is_crowded(metadata, test, search, slot) {
            return true;
        }
    }
    false
}
