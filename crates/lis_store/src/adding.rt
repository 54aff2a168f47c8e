//! Words of files that come into memory, and their numbers.

ghost use Rattle.std.specs.Prelude.{◌≡◌, ◌≤◌, ◌++◌, length, IsTrue};
ghost use Rattle.std.specs.List.{list_all};
ghost use Rattle.lis_model.specs.State.{heads, all_up};
ghost use Rattle.lis_model.specs.Tests.{met_tests};
ghost use Rattle.lis_kept.specs.Sound.{AreSound};
ghost use Rattle.lis_kept.specs.Telling.{declared_of, axioms_of};
ghost use Rattle.lis_store.specs.Adding.{numbers_named, behind_head, with_heads, may_learn, HasWordRoom, LearnsAll};

use crate::finding::{find_description, find_words, numbers_found};
use arrayvec::ArrayVec;
use lis_kept::Metadata;
use lis_limits::{MAX_ASSIGNED, MAX_DESCRIPTION};
use lis_taxonomy::Search;
use lis_words::{Word, head_of};

// Gives the head of a valued word a number if it has none.
fn learn_head(metadata: &mut Metadata, word: &Word)
    requires form { IsTrue (may_learn metadata.old word.now) }
    requires room { HasWordRoom metadata.old (behind_head word.now) }
    ensures { LearnsAll (heads word.now) metadata.old metadata.new }
{
    if let Some(head) = head_of(word) {
        metadata.learn(&head);
    }
}

/// Gives a word a number if it has none, and its head before.
pub(crate) fn learn_word(metadata: &mut Metadata, word: &Word)
    requires form { IsTrue (may_learn metadata.old word.now) }
    requires room { HasWordRoom metadata.old (behind_head word.now) }
    ensures learns { LearnsAll (behind_head word.now) metadata.old metadata.new }
    ensures sound { AreSound metadata.new }
{
    learn_head(metadata, word);
    metadata.learn(word);
}

// Gives numbers to those words that have none.
pub(crate) fn learn_words(metadata: &mut Metadata, words: &[Word])
    requires form { IsTrue (list_all (may_learn metadata.old) words.now) }
    requires room { HasWordRoom metadata.old (with_heads words.now) }
    ensures learns { LearnsAll (with_heads words.now) metadata.old metadata.new }
    ensures sound { AreSound metadata.old → AreSound metadata.new }
{
    for word in words {
        learn_word(metadata, word);
    }
}

// The numbers of the words.
pub(crate) fn numbers_of(
    metadata: &Metadata,
    words: &[Word],
    search: &mut Search,
) -> ArrayVec<u32, MAX_ASSIGNED>
    requires sound { AreSound metadata.now }
    requires few { length words.now ≤ MAX_ASSIGNED }
    ensures { result.items ≡ numbers_named metadata.now.dict words.now }
{
    search.clear();
    find_words(metadata, words, search);
    numbers_found(search)
}

// The numbers of all words that these entail, and of all that the declared tests entail that this many bytes meet.
pub(crate) fn numbers_entailed(
    metadata: &Metadata,
    assigned: &[Word],
    derived: &[Word],
    size: u64,
    search: &mut Search,
) -> ArrayVec<u32, MAX_DESCRIPTION>
    requires sound { AreSound metadata.now }
    requires few { length (all_up (declared_of metadata.now) (axioms_of metadata.now) (assigned.now ++ derived.now ++ met_tests (declared_of metadata.now) size)) ≤ MAX_DESCRIPTION }
    ensures { result.items
        ≡ numbers_named metadata.now.dict (all_up (declared_of metadata.now) (axioms_of metadata.now) (assigned.now ++ derived.now ++ met_tests (declared_of metadata.now) size)) }
{
    find_description(metadata, assigned, derived, size, search);
    numbers_found(search)
}
