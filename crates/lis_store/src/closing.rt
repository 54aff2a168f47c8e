//! Descriptions that are made again, of some of their numbers with all that these entail.

ghost use Rattle.std.specs.Prelude.{◌≡◌, ℕ, ◌<◌, ◌≤◌, true, is_some, Some, length, IsTrue, IsSome};
ghost use Rattle.std.specs.List.{list_all};
ghost use Rattle.lis_dict.specs.Dict.{word_of};
ghost use Rattle.lis_ext.specs.Ext.{has, set_of};
ghost use Rattle.lis_kept.specs.Sound.{AreSound, FreeSlotsAreEmpty};
ghost use Rattle.lis_store.specs.Closing.{closure, is_concerned, tags_at, is_base, added, base_at, has_words, rebuilt, FindsLost};
ghost use Rattle.lis_store.specs.Redescribing.{SlotHas, Redescribes};
ghost use Rattle.lis_store.specs.Stored.{DescriptionsAreShort};
ghost use Rattle.lis_model.specs.Sets.{has_number};

use crate::crowding::{find_gained, is_met_at};
use crate::finding::numbers_found;
use arrayvec::ArrayVec;
use lis_kept::Metadata;
use lis_limits::MAX_DESCRIPTION;
use lis_taxonomy::Search;
use lis_words::Test;

/// Which descriptions are made again, and of which numbers.
#[derive(Clone, Copy)]
pub(crate) enum Rebuild {
    /// Those that have the number, from all their numbers.
    Having(u32),
    /// Those that have the left number, from their numbers that need no axiom to the right one.
    Losing(u32, u32),
    /// Those of files that meet the test, from the number and all their own.
    Meeting(Test, u32),
}

/// The numbers of all that the words of these numbers entail, in rising order.
pub(crate) fn all_entailed(
    metadata: &Metadata,
    numbers: &[u32],
    search: &mut Search,
) -> ArrayVec<u32, MAX_DESCRIPTION>
    requires sound { AreSound metadata.now }
    requires named { IsTrue (list_all (λ n. is_some (word_of metadata.now.dict n)) numbers.now) }
    requires few { length (closure metadata.now numbers.now) ≤ MAX_DESCRIPTION }
    ensures { result.items ≡ closure metadata.now numbers.now }
{
    find_gained(metadata, numbers, search);
    numbers_found(search)
}

// Whether the description in a slot is made again.
fn is_concerned(metadata: &Metadata, how: Rebuild, slot: u32) -> bool
    requires sound { AreSound metadata.now }
    requires words { has_words metadata.now how ≡ true }
    requires slot { slot < metadata.now.limits.files }
    ensures { result ≡ is_concerned metadata.now how slot }
{
    match how {
        Rebuild::Having(number) => metadata.ext().has(number, slot),
        Rebuild::Losing(left, _) => metadata.ext().has(left, slot),
        Rebuild::Meeting(test, _) => is_met_at(metadata, test, slot),
    }
}

// Whether the file in a slot was given the word of a number.
fn is_given(metadata: &Metadata, slot: u32, number: u32) -> bool
    ensures { result ≡ has_number (tags_at metadata.now slot) number }
{
    match metadata.rec(slot) {
        None => false,
        Some(rec) => rec.tags.as_slice().iter().any(|held| *held == number),
    }
}

// Finds what a description may lose: all that the right number entails, if there is one.
fn find_lost(metadata: &Metadata, how: Rebuild, search: &mut Search)
    requires sound { AreSound metadata.now }
    requires named { has_words metadata.now how ≡ true }
    ensures { FindsLost metadata.now how search.new }
{
    search.clear();
    if let Rebuild::Losing(_, right) = how {
        find_gained(metadata, &[right], search);
    }
}

// Whether a number of the description in a slot is one of those of which it is made again.
fn is_base(metadata: &Metadata, how: Rebuild, slot: u32, number: u32, lost: &Search) -> bool
    requires lost { FindsLost metadata.now how lost.now }
    requires number { number < metadata.now.limits.props }
    requires sound { AreSound metadata.now }
    ensures { result ≡ is_base metadata.now how slot number }
{
    !lost.has(number) || is_given(metadata, slot, number)
}

// A number that a description gets and did not have.
fn added(how: Rebuild) -> ArrayVec<u32, 129>
    ensures { result.items ≡ added how }
{
    let mut numbers = ArrayVec::new();
    match how {
        Rebuild::Meeting(_, number) => {
            numbers.push(number);
            numbers
        }
        Rebuild::Having(_) | Rebuild::Losing(_, _) => numbers,
    }
}

// The numbers of which the description in a slot, which has these, is made again.
fn base_at(
    metadata: &Metadata,
    how: Rebuild,
    slot: u32,
    numbers: &[u32],
    search: &mut Search,
) -> ArrayVec<u32, 129>
    requires sound { AreSound metadata.now }
    requires named { has_words metadata.now how ≡ true }
    requires numbers { IsTrue (list_all (λ n. is_some (word_of metadata.now.dict n)) numbers.now) }
    requires few { length numbers.now ≤ MAX_DESCRIPTION }
    requires are { numbers.now ≡ set_of metadata.now.ext slot }
    ensures { result.items ≡ base_at metadata.now how slot }
{
    find_lost(metadata, how, search);
    let mut base = added(how);
    for number in numbers {
        if is_base(metadata, how, slot, *number, search) {
            base.push(*number);
        }
    }
    base
}

// Makes the description in a slot again, if it is concerned.
fn rebuild_slot(metadata: &mut Metadata, how: Rebuild, slot: u32, search: &mut Search)
    requires sound { AreSound metadata.old }
    requires words { has_words metadata.old how ≡ true }
    requires slot { slot < metadata.old.limits.files }
    requires named { (n : ℕ) → has metadata.old.ext n slot ≡ true → IsSome (word_of metadata.old.dict n) }
    requires short { length (set_of metadata.old.ext slot) ≤ MAX_DESCRIPTION }
    requires few { is_concerned metadata.old how slot ≡ true → length (closure metadata.old (base_at metadata.old how slot)) ≤ MAX_DESCRIPTION }
    ensures gives { SlotHas slot (rebuilt metadata.old how slot) metadata.old metadata.new }
    ensures sound { AreSound metadata.new }
{
    if !is_concerned(metadata, how, slot) {
        return;
    }
    let old = metadata.ext().numbers(slot);
    let base = base_at(metadata, how, slot, old, search);
    let new = all_entailed(metadata, base.as_slice(), search);
    metadata.describe(slot, new.as_slice());
}

/// Makes all descriptions again that are concerned.
pub(crate) fn rebuild_all(metadata: &mut Metadata, how: Rebuild, search: &mut Search)
    requires words { has_words metadata.old how ≡ true }
    requires free { FreeSlotsAreEmpty metadata.old }
    requires short { DescriptionsAreShort metadata.old }
    requires few { (slot : ℕ) → is_concerned metadata.old how slot ≡ true → length (closure metadata.old (base_at metadata.old how slot)) ≤ MAX_DESCRIPTION }
    ensures rebuilt { Redescribes (rebuilt metadata.old how) metadata.old.limits.files metadata.old metadata.new }
    ensures sound { AreSound metadata.new }
{
    let files = metadata.limits().files;
    for slot in 0..files {
        rebuild_slot(metadata, how, slot, search);
    }
}
