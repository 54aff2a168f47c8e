//! Tests that are added to descriptions when they are declared, and removed with their declarations.

ghost use Rattle.std.specs.Prelude.{◌≡◌, ℕ, ◌<◌, ◌≤◌, true, not, ◌==◌, length, filter, IsSome};
ghost use Rattle.lis_dict.specs.Dict.{word_of};
ghost use Rattle.lis_ext.specs.Ext.{has, set_of};
ghost use Rattle.lis_kept.specs.Sound.{AreSound, FreeSlotsAreEmpty};
ghost use Rattle.lis_kept.specs.Undeclaring.{MayUndeclare};
ghost use Rattle.lis_store.specs.Redescribing.{SlotHas, Redescribes};
ghost use Rattle.lis_store.specs.ReplacingIn.{AreInForm};
ghost use Rattle.lis_store.specs.Stored.{DescriptionsAreShort};
ghost use Rattle.lis_store.specs.Testing.{MayDeclare, DeclaresTested, without_number, undescribed, UndeclaresUnmet};

use crate::closing::{Rebuild, rebuild_all};
use arrayvec::ArrayVec;
use lis_kept::Metadata;
use lis_limits::MAX_DESCRIPTION;
use lis_taxonomy::Search;
use lis_words::{Word, test_of};

/// Declares a new word, with an axiom from it to the word of each of these numbers. A test is added to the descriptions of the files that
/// meet it.
pub(crate) fn declare_tested(
    metadata: &mut Metadata,
    word: &Word,
    places: &[u32],
    search: &mut Search,
)
    requires form { AreInForm metadata.old }
    requires may { MayDeclare metadata.old word.now places.now }
    ensures { DeclaresTested word.now places.now metadata.old metadata.new }
{
    metadata.declare_under(word, places);
    let Some(test) = test_of(word) else {
        return;
    };
    let Some(number) = metadata.number_of(word) else {
        unreachable!()
    };
    rebuild_all(metadata, Rebuild::Meeting(test, number), search);
}

// The numbers except one.
fn numbers_without(numbers: &[u32], number: u32) -> ArrayVec<u32, MAX_DESCRIPTION>
    requires { length numbers.now ≤ MAX_DESCRIPTION }
    ensures { result.items ≡ filter (λ n. not (n == number)) numbers.now }
{
    let mut rest = ArrayVec::new();
    for held in numbers {
        if *held != number {
            rest.push(*held);
        }
    }
    rest
}

// Removes a number from the description in a slot.
fn describe_without(metadata: &mut Metadata, number: u32, slot: u32)
    requires sound { AreSound metadata.old }
    requires number { IsSome (word_of metadata.old.dict number) }
    requires slot { slot < metadata.old.limits.files }
    requires had { (n : ℕ) → has metadata.old.ext n slot ≡ true → IsSome (word_of metadata.old.dict n) }
    requires short { length (set_of metadata.old.ext slot) ≤ MAX_DESCRIPTION }
    ensures gives { SlotHas slot (without_number metadata.old number slot) metadata.old metadata.new }
    ensures sound { AreSound metadata.new }
{
    if !metadata.ext().has(number, slot) {
        return;
    }
    let old = metadata.ext().numbers(slot);
    let new = numbers_without(old, number);
    metadata.describe(slot, new.as_slice());
}

// Removes a number from all descriptions.
fn describe_all_without(metadata: &mut Metadata, number: u32)
    requires number { IsSome (word_of metadata.old.dict number) }
    requires free { FreeSlotsAreEmpty metadata.old }
    requires short { DescriptionsAreShort metadata.old }
    ensures redescribes { Redescribes (without_number metadata.old number) metadata.old.limits.files metadata.old metadata.new }
    ensures sound { AreSound metadata.new }
{
    let files = metadata.limits().files;
    for slot in 0..files {
        describe_without(metadata, number, slot);
    }
}

/// Removes the declaration of a word, and its number from all descriptions.
pub(crate) fn undeclare_unmet(metadata: &mut Metadata, number: u32)
    requires form { AreInForm metadata.old }
    requires number { IsSome (word_of metadata.old.dict number) }
    requires may { MayUndeclare number (undescribed metadata.old) }
    ensures { UndeclaresUnmet number metadata.old metadata.new }
{
    describe_all_without(metadata, number);
    metadata.undeclare(number);
}
