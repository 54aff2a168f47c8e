//! An axiom that is removed from memory, and descriptions without it.

ghost use Rattle.std.specs.Prelude.{◌≡◌, IsSome};
ghost use Rattle.lis_dict.specs.Dict.{word_of};
ghost use Rattle.lis_kept.specs.Linking.{MayUnlink};
ghost use Rattle.lis_store.specs.ReplacingIn.{AreInForm};
ghost use Rattle.lis_store.specs.Unlinking.{with_head, TakesAxiom};

use crate::closing::{Rebuild, rebuild_all};
use arrayvec::ArrayVec;
use lis_kept::Metadata;
use lis_taxonomy::Search;
use lis_words::head_of;

// A left side, and its head.
fn with_head(metadata: &Metadata, left: u32) -> ArrayVec<u32, 2>
    requires { IsSome (word_of metadata.now.dict left) }
    ensures { result.items ≡ with_head metadata.now.dict left }
{
    let mut numbers = ArrayVec::new();
    numbers.push(left);
    let Some(word) = metadata.word_of(left) else {
        unreachable!()
    };
    let Some(head) = head_of(&word) else {
        return numbers;
    };
    if let Some(number) = metadata.number_of(&head) {
        numbers.push(number);
    }
    numbers
}

/// Removes an axiom, with all that descriptions have by it alone, and with the words that nothing uses any more.
pub(crate) fn take_axiom(metadata: &mut Metadata, left: u32, right: u32, search: &mut Search)
    requires form { AreInForm metadata.old }
    requires may { MayUnlink left right metadata.old }
    ensures { TakesAxiom left right metadata.old metadata.new }
{
    let numbers = with_head(metadata, left);
    metadata.unlink(left, right);
    rebuild_all(metadata, Rebuild::Losing(left, right), search);
    metadata.forget_unused(numbers.as_slice());
}
