//! Axioms that are added to memory.

ghost use Rattle.lis_store.specs.Relating.{MayRelate};
ghost use Rattle.lis_store.specs.RelatingIn.{RelatesIn};
ghost use Rattle.lis_store.specs.ReplacingIn.{AreInForm};

use crate::adding::learn_word;
use crate::closing::{Rebuild, rebuild_all};
use lis_kept::Metadata;
use lis_taxonomy::Search;
use lis_words::Word;

/// Adds an axiom between two words: the left word and its head get numbers, and each file that has the left word gets all that the right
/// one entails.
pub(crate) fn relate(metadata: &mut Metadata, left: &Word, right: &Word, search: &mut Search)
    requires form { AreInForm metadata.old }
    requires may { MayRelate metadata.old left.now right.now }
    ensures { RelatesIn left.now right.now metadata.old metadata.new }
{
    learn_word(metadata, left);
    let Some(from) = metadata.number_of(left) else {
        unreachable!()
    };
    let Some(to) = metadata.number_of(right) else {
        unreachable!()
    };
    metadata.link(from, to);
    rebuild_all(metadata, Rebuild::Having(from), search);
}
