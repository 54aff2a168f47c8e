//! The counts of a store, and its axioms.

ghost use Rattle.std.specs.Prelude.{◌≡◌, length, count_by};
ghost use Rattle.std.specs.List.{find};
ghost use Rattle.std.specs.Option.{option_map};
ghost use Rattle.lis_blockmap.specs.Bitmap.{free_count};
ghost use Rattle.lis_kept.specs.Behind.{rights_of, is_behind};
ghost use Rattle.lis_kept.specs.Linking.{is_filled};
ghost use Rattle.lis_kept.specs.Telling.{axioms_of};
ghost use Rattle.lis_store.specs.Stored.{IsSound};

use crate::store::Store;
use lis_words::Word;

/// How many files, known words, axioms and free data blocks there are.
#[derive(Clone, Copy, Debug, PartialEq, Eq)]
pub struct Counts {
    pub files: u32,
    pub known: u32,
    pub axioms: u32,
    pub free: u32,
}

impl Store {
    /// The counts of the store. The axioms are counted slot by slot.
    pub fn counts(&self) -> Counts
        ensures files { result.files ≡ length self.now.metadata.catalog.entries }
        ensures known { result.known ≡ length self.now.metadata.dict.entries }
        ensures axioms { result.axioms ≡ count_by is_filled self.now.metadata.axioms }
        ensures free { result.free ≡ free_count self.now.metadata.taken }
        ensures sound { IsSound self.now }
    {
        let metadata = self.metadata();
        Counts {
            files: metadata.file_count(),
            known: metadata.word_count(),
            axioms: metadata.axiom_count(),
            free: metadata.free_blocks(),
        }
    }

    /// Of the words to which axioms lead from a word, the first one in byte order, or, if `last` is given, the first one after it. So a
    /// loop gets the right sides of a word in order. One call looks once at each edge that leads from the word.
    pub fn axiom_behind(&self, left: &Word, last: Option<&Word>) -> Option<Word>
        ensures { result ≡ find (is_behind (option_map (λ w. w.now) last.entry)) (rights_of (axioms_of self.now.metadata) left.now) }
    {
        self.metadata().axiom_behind(left, last)
    }
}
