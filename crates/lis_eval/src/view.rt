//! What listings and routes look at.

ghost use Rattle.std.specs.Prelude.{◌≡◌, IsSome, IsSomeAnd, slice_get, option_map};
ghost use Rattle.lis_ext.specs.Ext as ext;
ghost use Rattle.lis_taxonomy.specs.Taxonomy as taxonomy;
ghost use Rattle.lis_eval.specs.View.{Seen, Placed, number_of, place_of, slot_of, name_and_slot, file_in, IsView, TellsFiles, TellsEntailment};

use lis_ext::Ext;
use lis_taxonomy::Taxonomy;
use lis_words::{Name, Word};

/// A table whose words have numbers and whose files have slots, with the rows of both.
pub trait View {
    /// The known words with their numbers, the files with their slots, and what words entail.
    ghost seen: { Self → Seen };

    /// The numbers of the file in each slot, with the count of edits.
    ghost rows: { Self → ext.Ext };

    /// The number of a word.
    fn id_of(&self, word: &Word) -> Option<u32>
        ensures { result ≡ number_of (seen self.now) word.now };

    /// The k-th word in byte order, and its number.
    fn word_at(&self, k: u32) -> Option<(Word, u32)>
        ensures { result ≡ slice_get (seen self.now).words k };

    /// The index, in byte order, of the word that has a number.
    fn place_of(&self, number: u32) -> Option<u32>
        ensures { result ≡ place_of (seen self.now) number };

    /// The slot of the file that has a name.
    fn slot_of(&self, name: &Name) -> Option<u32>
        ensures { result ≡ slot_of (seen self.now) name.now };

    /// The k-th file in the order of names: its name, and its slot.
    fn file_at(&self, k: u32) -> Option<(Name, u32)>
        ensures { result ≡ option_map name_and_slot (slice_get (seen self.now).files k) };

    /// How many bytes the file in a slot has.
    fn size_of(&self, slot: u32) -> u64
        requires { IsSome (file_in (seen self.now) slot) }
        ensures { IsSomeAnd (file_in (seen self.now) slot) (λ (f : Placed). result ≡ f.entry.size) };

    /// The numbers of the words of each file. The contract also says what each view keeps.
    fn ext(&self) -> &Ext
        ensures rows { result.now ≡ rows self.now }
        ensures told { TellsFiles (seen self.now) result.now }
        ensures kept { IsView (seen self.now) };

    /// What words entail, by their numbers.
    fn taxonomy(&self) -> &Taxonomy
        ensures { TellsEntailment (seen self.now) result.now };
}
