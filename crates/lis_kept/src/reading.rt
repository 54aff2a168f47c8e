//! What memory keeps, as calls read it.

ghost use Rattle.std.specs.Prelude.{◌≡◌, ℕ, ◌<◌, ◌≤◌, List, Some, None, MatchOption, length, filter, slice_get, IsSome, IsTrue};
ghost use Rattle.std.specs.List.Sorted.{IsStrictlyIncreasing};
ghost use Rattle.std.specs.Option.{option_map};
ghost use Rattle.lis_blockmap.specs.Bitmap.{free_count, is_taken};
ghost use Rattle.lis_catalog.specs.Catalog.{Filed, slot_of, rec_at};
ghost use Rattle.lis_dict.specs.Dict.{number_of, word_of, place_of};
ghost use Rattle.lis_ext.specs.Ext.{set_of};
ghost use Rattle.lis_fields.specs.Records.{FileRecord};
ghost use Rattle.lis_words.specs.Words.{is_file_name, test_of};
ghost use Rattle.lis_kept.specs.Links.{TellsLinks};
ghost use Rattle.lis_kept.specs.Telling.{is_declared};

use crate::metadata::Metadata;
use lis_blockmap::BlockMap;
use lis_ext::Ext;
use lis_fields::FileRec;
use lis_limits::{MAX_DESCRIPTION, SLOT_BLOCKS};
use lis_taxonomy::Taxonomy;
use lis_words::{Name, Word};

// How many of these blocks are taken.
fn count_taken(map: &BlockMap, blocks: &[u32]) -> usize
    ensures { result ≡ length (filter (is_taken map.now) blocks.now) }
{
    blocks.iter().filter(|n| map.is_taken(**n)).count()
}

impl Metadata {
    /// How many words have numbers.
    pub fn word_count(&self) -> u32
        ensures { result ≡ length self.now.dict.entries }
    {
        self.dict.len()
    }

    /// The number of a word.
    pub fn number_of(&self, word: &Word) -> Option<u32>
        ensures { result ≡ number_of self.now.dict word.now }
    {
        self.dict.id_of(word)
    }

    /// The word that has a number.
    pub fn word_of(&self, number: u32) -> Option<Word>
        ensures { result ≡ word_of self.now.dict number }
    {
        self.dict.word_of(number)
    }

    /// The k-th word in byte order, and its number.
    pub fn word_at(&self, k: u32) -> Option<(Word, u32)>
        ensures { result ≡ slice_get self.now.dict.entries k }
    {
        self.dict.word_at(k)
    }

    /// The index, in byte order, of the word that has a number.
    pub fn place_of(&self, number: u32) -> Option<u32>
        ensures { result ≡ place_of self.now.dict number }
    {
        self.dict.place_of(number)
    }

    /// The indexes in byte order between which all tests are: from the first one on, and before the second one.
    pub fn tests(&self) -> (u32, u32)
        ensures rise { result.0 ≤ result.1 }
        ensures within { result.1 ≤ length self.now.dict.entries }
        ensures before { (k : ℕ) (e : List ℕ × ℕ) → k < result.0 → slice_get self.now.dict.entries k ≡ Some e → test_of e.0 ≡ None }
        ensures behind { (k : ℕ) (e : List ℕ × ℕ) → result.1 ≤ k → slice_get self.now.dict.entries k ≡ Some e → test_of e.0 ≡ None }
    {
        self.dict.tests()
    }

    /// Whether a word is declared.
    pub fn is_declared(&self, word: &Word) -> bool
        ensures { result ≡ is_declared self.now word.now }
    {
        match self.dict.id_of(word) {
            None => false,
            Some(number) => self.declared.get(number),
        }
    }

    /// How many files there are.
    pub fn file_count(&self) -> u32
        ensures { result ≡ length self.now.catalog.entries }
    {
        self.catalog.len()
    }

    /// The slot of the file that has a name.
    pub fn slot_of(&self, name: &Name) -> Option<u32>
        ensures slot { result ≡ slot_of self.now.catalog name.now }
        ensures name { IsTrue (is_file_name name.now) }
    {
        self.catalog.slot_of(name)
    }

    /// The k-th file in the order of names: its name, and its slot.
    pub fn file_at(&self, k: u32) -> Option<(Name, u32)>
        ensures { result ≡ option_map (λ (f : Filed). (f.rec.name, f.slot)) (slice_get self.now.catalog.entries k) }
    {
        self.catalog.file_at(k)
    }

    /// The record of the file in a slot.
    pub fn rec(&self, slot: u32) -> Option<&FileRec>
        ensures { MatchOption result (rec_at self.now.catalog slot ≡ None) (λ rec. rec_at self.now.catalog slot ≡ Some rec.now) }
    {
        self.catalog.rec(slot)
    }

    /// How many data blocks are free.
    pub fn free_blocks(&self) -> u32
        ensures { result ≡ free_count self.now.taken }
    {
        self.map.free()
    }

    /// How many of the blocks that the slot of a file numbers are taken: all of them, if the disk keeps the image that memory describes.
    pub fn taken_blocks(&self, slot: u32) -> usize
        requires { IsSome (rec_at self.now.catalog slot) }
        ensures taken { (rec : FileRecord) → rec_at self.now.catalog slot ≡ Some rec → result ≡ length (filter (is_taken self.now.taken) rec.blocks) }
        ensures few { result ≤ SLOT_BLOCKS }
    {
        let Some(rec) = self.catalog.rec(slot) else {
            unreachable!()
        };
        count_taken(&self.map, rec.blocks.as_slice())
    }

    /// For each file slot the numbers of its file's description.
    pub fn ext(&self) -> &Ext
        ensures { result.now ≡ self.now.ext }
    {
        &self.ext
    }

    /// The numbers of the description of the file in a slot, in rising order.
    pub fn numbers(&self, slot: u32) -> &[u32]
        requires { IsSome (rec_at self.now.catalog slot) }
        ensures numbers { result.now ≡ set_of self.now.ext slot }
        ensures few { length result.now ≤ MAX_DESCRIPTION }
        ensures rising { IsStrictlyIncreasing result.now }
    {
        self.ext.numbers(slot)
    }

    /// The links between the words that have numbers.
    pub fn taxonomy(&self) -> &Taxonomy
        ensures { TellsLinks self.now result.now }
    {
        &self.taxonomy
    }
}
