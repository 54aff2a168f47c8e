//! All words that are derived from a file.

ghost use Rattle.std.specs.Prelude.{◌≡◌};
ghost use Rattle.lis_model.specs.Derived.{derived_words};

use crate::content::note_content;
use crate::size::note_size;
use crate::suffix::{note_suffix, suffix_of};
use lis_model::derived::Derived;
use lis_words::Name;

/// The first 48 distinct words of the name, the size and the content, in this order. It allocates no memory.
pub fn derive_words(name: &Name, bytes: &[u8]) -> Derived
    ensures { result ≡ derived_words name.now bytes.now }
{
    let mut words = Derived::new();
    let Some(suffix) = suffix_of(name.bytes()) else {
        note_size(bytes.len(), &mut words);
        return words;
    };
    note_suffix(suffix, &mut words);
    note_size(bytes.len(), &mut words);
    note_content(suffix, bytes, &mut words);
    words
}
