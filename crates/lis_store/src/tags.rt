//! The words that are assigned to a file.

ghost use Rattle.std.specs.Prelude.{◌≡◌, IsSome, IsSomeAnd};
ghost use Rattle.lis_catalog.specs.Catalog.{rec_at};
ghost use Rattle.lis_fields.specs.Records.{FileRecord};
ghost use Rattle.lis_kept.specs.Telling.{words_told};

use crate::instead::assigned_in;
use crate::store::Store;
use arrayvec::ArrayVec;
use lis_words::Word;

impl Store {
    /// The words that are assigned to the file in a slot, in byte order.
    pub fn tags(&self, slot: u32) -> ArrayVec<Word, 16>
        requires { IsSome (rec_at self.now.metadata.catalog slot) }
        ensures { IsSomeAnd (rec_at self.now.metadata.catalog slot)
            (λ (rec : FileRecord). result.items ≡ words_told self.now.metadata.dict rec.tags) }
    {
        assigned_in(self.metadata(), slot)
    }
}
