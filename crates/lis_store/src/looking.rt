//! What a store says of its files.

ghost use Rattle.std.specs.Prelude.{◌≡◌, ℕ, List, Some, IsSomeAnd};
ghost use Rattle.lis_catalog.specs.Catalog.{slot_of, rec_at};
ghost use Rattle.lis_fields.specs.Records.{FileRecord};
ghost use Rattle.lis_store.specs.Stored.{IsSound};

use crate::store::Store;

impl Store {
    /// How many bytes the file in a slot has.
    pub fn file_size(&self, slot: u32) -> u32
        requires { (name : List ℕ) × (slot_of self.now.metadata.catalog name ≡ Some slot) }
        ensures size { IsSomeAnd (rec_at self.now.metadata.catalog slot) (λ (rec : FileRecord). result ≡ rec.size) }
        ensures sound { IsSound self.now }
    {
        let Some(rec) = self.metadata().rec(slot) else {
            unreachable!()
        };
        rec.size
    }
}
