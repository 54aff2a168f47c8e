//! The bytes of a file, read into memory.

ghost use Rattle.std.specs.Prelude.{◌≡◌, ℕ, List, Some, OnOk, IsSomeAnd};
ghost use Rattle.lis_ports.specs.Calls.{ReadsDisk};
ghost use Rattle.lis_catalog.specs.Catalog.{slot_of, rec_at};
ghost use Rattle.lis_fields.specs.Records.{FileRecord};
ghost use Rattle.lis_model.specs.Changes.{file_of};
ghost use Rattle.lis_model.specs.State.{State};
ghost use Rattle.lis_store.specs.Stored.{IsSound, StoreFits, IsUsable};

use lis_limits::BLOCK_LEN;
use lis_line::reader::Payload;
use lis_ports::{Disk, Failed};
use lis_store::Store;

/// Reads the bytes of the file in the slot, which has this many.
pub fn load<D: Disk>(
    store: &Store,
    slot: u32,
    size: u32,
    bytes: &mut Payload,
    disk: &mut D,
) -> Result<(), Failed>
    requires sound { IsSound store.now }
    requires size { IsSomeAnd (rec_at store.now.metadata.catalog slot) (λ (rec : FileRecord). size ≡ rec.size) }
    requires usable { IsUsable store.now (D.meaning disk.old) }
    ensures loads { OnOk result ((s : State) (name : List ℕ) → StoreFits store.now (D.meaning disk.old) s → slot_of store.now.metadata.catalog name ≡ Some slot
        → bytes.new.bytes ≡ (file_of s.files name).bytes) }
    ensures disk { ReadsDisk (D.meaning disk.old) (D.meaning disk.new) result }
    ensures fits { (s : State) → StoreFits store.now (D.meaning disk.old) s → StoreFits store.now (D.meaning disk.new) s }
{
    bytes.clear();
    let mut index = [0; BLOCK_LEN];
    let mut block = [0; BLOCK_LEN];
    for n in 0..size.div_ceil(BLOCK_LEN as u32) {
        store.content_next(disk, slot, &mut index, n, &mut block)?;
        let rest = size as usize - BLOCK_LEN * n as usize;
        bytes.append(&block[..rest.min(BLOCK_LEN)]);
    }
    Ok(())
}
