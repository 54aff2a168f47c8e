//! Showing the bytes of files.

ghost use Rattle.std.specs.Prelude.{◌≡◌, ℕ, ◌+◌, ◌*◌, ◌<◌, List, [], length, Some, IsTrue, IsSomeAnd, OnOk};
ghost use Rattle.lis_ports.specs.Bytes.{part};
ghost use Rattle.lis_eval.specs.Room.{HasRoom};
ghost use Rattle.lis_catalog.specs.Catalog.{slot_of, rec_at};
ghost use Rattle.lis_fields.specs.Records.{FileRecord};
ghost use Rattle.lis_model.specs.Changes.{file_of};
ghost use Rattle.lis_model.specs.Replies.{content_lines};
ghost use Rattle.lis_model.specs.Step.{Situation, shown, cat};
ghost use Rattle.lis_store.specs.Stored.{IsSound, StoreFits, IsIndex, IsUsable};
ghost use Rattle.lis_session.specs.Item.{Does};
ghost use Rattle.lis_session.specs.Parts.{only_shows, Ends};
ghost use Rattle.lis_session.specs.Showing.{DiskStays};

use crate::end::End;
use crate::replies::{answer_bytes, answer_refusal, answer_size};
use lis_eval::Scratch;
use lis_limits::BLOCK_LEN;
use lis_model::refusal::Refusal;
use lis_place::Place;
use lis_ports::{Failed, Station};
use lis_store::Store;
use lis_words::Name;

// Shows the n-th block of the file in the slot, after those before it. The buffers are as long as a block.
fn show_block<T: Station>(
    store: &Store,
    slot: u32,
    size: u32,
    index: &mut [u8],
    n: u32,
    block: &mut [u8],
    station: &mut T,
) -> Result<(), End>
    requires sound { IsSound store.now }
    requires size { IsSomeAnd (rec_at store.now.metadata.catalog slot) (λ (rec : FileRecord). size ≡ rec.size) }
    requires within { BLOCK_LEN * n < size }
    requires index { length index.old ≡ BLOCK_LEN }
    requires whole { length block.old ≡ BLOCK_LEN }
    requires usable { IsUsable store.now (T.meaning station.old) }
    ensures shows { IsIndex store.now (T.meaning station.old).bytes slot n index.old
        → (name : List ℕ) → slot_of store.now.metadata.catalog name ≡ Some slot
        → Does (λ (now : Situation). only_shows (part (BLOCK_LEN * n) BLOCK_LEN (file_of now.state.files name).bytes) now) (StoreFits store.now (T.meaning station.old)) []
        (T.meaning station.old) (T.meaning station.new) result (StoreFits store.now (T.meaning station.new)) [] }
    ensures next { OnOk result (IsTrue (T.meaning station.old).is_honest → IsIndex store.now (T.meaning station.old).bytes slot n index.old
        → IsIndex store.now (T.meaning station.old).bytes slot (n + 1) index.new) }
    ensures ends { Ends (T.meaning station.old) (T.meaning station.new) result }
    ensures disk { IsTrue (T.meaning station.old).is_honest → DiskStays (T.meaning station.old) (T.meaning station.new) }
    ensures index { length index.new ≡ BLOCK_LEN }
    ensures whole { length block.new ≡ BLOCK_LEN }
{
    if let Err(Failed) = store.content_next(station, slot, index, n, block) {
        return Err(End::DiskFault);
    }
    let rest = size as usize - BLOCK_LEN * n as usize;
    answer_bytes(station, &block[..rest.min(BLOCK_LEN)])
}

/// Shows the bytes of the file in the slot, block by block.
pub fn show_content<T: Station>(
    store: &Store,
    slot: u32,
    size: u32,
    station: &mut T,
) -> Result<(), End>
    requires sound { IsSound store.now }
    requires size { IsSomeAnd (rec_at store.now.metadata.catalog slot) (λ (rec : FileRecord). size ≡ rec.size) }
    requires usable { IsUsable store.now (T.meaning station.old) }
    ensures shows { (name : List ℕ) → slot_of store.now.metadata.catalog name ≡ Some slot
        → Does (λ (now : Situation). only_shows (file_of now.state.files name).bytes now) (StoreFits store.now (T.meaning station.old)) []
        (T.meaning station.old) (T.meaning station.new) result (StoreFits store.now (T.meaning station.new)) [] }
    ensures ends { Ends (T.meaning station.old) (T.meaning station.new) result }
    ensures disk { IsTrue (T.meaning station.old).is_honest → DiskStays (T.meaning station.old) (T.meaning station.new) }
{
    let mut index = [0; BLOCK_LEN];
    let mut block = [0; BLOCK_LEN];
    for n in 0..size.div_ceil(BLOCK_LEN as u32) {
        show_block(store, slot, size, &mut index, n, &mut block, station)?;
    }
    Ok(())
}

// Shows the file in the slot: its size, its bytes, and a line feed after them.
fn show_file<T: Station>(store: &Store, slot: u32, station: &mut T) -> Result<(), End>
    requires sound { IsSound store.now }
    requires slot { (name : List ℕ) × (slot_of store.now.metadata.catalog name ≡ Some slot) }
    requires usable { IsUsable store.now (T.meaning station.old) }
    ensures shows { (name : List ℕ) → slot_of store.now.metadata.catalog name ≡ Some slot
        → Does (λ (now : Situation). shown now (content_lines (file_of now.state.files name).bytes)) (StoreFits store.now (T.meaning station.old)) []
        (T.meaning station.old) (T.meaning station.new) result (StoreFits store.now (T.meaning station.new)) [] }
    ensures ends { Ends (T.meaning station.old) (T.meaning station.new) result }
{
    let size = store.file_size(slot);
    answer_size(station, size)?;
    show_content(store, slot, size, station)?;
    answer_bytes(station, b"\nok\n")
}

/// Shows the file of that name: its size, its bytes, and a line feed after them.
pub fn cat<T: Station>(
    store: &Store,
    scratch: &mut Scratch,
    place: &Place,
    name: &Name,
    station: &mut T,
) -> Result<(), End>
    requires sound { IsSound store.now }
    requires scratch { HasRoom scratch.old store.now.metadata.limits }
    requires usable { IsUsable store.now (T.meaning station.old) }
    ensures scratch { HasRoom scratch.new store.now.metadata.limits }
    ensures carries { Does (λ now. cat now name.now) (StoreFits store.now (T.meaning station.old)) place.now
        (T.meaning station.old) (T.meaning station.new) result (StoreFits store.now (T.meaning station.new)) place.now }
    ensures ends { Ends (T.meaning station.old) (T.meaning station.new) result }
{
    let Some(slot) = store.slot_here(scratch, place, name) else {
        return answer_refusal(station, &Refusal::NoFileHere);
    };
    show_file(store, slot, station)
}
