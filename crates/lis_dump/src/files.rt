//! The files of a dump, with their bytes.

ghost use Rattle.std.specs.Prelude.{◌≡◌, ℕ, List, Some, slice_get, option_to_list, IsSomeAnd};
ghost use Rattle.std.specs.List.{flat_map};
ghost use Rattle.lis_catalog.specs.Catalog.{slot_of, rec_at};
ghost use Rattle.lis_fields.specs.Records.{FileRecord};
ghost use Rattle.lis_model.specs.Changes.{file_of};
ghost use Rattle.lis_replay.specs.Dump.{file_lines};
ghost use Rattle.lis_store.specs.Stored.{IsSound, IsUsable};
ghost use Rattle.lis_dump.specs.Showing.{Pages};

use crate::lines::{add_line, mv_line};
use crate::page::{Page, push_line, show_page};
use lis_eval::View;
use lis_ports::Station;
use lis_session::content::show_content;
use lis_session::end::End;
use lis_store::Store;
use lis_words::Name;

/// The most words that the line which adds a file assigns to it.
const MAX_ADDED: usize = 8;

// Shows the bytes of the file in the slot. The lines before them are shown first.
fn show_bytes<T: Station>(
    store: &Store,
    slot: u32,
    size: u32,
    page: &mut Page,
    station: &mut T,
) -> Result<(), End>
    requires sound { IsSound store.now }
    requires size { IsSomeAnd (rec_at store.now.metadata.catalog slot) (λ (rec : FileRecord). size ≡ rec.size) }
    requires usable { IsUsable store.now (T.meaning station.old) }
    ensures { (name : List ℕ) → slot_of store.now.metadata.catalog name ≡ Some slot
        → Pages store.now (λ state. (file_of state.files name).bytes) page.old.items page.new.items (T.meaning station.old) (T.meaning station.new) result }
{
    if size == 0 {
        return Ok(());
    }
    show_page(page, station)?;
    show_content(store, slot, size, station)
}

// Shows the file in the slot, which has this name.
fn show_file<T: Station>(
    store: &Store,
    name: &Name,
    slot: u32,
    page: &mut Page,
    station: &mut T,
) -> Result<(), End>
    requires sound { IsSound store.now }
    requires slot { slot_of store.now.metadata.catalog name.now ≡ Some slot }
    requires usable { IsUsable store.now (T.meaning station.old) }
    ensures { Pages store.now (λ state. file_lines (file_of state.files name.now)) page.old.items page.new.items (T.meaning station.old) (T.meaning station.new) result }
{
    let size = store.file_size(slot);
    let words = store.tags(slot);
    let (first, others) = words.as_slice().split_at(words.len().min(MAX_ADDED));
    push_line(page, &add_line(name, size, first), station)?;
    show_bytes(store, slot, size, page, station)?;
    push_line(page, &mv_line(name, others), station)
}

// Shows the k-th file, if there is one.
fn show_file_at<T: Station>(
    store: &Store,
    k: u32,
    page: &mut Page,
    station: &mut T,
) -> Result<(), End>
    requires sound { IsSound store.now }
    requires usable { IsUsable store.now (T.meaning station.old) }
    ensures { Pages store.now (λ state. flat_map file_lines (option_to_list (slice_get state.files k))) page.old.items page.new.items
        (T.meaning station.old) (T.meaning station.new) result }
{
    let Some((name, slot)) = store.file_at(k) else {
        return Ok(());
    };
    show_file(store, &name, slot, page, station)
}

/// Shows the files, one by one.
pub fn show_files<T: Station>(store: &Store, page: &mut Page, station: &mut T) -> Result<(), End>
    requires sound { IsSound store.now }
    requires usable { IsUsable store.now (T.meaning station.old) }
    ensures { Pages store.now (λ state. flat_map file_lines state.files) page.old.items page.new.items (T.meaning station.old) (T.meaning station.new) result }
{
    for k in 0..store.limits().files {
        show_file_at(store, k, page, station)?;
    }
    Ok(())
}
