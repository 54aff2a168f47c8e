//! Rows of the files of some size.

ghost use Rattle.std.specs.Prelude.{◌≡◌, ◌<◌, ◌==◌, nat_le, ◌&&◌, ◌||◌, Some};
ghost use Rattle.lis_bits.specs.Rows.{get, SetsBits};
ghost use Rattle.lis_model.specs.Table.{Entry};
ghost use Rattle.lis_eval.specs.View.{Placed, file_in, slot_passes};
ghost use Rattle.lis_eval.specs.Room.{CanMark};

use crate::view::View;
use lis_bits::Rows;

// Sets the bit of a file's slot if the file has at least `least` bytes.
fn put_size<V: View>(view: &V, rows: &mut Rows, files: u32, row: u32, slot: u32, least: u64)
    requires room { CanMark (V.seen view.now) rows.old files }
    requires row { row < 65 }
    requires slot { slot < files }
    requires there { (f : Placed) × (file_in (V.seen view.now) slot ≡ Some f) }
    ensures { (f : Placed) → file_in (V.seen view.now) slot ≡ Some f
        → SetsBits rows.old rows.new 65 files row (λ bit. get rows.old row bit || ((slot == bit) && nat_le least f.entry.size)) }
{
    if view.size_of(slot) >= least {
        rows.put(row, slot, true);
    }
}

// Sets a row to the files that have at least `least` bytes.
pub(crate) fn fill_sizes<V: View>(view: &V, rows: &mut Rows, files: u32, row: u32, least: u64)
    requires room { CanMark (V.seen view.now) rows.old files }
    requires row { row < 65 }
    ensures { SetsBits rows.old rows.new 65 files row
        (slot_passes (V.seen view.now).files (λ (e : Entry). nat_le least e.size)) }
{
    rows.fill(row, false);
    for k in 0..files {
        match view.file_at(k) {
            None => return,
            Some((_, slot)) => put_size(view, rows, files, row, slot, least),
        }
    }
}
