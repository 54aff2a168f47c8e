//! The bytes of a file, read from its blocks.

ghost use Rattle.std.specs.Prelude.{◌≡◌, ℕ, List, Some, length, IsSome, OnOk};
ghost use Rattle.lis_ports.specs.Calls.{ReadsDisk};
ghost use Rattle.lis_journal.specs.Images.{Fits, JournalIsUsable};
ghost use Rattle.lis_journal.specs.Phases.{looked};
ghost use Rattle.lis_catalog.specs.Catalog.{rec_at};
ghost use Rattle.lis_fields.specs.Records.{FileRecord};
ghost use Rattle.lis_kept.specs.Telling.{bytes_told};
ghost use Rattle.lis_store.specs.Contents.{AreContentsWithin};
ghost use Rattle.lis_journal.specs.Journal.{shape_of};
ghost use Rattle.lis_kept.specs.Image.{image_shape};

use lis_content::Buffer;
use lis_journal::Journal;
use lis_kept::{Metadata, laid_by};
use lis_ports::{Disk, Failed};

/// Reads the bytes of the file in a slot.
pub(crate) fn read_file<D: Disk>(
    metadata: &Metadata,
    journal: &Journal,
    disk: &mut D,
    bytes: &mut Buffer,
    slot: u32,
) -> Result<(), Failed>
    requires there { IsSome (rec_at metadata.now.catalog slot) }
    requires image { shape_of journal.now ≡ image_shape metadata.now.limits }
    requires usable { JournalIsUsable journal.now (D.meaning disk.old) }
    ensures read { OnOk result ((rec : FileRecord) (kept : ℕ → List ℕ) → rec_at metadata.now.catalog slot ≡ Some rec
        → Fits journal.now (D.meaning disk.old) kept → AreContentsWithin metadata.now.limits (looked journal.now.staged kept) rec → bytes.new ≡ bytes_told metadata.now.limits (looked journal.now.staged kept) rec) }
    ensures size { OnOk result ((rec : FileRecord) → rec_at metadata.now.catalog slot ≡ Some rec → length bytes.new ≡ rec.size) }
    ensures disk { ReadsDisk (D.meaning disk.old) (D.meaning disk.new) result }
    ensures fits { (kept : ℕ → List ℕ) → Fits journal.now (D.meaning disk.old) kept → Fits journal.now (D.meaning disk.new) kept }
{
    let Some(rec) = metadata.rec(slot) else {
        unreachable!()
    };
    bytes.read(journal, disk, laid_by(metadata.limits(), rec))
}
