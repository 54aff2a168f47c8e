//! The end of every change: it is committed, or held back.

ghost use Rattle.std.specs.Prelude.{◌≡◌, ℕ, ◌<◌, ◌≤◌, true, false, [], Ok, length, OnOk};
ghost use Rattle.lis_journal.specs.Images.{JournalIsUsable, is_among};
ghost use Rattle.lis_content.specs.Large.{is_large};
ghost use Rattle.lis_model.specs.Image.{image_blocks};
ghost use Rattle.lis_store.specs.Stored.{IsUsable};
ghost use Rattle.lis_store.specs.Changes.{ChangesDisk, EndsUnrefused};
ghost use Rattle.lis_store.specs.Memory.{stored};
ghost use Rattle.lis_store.specs.Saving.{KeepsStaged, MayBeSaved, SaveKeeps, Saves};
ghost use Rattle.lis_journal.specs.Journal.{shape_of};

use crate::change_fault::ChangeFault;
use crate::memory::Memory;
use lis_content::is_large;
use lis_limits::V3_MAX_FILE;
use lis_ports::Disk;

/// The most blocks that are held back between two calls.
pub(crate) const MOST_HELD: u32 = 44;

/// The most blocks that are held back after a change with this content: none if the content is large, since it is placed.
pub(crate) fn most_held(payload: &[u8]) -> u32
    requires { length payload.now ≤ V3_MAX_FILE }
    ensures few { result ≤ MOST_HELD }
    ensures large { 0 < result → is_large (length payload.now) ≡ false }
{
    if is_large(payload.len() as u32) {
        return 0;
    }
    MOST_HELD
}

impl Memory {
    /// Commits what is staged. A disk fault breaks the store.
    pub(crate) fn commit<D: Disk>(&mut self, disk: &mut D) -> Result<(), ChangeFault>
        requires usable { JournalIsUsable self.old.journal (D.meaning disk.old) }
        requires whole { self.old.is_broken ≡ false }
        ensures keeps { KeepsStaged self.old.journal self.new.journal (D.meaning disk.old) (D.meaning disk.new) result }
        ensures idle { self.old.journal.staged ≡ [] → (result ≡ Ok _) × (disk.new ≡ disk.old) × (self.new ≡ self.old) }
        ensures metadata { self.new.metadata ≡ self.old.metadata }
        ensures image { shape_of self.new.journal ≡ shape_of self.old.journal }
        ensures ended { EndsUnrefused self.new.is_broken result }
        ensures disk { ChangesDisk (D.meaning disk.old) (D.meaning disk.new) result }
    {
        if let Err(fault) = self.journal.commit(disk) {
            self.is_broken = true;
            return Err(ChangeFault::from(fault));
        }
        Ok(())
    }

    /// Stages all marked blocks, so that nothing is marked. If more than `most` blocks are staged, it commits them. If something is placed,
    /// `most` is 0.
    pub(crate) fn hold<D: Disk>(&mut self, disk: &mut D, most: u32) -> Result<(), ChangeFault>
        requires ready { MayBeSaved (stored self.old) }
        requires usable { IsUsable (stored self.old) (D.meaning disk.old) }
        requires unplaced { 0 < most → self.old.journal.placed ≡ [] }
        requires within { most ≡ 0 → (n : ℕ) → is_among self.old.journal.placed n ≡ true → n < image_blocks self.old.metadata.limits }
        requires few { most ≤ MOST_HELD }
        ensures saved { SaveKeeps (stored self.old) (stored self.new) result }
        ensures saves { Saves self.old.metadata self.old.journal (stored self.new) (D.meaning disk.old) (D.meaning disk.new) result }
        ensures few { OnOk result (length self.new.journal.staged ≤ most) }
        ensures disk { ChangesDisk (D.meaning disk.old) (D.meaning disk.new) result }
    {
        self.metadata.stage(&mut self.journal);
        self.metadata.settle();
        if self.journal.staged() > most {
            return self.commit(disk);
        }
        Ok(())
    }
}
