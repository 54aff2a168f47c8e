//! Contents of files that are put on the disk, replaced and freed. A disk fault breaks the store.

ghost use Rattle.std.specs.Prelude.{◌≡◌, ◌≤◌, Some, true, false, length, IsSome, IfSome, OnErr};
ghost use Rattle.lis_journal.specs.Images.{JournalIsUsable};
ghost use Rattle.lis_blockmap.specs.Bitmap.{free_count};
ghost use Rattle.lis_catalog.specs.Catalog.{rec_at};
ghost use Rattle.lis_content.specs.Large.{is_large};
ghost use Rattle.lis_fields.specs.Records.{FileRecord};
ghost use Rattle.lis_model.specs.State.{blocks_taken};
ghost use Rattle.lis_kept.specs.Sound.{AreSound};
ghost use Rattle.lis_kept.specs.Image.{image_shape};
ghost use Rattle.lis_journal.specs.Journal.{shape_of};
ghost use Rattle.lis_store.specs.Memory.{stored};
ghost use Rattle.lis_store.specs.Instead.{free_instead, free_for};
ghost use Rattle.lis_store.specs.ReplacingIn.{record_in};
ghost use Rattle.lis_store.specs.Contents.{IsReadyForContent, ContentPut, ContentGiven, ContentRenewed, StepEnded};

use crate::change_fault::ChangeFault;
use crate::memory::Memory;
use arrayvec::ArrayVec;
use lis_kept::Metadata;
use lis_ports::Disk;

impl Memory {
    // Puts bytes into free blocks, and returns the block numbers that the slot gets.
    fn put_content<D: Disk>(
        &mut self,
        disk: &mut D,
        payload: &[u8],
    ) -> Result<ArrayVec<u32, 16>, ChangeFault>
        requires ready { IsReadyForContent payload.now (stored self.old) (D.meaning disk.old) }
        requires enough { blocks_taken self.old.metadata.limits.version (length payload.now) ≤ free_count self.old.metadata.taken }
        ensures put { ContentPut payload.now self.old.metadata self.new.metadata self.old.journal self.new.journal
            (D.meaning disk.old) (D.meaning disk.new) result }
        ensures ends { StepEnded (stored self.new) (D.meaning disk.old) (D.meaning disk.new) result }
        ensures torn { OnErr result (is_large (length payload.now) ≡ true) }
    {
        match self.metadata.put_content(&mut self.journal, disk, payload) {
            Ok(numbers) => Ok(numbers),
            Err(fault) => {
                self.is_broken = true;
                Err(ChangeFault::from(fault))
            }
        }
    }

    /// Frees the blocks of the file in a slot.
    pub(crate) fn free_content<D: Disk>(
        &mut self,
        disk: &mut D,
        slot: u32,
    ) -> Result<(), ChangeFault>
        requires there { IsSome (rec_at self.old.metadata.catalog slot) }
        requires image { shape_of self.old.journal ≡ image_shape self.old.metadata.limits }
        requires usable { JournalIsUsable self.old.journal (D.meaning disk.old) }
        requires whole { self.old.is_broken ≡ false }
        ensures given { (rec : FileRecord) → rec_at self.old.metadata.catalog slot ≡ Some rec
            → ContentGiven rec self.old.metadata self.new.metadata self.old.journal (D.meaning disk.old) (D.meaning disk.new) result }
        ensures journal { self.new.journal ≡ self.old.journal }
        ensures ends { StepEnded (stored self.new) (D.meaning disk.old) (D.meaning disk.new) result }
    {
        match self.metadata.give_blocks(&self.journal, disk, slot) {
            Ok(()) => Ok(()),
            Err(fault) => {
                self.is_broken = true;
                Err(ChangeFault::from(fault))
            }
        }
    }

    // Puts bytes into blocks, instead of the bytes of the file in a slot, and returns the block numbers that the slot gets. In version 1
    // the blocks of that file may be used again; in versions 2 and 3 they stay until the command is done.
    fn put_instead<D: Disk>(
        &mut self,
        disk: &mut D,
        slot: u32,
        payload: &[u8],
    ) -> Result<ArrayVec<u32, 16>, ChangeFault>
        requires there { IsSome (rec_at self.old.metadata.catalog slot) }
        requires ready { IsReadyForContent payload.now (stored self.old) (D.meaning disk.old) }
        requires enough { (rec : FileRecord) → rec_at self.old.metadata.catalog slot ≡ Some rec
            → blocks_taken self.old.metadata.limits.version (length payload.now) ≤ free_instead self.old.metadata rec }
        ensures renewed { (rec : FileRecord) → rec_at self.old.metadata.catalog slot ≡ Some rec
            → ContentRenewed payload.now (Some rec) self.old.metadata self.new.metadata self.old.journal self.new.journal
            (D.meaning disk.old) (D.meaning disk.new) result }
        ensures ends { StepEnded (stored self.new) (D.meaning disk.old) (D.meaning disk.new) result }
    {
        if self.metadata.limits().version != 1 {
            let numbers = self.put_content(disk, payload)?;
            self.free_content(disk, slot)?;
            return Ok(numbers);
        }
        self.free_content(disk, slot)?;
        self.put_content(disk, payload)
    }

    /// Puts bytes into blocks, instead of the bytes of the file in the slot if a slot is given. It returns the block numbers that the slot
    /// gets.
    pub(crate) fn put_anew<D: Disk>(
        &mut self,
        disk: &mut D,
        slot: Option<u32>,
        payload: &[u8],
    ) -> Result<ArrayVec<u32, 16>, ChangeFault>
        requires sound { AreSound self.old.metadata }
        requires there { IfSome slot (λ slot. IsSome (rec_at self.old.metadata.catalog slot)) }
        requires ready { IsReadyForContent payload.now (stored self.old) (D.meaning disk.old) }
        requires enough { blocks_taken self.old.metadata.limits.version (length payload.now) ≤ free_for self.old.metadata (record_in self.old.metadata slot) }
        ensures renewed { ContentRenewed payload.now (record_in self.old.metadata slot) self.old.metadata self.new.metadata self.old.journal self.new.journal
            (D.meaning disk.old) (D.meaning disk.new) result }
        ensures ends { StepEnded (stored self.new) (D.meaning disk.old) (D.meaning disk.new) result }
    {
        match slot {
            None => self.put_content(disk, payload),
            Some(slot) => self.put_instead(disk, slot, payload),
        }
    }
}

/// The block numbers in the slot of a file.
pub(crate) fn blocks_in(metadata: &Metadata, slot: u32) -> ArrayVec<u32, 16>
    requires { IsSome (rec_at metadata.now.catalog slot) }
    ensures { (rec : FileRecord) → rec_at metadata.now.catalog slot ≡ Some rec → result.items ≡ rec.blocks }
{
    let Some(rec) = metadata.rec(slot) else {
        unreachable!()
    };
    let mut numbers = ArrayVec::new();
    numbers
        .try_extend_from_slice(rec.blocks.as_slice())
        .unwrap();
    numbers
}
