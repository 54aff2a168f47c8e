//! Blocks that contents take, and blocks that are freed.

ghost use Rattle.std.specs.Prelude.{◌≡◌, ℕ, ◌+◌, ◌-◌, ◌≤◌, nat_le, nat_lt, ◌&&◌, true, [], List, Some, length, map as mapped, IsSome, IsTrue, OnOk, OnErr, MatchResult};
ghost use Rattle.lis_ports.specs.Calls.{DiskFaultEnds, UsesDisk, ReadsDisk};
ghost use Rattle.lis_ports.specs.Runs.{IsDiskRun};
ghost use Rattle.lis_journal.specs.Images.{Fits, JournalIsUsable};
ghost use Rattle.lis_blockmap.specs.Bitmap.{free_count};
ghost use Rattle.lis_catalog.specs.Catalog.{rec_at};
ghost use Rattle.lis_content.specs.Large.{is_large, slot_count, file_blocks};
ghost use Rattle.lis_fields.specs.Records.{FileRecord};
ghost use Rattle.lis_model.specs.Image.{data_start, image_blocks};
ghost use Rattle.lis_model.specs.Ranges.{are_in_range};
ghost use Rattle.lis_model.specs.State.{blocks_taken, file_limit};
ghost use Rattle.lis_kept.specs.Areas.{bitmap_home};
ghost use Rattle.lis_kept.specs.Changes.{bitmap_homes, GivesBack, Puts, PutTorn};
ghost use Rattle.std.specs.List.{list_all};
ghost use Rattle.lis_content.specs.Content.{given, marked, are_within};
ghost use Rattle.lis_journal.specs.Phases.{looked};
ghost use Rattle.lis_journal.specs.Record.{homes_start};
ghost use Rattle.lis_content.specs.Placing.{IsPlaced, IsUnplaced, HasPlaceCause};
ghost use Rattle.lis_content.specs.Putting.{IsPut, IsRefused};
ghost use Rattle.lis_kept.specs.Sound.{AreSound};
ghost use Rattle.lis_journal.specs.Journal.{shape_of};
ghost use Rattle.lis_kept.specs.Image.{image_shape};

use crate::metadata::Metadata;
use crate::places::{bitmap_start, data_start, laid_by};
use arrayvec::ArrayVec;
use lis_bits::Flags;
use lis_blockmap::BlockMap;
use lis_content::{Laid, PutFault, give_all, is_large, place_file, put, read_blocks};
use lis_journal::Journal;
use lis_limits::{BLOCK_BITS, MAX_FILE, SLOT_BLOCKS, V3_MAX_FILE};
use lis_model::limits::Limits;
use lis_ports::{Disk, Failed};

// Marks the blocks of the bitmap that have the bits of these data blocks, as far as the image has them.
fn mark_bits(marks: &mut Flags, limits: &Limits, blocks: &[u32])
    requires range { IsTrue (are_in_range limits.now) }
    requires long { data_start limits.now ≤ length marks.old }
    ensures { marks.new ≡ marked marks.old (bitmap_homes limits.now blocks.now) }
{
    let first = bitmap_start(limits);
    for n in blocks {
        if *n < limits.blocks {
            marks.put(first + n / BLOCK_BITS, true);
        }
    }
}

// Marks the blocks of the bitmap that have the bits of the data blocks with these homes.
fn mark_homes(marks: &mut Flags, limits: &Limits, homes: &[u32])
    requires range { IsTrue (are_in_range limits.now) }
    requires long { data_start limits.now ≤ length marks.old }
    requires homes { IsTrue (list_all (λ h. nat_le (data_start limits.now) h && nat_lt h (image_blocks limits.now)) homes.now) }
    ensures { marks.new ≡ marked marks.old (mapped (λ h. bitmap_home limits.now (h - data_start limits.now)) homes.now) }
{
    let base = data_start(limits);
    let first = bitmap_start(limits);
    for home in homes {
        marks.put(first + (home - base) / BLOCK_BITS, true);
    }
}

// Frees these blocks, and marks the blocks of the bitmap that have their bits.
fn free_all(map: &mut BlockMap, marks: &mut Flags, limits: &Limits, blocks: &[u32])
    requires range { IsTrue (are_in_range limits.now) }
    requires long { data_start limits.now ≤ length marks.old }
    ensures given { map.new ≡ given map.old blocks.now }
    ensures marks { marks.new ≡ marked marks.old (bitmap_homes limits.now blocks.now) }
{
    give_all(map, blocks);
    mark_bits(marks, limits, blocks);
}

// Frees all blocks of a file with index blocks, and marks the blocks of the bitmap that have their bits.
fn free_large<D: Disk>(
    map: &mut BlockMap,
    marks: &mut Flags,
    limits: &Limits,
    journal: &Journal,
    disk: &mut D,
    laid: Laid,
) -> Result<(), Failed>
    requires range { IsTrue (are_in_range limits.now) }
    requires long { data_start limits.now ≤ length marks.old }
    requires few { laid.size ≤ V3_MAX_FILE }
    requires count { length laid.blocks.now ≡ slot_count laid.size }
    requires home { homes_start journal.now.layout ≤ laid.base }
    requires within { IsTrue (are_within laid.base journal.now.layout.blocks laid.blocks.now) }
    requires usable { JournalIsUsable journal.now (D.meaning disk.old) }
    ensures freed { OnOk result ((blocks : List ℕ) × (map.new ≡ given map.old blocks)
        × (marks.new ≡ marked marks.old (bitmap_homes limits.now blocks))
        × ((kept : ℕ → List ℕ) → Fits journal.now (D.meaning disk.old) kept
        → blocks ≡ file_blocks laid.entry.version laid.entry.base laid.entry.blocks.now laid.entry.size (looked journal.now.staged kept))) }
    ensures stays { OnErr result ((map.new ≡ map.old) × (marks.new ≡ marks.old)) }
    ensures disk { ReadsDisk (D.meaning disk.old) (D.meaning disk.new) result }
    ensures fits { (kept : ℕ → List ℕ) → Fits journal.now (D.meaning disk.old) kept
        → Fits journal.now (D.meaning disk.new) kept }
{
    let mut blocks = ArrayVec::new();
    read_blocks(journal, disk, laid, &mut blocks)?;
    free_all(map, marks, limits, blocks.as_slice());
    Ok(())
}

// Places a content with its index blocks, and marks the blocks of the bitmap that have the bits of all of them.
fn place_marked<D: Disk>(
    map: &mut BlockMap,
    marks: &mut Flags,
    limits: &Limits,
    journal: &mut Journal,
    disk: &mut D,
    bytes: &[u8],
) -> Result<ArrayVec<u32, 16>, PutFault>
    requires range { IsTrue (are_in_range limits.now) }
    requires long { data_start limits.now ≤ length marks.old }
    requires taken { length map.old ≡ limits.now.blocks }
    requires short { length bytes.now ≤ file_limit limits.now }
    requires image { shape_of journal.old ≡ image_shape limits.now }
    requires usable { JournalIsUsable journal.old (D.meaning disk.old) }
    requires unplaced { journal.old.placed ≡ [] }
    requires unstaged { journal.old.staged ≡ [] }
    ensures ended { MatchResult result
        (λ numbers. (placed : IsPlaced limits.now.version (data_start limits.now) bytes.now map.old map.new journal.old journal.new (D.meaning disk.old) (D.meaning disk.new) numbers.items)
        × (marks.new ≡ marked marks.old (bitmap_homes limits.now placed.blocks)))
        (λ fault. IsUnplaced (data_start limits.now) bytes.now map.old map.new journal.old journal.new (D.meaning disk.old) (D.meaning disk.new) fault
        × (marks.new ≡ marks.old)) }
    ensures run { IsDiskRun (D.meaning disk.old) (D.meaning disk.new) }
    ensures cause { HasPlaceCause (D.meaning disk.old).disk_faults (D.meaning disk.new).disk_faults result }
    ensures first_fault { DiskFaultEnds (D.meaning disk.old) (D.meaning disk.new) }
{
    let base = data_start(limits);
    let numbers = place_file(map, journal, disk, limits.version, base, bytes)?;
    mark_homes(marks, limits, journal.placed());
    Ok(numbers)
}

// Stages a content, and marks the blocks of the bitmap that have the bits of its blocks.
fn stage_marked<D: Disk>(
    map: &mut BlockMap,
    marks: &mut Flags,
    limits: &Limits,
    journal: &mut Journal,
    disk: &mut D,
    bytes: &[u8],
) -> Result<ArrayVec<u32, 16>, PutFault>
    requires range { IsTrue (are_in_range limits.now) }
    requires long { data_start limits.now ≤ length marks.old }
    requires taken { length map.old ≡ limits.now.blocks }
    requires few { length bytes.now ≤ MAX_FILE }
    requires image { shape_of journal.old ≡ image_shape limits.now }
    requires usable { JournalIsUsable journal.old (D.meaning disk.old) }
    requires unplaced { journal.old.placed ≡ [] }
    requires room { length journal.old.staged + SLOT_BLOCKS ≤ journal.old.capacity.staged }
    ensures ended { MatchResult result
        (λ numbers. IsPut (data_start limits.now) [] bytes.now map.old map.new journal.old journal.new numbers.items
        × (marks.new ≡ marked marks.old (bitmap_homes limits.now numbers.items)))
        (λ fault. IsRefused [] bytes.now map.old map.new journal.old journal.new fault × (marks.new ≡ marks.old)) }
    ensures disk { disk.new ≡ disk.old }
{
    let base = data_start(limits);
    let numbers = put(map, journal, disk, base, &[], bytes)?;
    mark_bits(marks, limits, numbers.as_slice());
    Ok(numbers)
}

impl Metadata {
    /// Puts bytes into free blocks, which it takes, and returns the numbers for the slot. The bytes are staged; if they are large, they are
    /// placed, with index blocks, and then nothing may be staged. After a disk fault the journal is broken.
    pub fn put_content<D: Disk>(
        &mut self,
        journal: &mut Journal,
        disk: &mut D,
        bytes: &[u8],
    ) -> Result<ArrayVec<u32, 16>, Failed>
        requires short { length bytes.now ≤ file_limit self.old.limits }
        requires enough { blocks_taken self.old.limits.version (length bytes.now) ≤ free_count self.old.taken }
        requires image { shape_of journal.old ≡ image_shape self.old.limits }
        requires usable { JournalIsUsable journal.old (D.meaning disk.old) }
        requires unplaced { journal.old.placed ≡ [] }
        requires unstaged { is_large (length bytes.now) ≡ true → journal.old.staged ≡ [] }
        requires room { length journal.old.staged + SLOT_BLOCKS ≤ journal.old.capacity.staged }
        ensures ended { MatchResult result
            (λ numbers. Puts bytes.now numbers.items self.old self.new journal.old journal.new (D.meaning disk.old) (D.meaning disk.new))
            (λ _. PutTorn self.old self.new journal.old journal.new (D.meaning disk.old) (D.meaning disk.new)) }
        ensures torn { OnErr result (is_large (length bytes.now) ≡ true) }
        ensures sound { AreSound self.new }
        ensures disk { UsesDisk (D.meaning disk.old) (D.meaning disk.new) result }
    {
        let put = if is_large(bytes.len() as u32) {
            place_marked(
                &mut self.map,
                &mut self.marks,
                &self.limits,
                journal,
                disk,
                bytes,
            )
        } else {
            stage_marked(
                &mut self.map,
                &mut self.marks,
                &self.limits,
                journal,
                disk,
                bytes,
            )
        };
        match put {
            Ok(numbers) => Ok(numbers),
            Err(PutFault::Disk) => Err(Failed),
            Err(PutFault::NoSpace) => unreachable!(),
        }
    }

    /// Frees the blocks of the file in a slot. The numbers in its index blocks are read from the disk; if that fails, no block is freed.
    pub fn give_blocks<D: Disk>(
        &mut self,
        journal: &Journal,
        disk: &mut D,
        slot: u32,
    ) -> Result<(), Failed>
        requires there { IsSome (rec_at self.old.catalog slot) }
        requires image { shape_of journal.now ≡ image_shape self.old.limits }
        requires usable { JournalIsUsable journal.now (D.meaning disk.old) }
        ensures gives { OnOk result ((rec : FileRecord) → rec_at self.old.catalog slot ≡ Some rec → GivesBack rec self.old self.new journal.now (D.meaning disk.old)) }
        ensures stays { OnErr result (self.new ≡ self.old) }
        ensures sound { AreSound self.new }
        ensures disk { ReadsDisk (D.meaning disk.old) (D.meaning disk.new) result }
        ensures fits { (kept : ℕ → List ℕ) → Fits journal.now (D.meaning disk.old) kept
            → Fits journal.now (D.meaning disk.new) kept }
    {
        let Some(rec) = self.catalog.rec(slot) else {
            unreachable!()
        };
        let laid = laid_by(&self.limits, rec);
        if is_large(rec.size) {
            return free_large(
                &mut self.map,
                &mut self.marks,
                &self.limits,
                journal,
                disk,
                laid,
            );
        }
        free_all(&mut self.map, &mut self.marks, &self.limits, laid.blocks);
        Ok(())
    }
}
