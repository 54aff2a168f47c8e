//! Changes of what memory keeps. Each marks the blocks that it touches.

ghost use Rattle.std.specs.Prelude.{◌≡◌, ℕ, ◌+◌, ◌<◌, ◌≤◌, nat_lt, true, None, is_some, map, length, slice_set, IsTrue, IsSome};
ghost use Rattle.std.specs.List.{list_all};
ghost use Rattle.std.specs.List.Sorted.{IsStrictlyIncreasing};
ghost use Rattle.lis_content.specs.Content.{marked};
ghost use Rattle.lis_catalog.specs.Catalog.{rec_at, slot_of};
ghost use Rattle.lis_dict.specs.Dict.{word_of};
ghost use Rattle.lis_ext.specs.Ext.{has};
ghost use Rattle.lis_model.specs.Image.{descriptions_start, data_start};
ghost use Rattle.lis_model.specs.Ranges.{are_in_range};
ghost use Rattle.lis_kept.specs.Areas.{block_of, description_home};
ghost use Rattle.lis_kept.specs.Areas.Area.{Files as FileArea};
ghost use Rattle.lis_kept.specs.Sound.{AreSound, is_sound_record};
ghost use Rattle.lis_kept.specs.Changes.{Describes, Drops, Files};

mod blocks;

use crate::metadata::Metadata;
use crate::places::{descriptions_start, files_start};
use lis_bits::Flags;
use lis_ext::Ext;
use lis_fields::FileRec;
use lis_limits::{BLOCK_LEN, FILES_PER_BLOCK, MAX_DESCRIPTION, SETS_PER_BLOCK};
use lis_model::limits::Limits;

// Which of the blocks that say what files have shows whether the file in a slot has a number.
#[tactic(auto, using(crate::proofs::InArea::some_rows))]
fn description_place(limits: &Limits, slot: u32, number: u32) -> u32
    requires range { IsTrue (are_in_range limits.now) }
    ensures { descriptions_start limits.now + result ≡ description_home limits.now slot number }
{
    if limits.version == 3 {
        return slot / SETS_PER_BLOCK;
    }
    number / (BLOCK_LEN as u32 / (limits.files / 8))
}

// Marks the blocks that show who has the numbers that the file in a slot got or lost.
fn mark_described(ext: &Ext, limits: &Limits, slot: u32, marks: &mut Flags)
    requires range { IsTrue (are_in_range limits.now) }
    requires long { data_start limits.now ≤ length marks.old }
    requires few { length ext.now.marks ≤ limits.now.props }
    requires slot { slot < limits.now.files }
    requires below { IsTrue (list_all (λ n. nat_lt n limits.now.props) ext.now.marks) }
    ensures { marks.new ≡ marked marks.old (map (description_home limits.now slot) ext.now.marks) }
{
    let first = descriptions_start(limits);
    for k in 0..limits.props {
        match ext.changed(k) {
            None => return,
            Some(number) => marks.put(first + description_place(limits, slot, number), true),
        }
    }
}

// Marks the block of a file slot.
#[tactic(auto, using(lis_model::proofs::Ranges::few_records, lis_model::proofs::Ranges::few_limits))]
fn mark_file(marks: &mut Flags, limits: &Limits, slot: u32)
    requires range { IsTrue (are_in_range limits.now) }
    requires slot { slot < limits.now.files }
    requires long { data_start limits.now ≤ length marks.old }
    ensures { marks.new ≡ slice_set marks.old (block_of limits.now FileArea slot) true }
{
    marks.put(files_start(limits) + slot / FILES_PER_BLOCK, true);
}

impl Metadata {
    /// Replaces the numbers of a file slot, which are those of its file's description.
    pub fn describe(&mut self, slot: u32, new: &[u32])
        requires slot { slot < self.old.limits.files }
        requires few { length new.now ≤ MAX_DESCRIPTION }
        requires rising { IsStrictlyIncreasing new.now }
        requires named { IsTrue (list_all (λ n. is_some (word_of self.old.dict n)) new.now) }
        ensures describes { Describes slot new.now self.old self.new }
        ensures sound { AreSound self.new }
    {
        self.ext.set_file(slot, new);
        mark_described(&self.ext, &self.limits, slot, &mut self.marks);
        self.ext.settle();
    }

    /// Removes the record from its slot, and returns it. Its blocks stay taken.
    pub fn drop_record(&mut self, slot: u32) -> FileRec
        requires there { IsSome (rec_at self.old.catalog slot) }
        ensures drops { Drops slot result self.old self.new }
        ensures sound { AreSound self.new }
    {
        let Some(rec) = self.catalog.remove(slot) else {
            unreachable!()
        };
        mark_file(&mut self.marks, &self.limits, slot);
        rec
    }

    /// Files a record under a new name in this free slot. Its blocks are taken already, and the slot has its numbers.
    pub fn place_record(&mut self, slot: u32, rec: FileRec)
        requires below { slot < self.old.limits.files }
        requires free { rec_at self.old.catalog slot ≡ None }
        requires described { (n : ℕ) → has self.old.ext n slot ≡ true → IsSome (word_of self.old.dict n) }
        requires new { slot_of self.old.catalog rec.name ≡ None }
        requires sound { IsTrue (is_sound_record self.old.limits self.old.dict self.old.limits.blocks rec) }
        ensures files { Files slot rec self.old self.new }
        ensures sound { AreSound self.new }
    {
        self.catalog.place(slot, rec);
        mark_file(&mut self.marks, &self.limits, slot);
    }
}
