//! The metadata of an image, what memory keeps of it, as one value.

ghost use Rattle.std.specs.Prelude.{◌≡◌, ℕ, ◌+◌, ◌<◌, ◌≤◌, false, length, replicate, IsTrue, IfSome, IfNone};
ghost use Rattle.lis_journal.specs.Images.{is_among};
ghost use Rattle.lis_model.specs.Image.{properties_start, bitmap_start, data_start};
ghost use Rattle.lis_journal.specs.Journal.{shape_of};
ghost use Rattle.lis_kept.specs.Image.{image_shape};

use crate::places::{
    axioms_start, bitmap_start, data_start, descriptions_start, files_start, properties_start,
};
use crate::rows::write_rows;
use crate::sets::write_sets;
use crate::spelling::{write_axioms, write_files, write_properties};
use lis_bits::Flags;
use lis_blockmap::BlockMap;
use lis_catalog::Catalog;
use lis_dict::Dict;
use lis_ext::Ext;
use lis_fields::AxiomSlot;
use lis_journal::Journal;
use lis_limits::{
    AXIOMS_PER_BLOCK, BLOCK_LEN, FILES_PER_BLOCK, PROPERTIES_PER_BLOCK, SETS_PER_BLOCK,
};
use lis_model::limits::Limits;
use lis_taxonomy::Taxonomy;
use std::marker::Model;

/// What memory keeps of an image, and which of its blocks are yet to be written.
#[derive(Drop)]
pub struct Metadata {
    pub(crate) limits: Limits,
    pub(crate) dict: Dict,
    // By number: the word that has it is declared.
    pub(crate) declared: Flags,
    // By slot, as many as whole blocks have.
    pub(crate) axioms: Vec<AxiomSlot>,
    // The links between the words that have numbers.
    pub(crate) taxonomy: Taxonomy,
    pub(crate) catalog: Catalog,
    pub(crate) map: BlockMap,
    pub(crate) ext: Ext,
    // By block: it must be written.
    pub(crate) marks: Flags,
}

impl Model for Metadata {
    ghost use Rattle.lis_kept.specs.Metadata.{Metadata as MetadataOf};

    ghost Value = { MetadataOf };

    ghost use Rattle.lis_kept.specs.Metadata.{metadata_of};
    ghost use Rattle.lis_kept.specs.Links.{AreHeld};

    ghost view = { λ p. metadata_of p.limits p.dict p.declared p.axioms.items p.catalog p.map p.ext p.marks };

    ghost invariant = { λ p. AreHeld (metadata_of p.limits p.dict p.declared p.axioms.items p.catalog p.map p.ext p.marks) p.taxonomy };
}

impl Metadata {
    ghost use Rattle.lis_kept.specs.Sound.{AreSound};
    ghost use Rattle.lis_kept.specs.Areas.{is_marked, marked_count};
    ghost use Rattle.lis_kept.specs.Staging.{Stages};
    ghost use Rattle.lis_kept.specs.Inside.{IsBlock, StagesBlock};

    /// The limits of the image.
    pub fn limits(&self) -> &Limits
        ensures value { result.now ≡ self.now.limits }
        ensures sound { AreSound self.now }
    {
        &self.limits
    }

    /// Stages every marked block, spelled whole. The marks stay.
    pub fn stage(&self, journal: &mut Journal)
        requires image { shape_of journal.old ≡ image_shape self.now.limits }
        requires unbroken { journal.old.is_broken ≡ false }
        requires unplaced { (n : ℕ) → n < data_start self.now.limits → is_among journal.old.placed n ≡ false }
        requires room { length journal.old.staged + marked_count self.now ≤ journal.old.capacity.staged }
        ensures staged { Stages self.now journal.old journal.new }
        ensures sound { AreSound self.now }
    {
        let end = data_start(self.limits());
        let mut from = properties_start(self.limits());
        while from < end {
            let Some(n) = self.next_marked(from) else {
                return;
            };
            if n >= end {
                return;
            }
            self.stage_block(journal, n);
            from = n + 1;
        }
    }

    /// Removes all marks, since what is marked was written.
    pub fn settle(&mut self)
        ensures settled { self.new ≡ record self.old { marks = replicate (length self.old.marks) false } }
        ensures sound { AreSound self.new }
    {
        self.marks.fill(false);
    }

    // The first block from a number on that must be written.
    fn next_marked(&self, from: u32) -> Option<u32>
        ensures marked { IfSome result (λ n. IsTrue (is_marked self.now n)) }
        ensures below { IfSome result (λ n. n < length self.now.marks) }
        ensures from { IfSome result (λ n. from ≤ n) }
        ensures least { IfSome result (λ n. (k : ℕ) → from ≤ k → k < n → is_marked self.now k ≡ false) }
        ensures none { IfNone result ((k : ℕ) → from ≤ k → k < length self.now.marks → is_marked self.now k ≡ false) }
    {
        self.marks.next(from)
    }

    // Stages a block, spelled whole.
    fn stage_block(&self, journal: &mut Journal, n: u32)
        requires image { shape_of journal.old ≡ image_shape self.now.limits }
        requires unbroken { journal.old.is_broken ≡ false }
        requires unplaced { is_among journal.old.placed n ≡ false }
        requires room { length journal.old.staged < journal.old.capacity.staged }
        requires from { properties_start self.now.limits ≤ n }
        requires to { n < data_start self.now.limits }
        ensures { StagesBlock self.now n journal.old journal.new }
    {
        let bitmap = bitmap_start(&self.limits);
        if n >= bitmap {
            self.map.stage_to(journal, n, n - bitmap);
            return;
        }
        let mut block = [0; BLOCK_LEN];
        self.write_block(n, &mut block);
        journal.stage(n, &block);
    }

    // Writes a block of slots, rows or sets.
    #[tactic(auto, using(crate::proofs::InArea::few_properties, crate::proofs::InArea::few_files))]
    fn write_block(&self, n: u32, block: &mut [u8])
        requires from { properties_start self.now.limits ≤ n }
        requires to { n < bitmap_start self.now.limits }
        requires whole { length block.old ≡ BLOCK_LEN }
        ensures { IsBlock self.now n block.new }
    {
        let axioms = axioms_start(&self.limits);
        if n < axioms {
            let first = PROPERTIES_PER_BLOCK * (n - properties_start(&self.limits));
            write_properties(&self.dict, &self.declared, first, block);
            return;
        }
        let files = files_start(&self.limits);
        if n < files {
            let first = AXIOMS_PER_BLOCK * (n - axioms) as usize;
            write_axioms(self.axioms.as_slice(), first, block);
            return;
        }
        let descriptions = descriptions_start(&self.limits);
        if n < descriptions {
            let first = FILES_PER_BLOCK * (n - files);
            write_files(&self.catalog, &self.limits, first, block);
            return;
        }
        if self.limits.version == 3 {
            write_sets(&self.ext, SETS_PER_BLOCK * (n - descriptions), block);
            return;
        }
        let width = self.limits.files / 8;
        let count = BLOCK_LEN as u32 / width;
        write_rows(
            &self.ext,
            count * (n - descriptions),
            width as usize,
            count,
            block,
        );
    }
}
