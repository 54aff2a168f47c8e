//! Changes of the axioms that memory keeps.

ghost use Rattle.std.specs.Prelude.{◌≡◌, ◌<◌, ◌≤◌, true, length, count_by, slice_set, IsTrue};
ghost use Rattle.std.specs.List.{position};
ghost use Rattle.lis_model.specs.Image.{data_start};
ghost use Rattle.lis_model.specs.Ranges.{are_in_range};
ghost use Rattle.lis_kept.specs.Areas.{block_of};
ghost use Rattle.lis_kept.specs.Areas.Area.{Axioms};
ghost use Rattle.lis_kept.specs.Links.{is_pair, has_pair};
ghost use Rattle.lis_kept.specs.Sound.{AreSound};
ghost use Rattle.lis_kept.specs.Linking.{is_free, is_filled, MayLink, Links, MayUnlink, Unlinks};

use crate::metadata::Metadata;
use crate::places::axioms_start;
use lis_bits::Flags;
use lis_fields::AxiomSlot;
use lis_limits::{AXIOMS_PER_BLOCK, V3_MAX_PROPS};
use lis_model::limits::Limits;

// Marks the block of an axiom slot.
#[tactic(auto, using(lis_model::proofs::Ranges::few_records, lis_model::proofs::Ranges::few_limits))]
fn mark_axiom(marks: &mut Flags, limits: &Limits, slot: usize)
    requires range { IsTrue (are_in_range limits.now) }
    requires slot { slot < limits.now.props }
    requires long { data_start limits.now ≤ length marks.old }
    ensures { marks.new ≡ slice_set marks.old (block_of limits.now Axioms slot) true }
{
    marks.put(
        axioms_start(limits) + (slot / AXIOMS_PER_BLOCK) as u32,
        true,
    );
}

fn is_free(slot: AxiomSlot) -> bool
    ensures { result ≡ is_free slot }
{
    matches!(slot, AxiomSlot::Free)
}

fn is_pair(slot: AxiomSlot, left: u32, right: u32) -> bool
    ensures { result ≡ is_pair left right slot }
{
    match slot {
        AxiomSlot::Free => false,
        AxiomSlot::Pair(from, to) => from == left && to == right,
    }
}

// The first slot that no axiom is in.
fn free_slot(axioms: &[AxiomSlot]) -> Option<usize>
    ensures { result ≡ position is_free axioms.now }
{
    axioms.iter().position(|slot| is_free(*slot))
}

// The first slot of the axiom between two numbers.
fn slot_of_pair(axioms: &[AxiomSlot], left: u32, right: u32) -> Option<usize>
    ensures { result ≡ position (is_pair left right) axioms.now }
{
    axioms.iter().position(|slot| is_pair(*slot, left, right))
}

// Whether the axiom between two numbers is in some slot.
fn has_pair(axioms: &[AxiomSlot], left: u32, right: u32) -> bool
    ensures { result ≡ has_pair axioms.now left right }
{
    axioms.iter().any(|slot| is_pair(*slot, left, right))
}

// How many slots an axiom is in.
fn filled_count(axioms: &[AxiomSlot]) -> u32
    requires { length axioms.now ≤ V3_MAX_PROPS }
    ensures { result ≡ count_by is_filled axioms.now }
{
    let mut count = 0;
    for slot in axioms {
        if !is_free(*slot) {
            count += 1;
        }
    }
    count
}

impl Metadata {
    /// How many axioms there are.
    pub fn axiom_count(&self) -> u32
        ensures { result ≡ count_by is_filled self.now.axioms }
    {
        filled_count(self.axioms.as_slice())
    }

    /// Whether an axiom leads from the word of one number to that of another.
    pub fn has_axiom(&self, left: u32, right: u32) -> bool
        ensures { result ≡ has_pair self.now.axioms left right }
    {
        has_pair(self.axioms.as_slice(), left, right)
    }

    /// Adds the axiom that leads from the word of one number to that of another.
    pub fn link(&mut self, left: u32, right: u32)
        requires { MayLink left right self.old }
        ensures links { Links left right self.old self.new }
        ensures sound { AreSound self.new }
    {
        let Some(slot) = free_slot(self.axioms.as_slice()) else {
            unreachable!()
        };
        self.axioms[slot] = AxiomSlot::Pair(left, right);
        let Ok(()) = self.taxonomy.add(left, right) else {
            unreachable!()
        };
        mark_axiom(&mut self.marks, &self.limits, slot);
    }

    /// Removes the axiom that leads from the word of one number to that of another.
    pub fn unlink(&mut self, left: u32, right: u32)
        requires { MayUnlink left right self.old }
        ensures unlinks { Unlinks left right self.old self.new }
        ensures sound { AreSound self.new }
    {
        let Some(slot) = slot_of_pair(self.axioms.as_slice(), left, right) else {
            unreachable!()
        };
        self.axioms[slot] = AxiomSlot::Free;
        let Ok(()) = self.taxonomy.remove(left, right) else {
            unreachable!()
        };
        mark_axiom(&mut self.marks, &self.limits, slot);
    }
}
