//! Numbers that are in use by more than the description in one slot.

ghost use Rattle.std.specs.Prelude.{◌≡◌, ◌<◌, None, [], slice_set, IsSome};
ghost use Rattle.lis_dict.specs.Dict.{word_of};
ghost use Rattle.lis_catalog.specs.Catalog.{rec_at};
ghost use Rattle.lis_ext.specs.Ext.{has};
ghost use Rattle.lis_kept.specs.Forgetting.{emptied, MayForget, ForgetsWithout};
ghost use Rattle.lis_kept.specs.Sound.{AreSound};
ghost use Rattle.lis_kept.specs.Telling.{is_had, is_used};

use crate::metadata::Metadata;
use lis_ext::Ext;

// Whether the description in a slot, if there is such a slot, has a number.
fn has_at(ext: &Ext, slot: u32, number: u32) -> bool
    requires { number < ext.now.props }
    ensures { result ≡ has ext.now number slot }
{
    if slot >= ext.files() {
        return false;
    }
    ext.has(number, slot)
}

// Whether the description of a file in another slot has a number.
pub(crate) fn is_had_without(ext: &Ext, slot: u32, number: u32) -> bool
    requires { number < ext.now.props }
    ensures { result ≡ is_had (record ext.now { sets = slice_set ext.now.sets slot [] }) number }
{
    let count = ext.count(number);
    if has_at(ext, slot, number) {
        return count > 1;
    }
    count > 0
}

impl Metadata {
    /// Whether a number is in use without the description in a slot.
    pub fn is_used_without(&self, slot: u32, number: u32) -> bool
        requires { IsSome (word_of self.now.dict number) }
        ensures { result ≡ is_used (emptied self.now slot) number }
    {
        self.is_used_beside(Some(slot), number)
    }

    /// Forgets the words of those numbers that nothing uses except the description in a slot without a file.
    pub fn forget_without(&mut self, slot: u32, numbers: &[u32])
        requires slot { slot < self.old.limits.files }
        requires empty { rec_at self.old.catalog slot ≡ None }
        requires may { MayForget numbers.now (emptied self.old slot) }
        ensures forgets { ForgetsWithout slot numbers.now self.old self.new }
        ensures sound { AreSound self.new }
    {
        // As in `forget_unused`.
        self.forget_due(numbers, true, Some(slot));
        self.forget_due(numbers, false, Some(slot));
    }
}
