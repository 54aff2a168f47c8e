//! Files that are removed from memory.

ghost use Rattle.std.specs.Prelude.{◌≡◌, Some, IsSome};
ghost use Rattle.std.specs.List.Sorted.{IsStrictlyIncreasing};
ghost use Rattle.lis_catalog.specs.Catalog.{rec_at};
ghost use Rattle.lis_ext.specs.Ext.{set_of};
ghost use Rattle.lis_fields.specs.Records.{FileRecord};
ghost use Rattle.lis_store.specs.ReplacingIn.{AreInForm};
ghost use Rattle.lis_store.specs.Removing.{Vacates, TakesOut};

use arrayvec::ArrayVec;
use lis_kept::Metadata;
use lis_limits::MAX_DESCRIPTION;

// The numbers of the description of the file in a slot, as a separate value.
fn numbers_at(metadata: &Metadata, slot: u32) -> ArrayVec<u32, MAX_DESCRIPTION>
    requires { IsSome (rec_at metadata.now.catalog slot) }
    ensures numbers { result.items ≡ set_of metadata.now.ext slot }
    ensures rising { IsStrictlyIncreasing (set_of metadata.now.ext slot) }
{
    let mut numbers = ArrayVec::new();
    let Ok(()) = numbers.try_extend_from_slice(metadata.numbers(slot)) else {
        unreachable!()
    };
    numbers
}

/// Removes the file from its slot, and the words that nothing else uses. The slot keeps its description, whose numbers are returned.
pub(crate) fn unfile(metadata: &mut Metadata, slot: u32) -> ArrayVec<u32, MAX_DESCRIPTION>
    requires form { AreInForm metadata.old }
    requires there { IsSome (rec_at metadata.old.catalog slot) }
    ensures vacated { (rec : FileRecord) → rec_at metadata.old.catalog slot ≡ Some rec → Vacates slot rec metadata.old metadata.new }
    ensures numbers { result.items ≡ set_of metadata.old.ext slot }
{
    let numbers = numbers_at(metadata, slot);
    metadata.drop_record(slot);
    metadata.forget_without(slot, numbers.as_slice());
    numbers
}

/// Removes the file from its slot, with its description and the words that nothing else uses. Its blocks are freed already.
pub(crate) fn take_out(metadata: &mut Metadata, slot: u32)
    requires form { AreInForm metadata.old }
    requires there { IsSome (rec_at metadata.old.catalog slot) }
    ensures { (rec : FileRecord) → rec_at metadata.old.catalog slot ≡ Some rec → TakesOut slot rec metadata.old metadata.new }
{
    unfile(metadata, slot);
    metadata.describe(slot, &[]);
}
