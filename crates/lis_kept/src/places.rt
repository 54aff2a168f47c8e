//! How an image is divided, and where its parts begin, in blocks.

ghost use Rattle.std.specs.Prelude.{◌≡◌, ◌≤◌, IsTrue};
ghost use Rattle.lis_kept.specs.Image.{most_staged, most_placed, image_layout, image_capacity};
ghost use Rattle.lis_model.specs.Ranges.{are_in_range};
ghost use Rattle.lis_model.specs.Image.{properties_start, axioms_start, files_start, descriptions_start, bitmap_start, data_start};

use lis_content::Laid;
use lis_fields::FileRec;
use lis_journal::{Capacity, Layout};
use lis_limits::{
    AXIOMS_PER_BLOCK, FILES_PER_BLOCK, MAX_PLACED, MAX_STAGED, PROPERTIES_PER_BLOCK,
    SETS_PER_BLOCK, V3_MAX_IMAGE_BLOCKS, V3_MAX_PLACED, V3_MAX_STAGED,
};
use lis_model::limits::{Limits, bitmap_blocks, image_blocks, record_blocks};

/// How an image of these limits is divided.
pub fn image_layout(limits: &Limits) -> Layout
    requires { IsTrue (are_in_range limits.now) }
    ensures { result ≡ image_layout limits.now }
{
    Layout {
        records: record_blocks(limits),
        blocks: image_blocks(limits),
    }
}

// The most blocks of one record.
#[tactic(auto, unfolding(crate::specs::Image::most_staged))]
fn most_staged(limits: &Limits) -> u32
    ensures { result ≡ most_staged limits.now }
{
    if limits.version == 3 {
        limits.files / SETS_PER_BLOCK + V3_MAX_STAGED
    } else {
        MAX_STAGED
    }
}

// The most blocks of a content, with its index blocks.
#[tactic(auto, unfolding(crate::specs::Image::most_placed))]
fn most_placed(limits: &Limits) -> u32
    ensures { result ≡ most_placed limits.now }
{
    if limits.version == 3 {
        V3_MAX_PLACED
    } else {
        MAX_PLACED
    }
}

/// How many of its blocks can be staged, and how many placed, before a commit.
pub fn image_capacity(limits: &Limits) -> Capacity
    ensures { result ≡ image_capacity limits.now }
{
    Capacity {
        staged: most_staged(limits),
        placed: most_placed(limits),
    }
}

/// The first block of property slots.
#[tactic(auto, using(lis_model::proofs::Ranges::few_records))]
pub fn properties_start(limits: &Limits) -> u32
    requires { IsTrue (are_in_range limits.now) }
    ensures { result ≡ properties_start limits.now }
{
    record_blocks(limits) + 2
}

/// The first block of axiom slots.
#[tactic(auto, using(lis_model::proofs::Ranges::few_records, lis_model::proofs::Ranges::few_limits))]
pub fn axioms_start(limits: &Limits) -> u32
    requires { IsTrue (are_in_range limits.now) }
    ensures { result ≡ axioms_start limits.now }
{
    properties_start(limits) + limits.props / PROPERTIES_PER_BLOCK
}

/// The first block of file slots.
#[tactic(auto, using(lis_model::proofs::Ranges::few_records, lis_model::proofs::Ranges::few_limits))]
pub fn files_start(limits: &Limits) -> u32
    requires { IsTrue (are_in_range limits.now) }
    ensures { result ≡ files_start limits.now }
{
    axioms_start(limits) + limits.props.div_ceil(AXIOMS_PER_BLOCK as u32)
}

/// The first block that says which words each file has.
#[tactic(auto, using(lis_model::proofs::Ranges::few_records, lis_model::proofs::Ranges::few_limits))]
pub fn descriptions_start(limits: &Limits) -> u32
    requires { IsTrue (are_in_range limits.now) }
    ensures { result ≡ descriptions_start limits.now }
{
    files_start(limits) + limits.files / FILES_PER_BLOCK
}

/// The first data block.
pub fn data_start(limits: &Limits) -> u32
    requires { IsTrue (are_in_range limits.now) }
    ensures start { result ≡ data_start limits.now }
    ensures few { result ≤ V3_MAX_IMAGE_BLOCKS }
{
    image_blocks(limits) - limits.blocks
}

/// The first block of the bitmap.
pub fn bitmap_start(limits: &Limits) -> u32
    requires { IsTrue (are_in_range limits.now) }
    ensures { result ≡ bitmap_start limits.now }
{
    data_start(limits) - bitmap_blocks(limits)
}

/// Where the content of a file is, by its record.
pub fn laid_by<'a>(limits: &Limits, rec: &'a FileRec) -> Laid<'a>
    requires { IsTrue (are_in_range limits.now) }
    ensures version { result.version ≡ limits.now.version }
    ensures base { result.base ≡ data_start limits.now }
    ensures blocks { result.blocks.now ≡ rec.now.blocks }
    ensures size { result.size ≡ rec.now.size }
{
    Laid {
        version: limits.version,
        base: data_start(limits),
        blocks: rec.blocks.as_slice(),
        size: rec.size,
    }
}
