//! The limits of a state.

ghost use Rattle.std.specs.Prelude.{◌≡◌, ◌≢◌, ◌<◌, ◌≤◌, IsTrue};
ghost use Rattle.lis_model.specs.Ranges.{most_files, most_props, most_blocks, is_files_limit, is_props_limit, is_blocks_limit, is_version, are_in_range};
ghost use Rattle.lis_model.specs.State.{file_limit, blocks_taken};
ghost use Rattle.lis_model.specs.Image.{record_blocks, description_blocks, bitmap_blocks, image_blocks};

use lis_limits::{
    AXIOMS_PER_BLOCK, BLOCK_BITS, BLOCK_LEN, FILES_PER_BLOCK, MAX_BLOCKS, MAX_FILE, MAX_FILES,
    MAX_IMAGE_BLOCKS, MAX_LARGE_FILE, MAX_PROPS, NUMBERS_PER_INDEX, PROPERTIES_PER_BLOCK,
    RECORD_BLOCKS, SETS_PER_BLOCK, SLOT_BLOCKS, V3_MAX_BLOCKS, V3_MAX_FILE, V3_MAX_FILES,
    V3_MAX_IMAGE_BLOCKS, V3_MAX_PROPS, V3_RECORD_BLOCKS,
};

/// How much a state may hold. Files are a power of two from 64 on, and properties a multiple of 64. In versions 1 and 2 they are at most
/// 4,096 files, 8,192 properties and 32,768 data blocks of 4,096 bytes; in version 3 at most 262,144, 1,048,576 and 16,777,216.
#[derive(Clone, Copy, Debug, PartialEq, Eq)]
pub struct Limits {
    /// The most files.
    pub files: u32,
    /// The most known words.
    pub props: u32,
    /// The data blocks.
    pub blocks: u32,
    /// 1, 2 or 3. A file may have 65,536 bytes in version 1, 1,048,576 in version 2, and in version 3 as many as the data blocks have, up
    /// to 67,108,864.
    pub version: u32,
}

fn most_files(version: u32) -> u64
    ensures { result ≡ most_files version }
{
    if version == 3 {
        u64::from(V3_MAX_FILES)
    } else {
        u64::from(MAX_FILES)
    }
}

fn most_props(version: u32) -> u64
    ensures { result ≡ most_props version }
{
    if version == 3 {
        u64::from(V3_MAX_PROPS)
    } else {
        u64::from(MAX_PROPS)
    }
}

fn most_blocks(version: u32) -> u64
    ensures { result ≡ most_blocks version }
{
    if version == 3 {
        u64::from(V3_MAX_BLOCKS)
    } else {
        u64::from(MAX_BLOCKS)
    }
}

/// Whether this number of files is in range.
pub fn is_files_limit(version: u32, files: u64) -> bool
    ensures { result ≡ is_files_limit version files }
{
    let is_power = files == 64
        || files == 128
        || files == 256
        || files == 512
        || files == 1_024
        || files == 2_048
        || files == 4_096
        || files == 8_192
        || files == 16_384
        || files == 32_768
        || files == 65_536
        || files == 131_072
        || files == 262_144;
    is_power && files <= most_files(version)
}

/// Whether this number of properties is in range.
pub fn is_props_limit(version: u32, props: u64) -> bool
    ensures { result ≡ is_props_limit version props }
{
    64 <= props && props <= most_props(version) && props % 64 == 0
}

/// Whether this number of data blocks is in range.
pub fn is_blocks_limit(version: u32, blocks: u64) -> bool
    ensures { result ≡ is_blocks_limit version blocks }
{
    1 <= blocks && blocks <= most_blocks(version)
}

/// Whether there is such a version.
pub fn is_version(version: u32) -> bool
    ensures { result ≡ is_version version }
{
    1 <= version && version <= 3
}

/// How many bytes a file may have.
pub fn file_limit(limits: &Limits) -> u64
    ensures { result ≡ file_limit limits.now }
{
    match limits.version {
        1 => u64::from(MAX_FILE),
        2 => u64::from(MAX_LARGE_FILE),
        _ => u64::from(V3_MAX_FILE).min(u64::from(limits.blocks) * BLOCK_LEN as u64),
    }
}

/// How many data blocks this many bytes take, those with the numbers of the others included.
pub fn blocks_taken(version: u32, bytes: u64) -> u64
    ensures { result ≡ blocks_taken version bytes }
{
    let needed = bytes.div_ceil(BLOCK_LEN as u64);
    if version == 1 || needed <= u64::from(SLOT_BLOCKS) {
        return needed;
    }
    needed + needed.div_ceil(u64::from(NUMBERS_PER_INDEX))
}

/// How many blocks of an image hold the records of the journal, from block 2 on.
#[tactic(auto, unfolding(crate::specs::Image::record_blocks))]
pub fn record_blocks(limits: &Limits) -> u32
    ensures { result ≡ record_blocks limits.now }
{
    if limits.version == 3 {
        limits.files / SETS_PER_BLOCK + V3_RECORD_BLOCKS
    } else {
        RECORD_BLOCKS
    }
}

/// How many blocks of an image say which words each file has.
#[tactic(auto, using(crate::proofs::Ranges::described_few), unfolding(crate::specs::Image::description_blocks))]
pub fn description_blocks(limits: &Limits) -> u32
    requires { IsTrue (are_in_range limits.now) }
    ensures { result ≡ description_blocks limits.now }
{
    if limits.version == 3 {
        limits.files / SETS_PER_BLOCK
    } else {
        (limits.props * limits.files).div_ceil(BLOCK_BITS)
    }
}

/// How many blocks the bitmap of an image has.
pub fn bitmap_blocks(limits: &Limits) -> u32
    ensures { result ≡ bitmap_blocks limits.now }
{
    limits.blocks.div_ceil(BLOCK_BITS)
}

/// How many blocks of 4,096 bytes an image with these limits has: at most 34,771 in versions 1 and 2, and 16,879,170 in version 3.
pub fn image_blocks(limits: &Limits) -> u32
    requires { IsTrue (are_in_range limits.now) }
    ensures blocks { result ≡ image_blocks limits.now }
    ensures few { result ≤ V3_MAX_IMAGE_BLOCKS }
    ensures fewer { limits.now.version ≢ 3 → result ≤ MAX_IMAGE_BLOCKS }
{
    let properties = limits.props / PROPERTIES_PER_BLOCK;
    let axioms = limits.props.div_ceil(AXIOMS_PER_BLOCK as u32);
    let files = limits.files / FILES_PER_BLOCK;
    let slots = properties + axioms + files;
    record_blocks(limits)
        + 2
        + slots
        + description_blocks(limits)
        + bitmap_blocks(limits)
        + limits.blocks
}
