//! The bytes of a file, with index blocks if a slot has too few numbers: read block by block, and whole.

ghost use Rattle.std.specs.Prelude.{◌≡◌, ◌+◌, ◌*◌, ◌<◌, ◌≤◌, ◌++◌, ℕ, List, [], true, false, length, take, slice_index, IsTrue, IfOk, OnOk};
ghost use Rattle.lis_ports.specs.Calls.{ReadsDisk};
ghost use Rattle.lis_model.specs.State.{blocks_needed, blocks_taken};
ghost use Rattle.lis_journal.specs.Images.{Fits, look, held_in, JournalIsUsable};
ghost use Rattle.lis_journal.specs.Phases.{looked};
ghost use Rattle.lis_content.specs.Content.{are_within};
ghost use Rattle.lis_content.specs.Large.{index_bytes, is_large, slot_count, index_count, number_at, numbers_in, numbers_of, content_blocks, file_blocks, file_content, IsIndexed, HasNumber, MayHaveNumber, block_within};
ghost use Rattle.lis_content.specs.Inside.{IsWhole};
ghost use Rattle.lis_journal.specs.Record.{homes_start};

use crate::blocks::{home, read_front};
use arrayvec::ArrayVec;
use byteorder::{ByteOrder, LittleEndian};
use lis_fields::{are_zeros, number_width, read_wide};
use lis_journal::Journal;
use lis_limits::{BLOCK_LEN, NUMBERS_PER_INDEX, SLOT_BLOCKS, V3_MAX_FILE, V3_MAX_PLACED};
use lis_ports::{Disk, Failed};

/// The most blocks of a file, its index blocks among them.
pub const MOST_BLOCKS: usize = V3_MAX_PLACED as usize;

/// Where the content of a file is: the version and the first data block of the image, the numbers in the file's slot, and how many bytes it
/// has.
#[derive(Clone, Copy)]
pub struct Laid<'a> {
    pub version: u32,
    pub base: u32,
    pub blocks: &'a [u32],
    pub size: u32,
}

/// Whether this many bytes take more blocks than a slot numbers.
pub fn is_large(size: u32) -> bool
    requires { size ≤ V3_MAX_FILE }
    ensures { result ≡ is_large size }
{
    size.div_ceil(BLOCK_LEN as u32) > SLOT_BLOCKS
}

// Reads a block.
fn read_home<D: Disk>(journal: &Journal, disk: &mut D, n: u32, buf: &mut [u8]) -> Result<(), Failed>
    requires home { homes_start journal.now.layout ≤ n }
    requires within { n < journal.now.layout.blocks }
    requires whole { length buf.old ≡ BLOCK_LEN }
    requires usable { JournalIsUsable journal.now (D.meaning disk.old) }
    ensures read { OnOk result ((kept : ℕ → List ℕ) → Fits journal.now (D.meaning disk.old) kept
        → buf.new ≡ look journal.now.staged n (kept n)) }
    ensures held { OnOk result (IsTrue (D.meaning disk.old).is_honest
        → buf.new ≡ held_in journal.now (D.meaning disk.old).bytes n) }
    ensures disk { ReadsDisk (D.meaning disk.old) (D.meaning disk.new) result }
    ensures fits { (kept : ℕ → List ℕ) → Fits journal.now (D.meaning disk.old) kept
        → Fits journal.now (D.meaning disk.new) kept }
{
    journal.read(disk, n, buf)
}

// Reads the index block that has the number of the n-th block of a content. If the file has no index block, the buffer stays.
fn read_index<D: Disk>(
    journal: &Journal,
    disk: &mut D,
    laid: Laid,
    n: u32,
    index: &mut [u8],
) -> Result<(), Failed>
    requires few { laid.size ≤ V3_MAX_FILE }
    requires count { length laid.blocks.now ≡ slot_count laid.size }
    requires home { homes_start journal.now.layout ≤ laid.base }
    requires within { IsTrue (are_within laid.base journal.now.layout.blocks laid.blocks.now) }
    requires inside { n < blocks_needed laid.size }
    requires whole { length index.old ≡ BLOCK_LEN }
    requires usable { JournalIsUsable journal.now (D.meaning disk.old) }
    ensures has { OnOk result ((kept : ℕ → List ℕ) → Fits journal.now (D.meaning disk.old) kept
        → HasNumber laid.entry.base laid.entry.blocks.now laid.entry.size n (looked journal.now.staged kept) index.new) }
    ensures held { OnOk result (IsTrue (D.meaning disk.old).is_honest
        → HasNumber laid.entry.base laid.entry.blocks.now laid.entry.size n (held_in journal.now (D.meaning disk.old).bytes) index.new) }
    ensures disk { ReadsDisk (D.meaning disk.old) (D.meaning disk.new) result }
    ensures fits { (kept : ℕ → List ℕ) → Fits journal.now (D.meaning disk.old) kept
        → Fits journal.now (D.meaning disk.new) kept }
{
    if !is_large(laid.size) {
        return Ok(());
    }
    let number = laid.blocks[(n / NUMBERS_PER_INDEX) as usize];
    read_home(
        journal,
        disk,
        home(journal.blocks(), laid.base, number),
        index,
    )
}

// The k-th number of a block, counted from 0.
fn number_at(version: u32, block: &[u8], k: usize) -> u32
    requires whole { length block.now ≡ BLOCK_LEN }
    requires place { k < NUMBERS_PER_INDEX }
    ensures { result ≡ number_at version block.now k }
{
    if version == 3 {
        return LittleEndian::read_u32(&block[4 * k..]);
    }
    u32::from(LittleEndian::read_u16(&block[2 * k..]))
}

// The number of the n-th block of a content, by the index block that has it, if there is one.
fn number_of(laid: Laid, index: &[u8], n: u32) -> u32
    requires few { laid.size ≤ V3_MAX_FILE }
    requires count { length laid.blocks.now ≡ slot_count laid.size }
    requires whole { length index.now ≡ BLOCK_LEN }
    requires inside { n < blocks_needed laid.size }
    ensures number { (at : ℕ → List ℕ) → HasNumber laid.entry.base laid.entry.blocks.now laid.entry.size n at index.now
        → result ≡ slice_index (content_blocks laid.entry.version laid.entry.base laid.entry.blocks.now laid.entry.size at) n }
{
    if is_large(laid.size) {
        return number_at(laid.version, index, (n % NUMBERS_PER_INDEX) as usize);
    }
    laid.blocks[n as usize]
}

// Reads as many bytes as the buffer has of the block with this number, or zeros if the image has no such block.
fn read_within<D: Disk>(
    journal: &Journal,
    disk: &mut D,
    base: u32,
    number: u32,
    buf: &mut [u8],
) -> Result<(), Failed>
    requires few { length buf.old ≤ BLOCK_LEN }
    requires home { homes_start journal.now.layout ≤ base }
    requires within { base ≤ journal.now.layout.blocks }
    requires usable { JournalIsUsable journal.now (D.meaning disk.old) }
    ensures read { OnOk result ((kept : ℕ → List ℕ) → Fits journal.now (D.meaning disk.old) kept
        → buf.new ≡ take (length buf.old) (block_within base journal.now.layout.blocks (looked journal.now.staged kept) number)) }
    ensures whole { OnOk result ((kept : ℕ → List ℕ) → Fits journal.now (D.meaning disk.old) kept
        → IsWhole base journal.now.layout.blocks (looked journal.now.staged kept) number) }
    ensures disk { ReadsDisk (D.meaning disk.old) (D.meaning disk.new) result }
    ensures fits { (kept : ℕ → List ℕ) → Fits journal.now (D.meaning disk.old) kept
        → Fits journal.now (D.meaning disk.new) kept }
{
    if number >= journal.blocks() - base {
        buf.fill(0);
        return Ok(());
    }
    read_front(journal, disk, base + number, buf)
}

// Reads as many bytes as the buffer has of the n-th block of a content, by the index block that has its number, if there is one.
fn read_block_by<D: Disk>(
    journal: &Journal,
    disk: &mut D,
    laid: Laid,
    index: &[u8],
    n: u32,
    buf: &mut [u8],
) -> Result<(), Failed>
    requires few { laid.size ≤ V3_MAX_FILE }
    requires count { length laid.blocks.now ≡ slot_count laid.size }
    requires home { homes_start journal.now.layout ≤ laid.base }
    requires within { IsTrue (are_within laid.base journal.now.layout.blocks laid.blocks.now) }
    requires inside { n < blocks_needed laid.size }
    requires whole { length index.now ≡ BLOCK_LEN }
    requires short { length buf.old ≤ BLOCK_LEN }
    requires usable { JournalIsUsable journal.now (D.meaning disk.old) }
    ensures read { OnOk result ((kept : ℕ → List ℕ) → Fits journal.now (D.meaning disk.old) kept
        → HasNumber laid.entry.base laid.entry.blocks.now laid.entry.size n (looked journal.now.staged kept) index.now
        → buf.new ≡ take (length buf.old) (block_within laid.entry.base journal.now.layout.blocks (looked journal.now.staged kept)
        (slice_index (content_blocks laid.entry.version laid.entry.base laid.entry.blocks.now laid.entry.size (looked journal.now.staged kept)) n))) }
    ensures whole { OnOk result ((kept : ℕ → List ℕ) → Fits journal.now (D.meaning disk.old) kept
        → HasNumber laid.entry.base laid.entry.blocks.now laid.entry.size n (looked journal.now.staged kept) index.now
        → IsWhole laid.entry.base journal.now.layout.blocks (looked journal.now.staged kept)
        (slice_index (content_blocks laid.entry.version laid.entry.base laid.entry.blocks.now laid.entry.size (looked journal.now.staged kept)) n)) }
    ensures disk { ReadsDisk (D.meaning disk.old) (D.meaning disk.new) result }
    ensures fits { (kept : ℕ → List ℕ) → Fits journal.now (D.meaning disk.old) kept
        → Fits journal.now (D.meaning disk.new) kept }
{
    let number = number_of(laid, index, n);
    read_within(journal, disk, laid.base, number, buf)
}

/// Reads as many bytes as the buffer has of the n-th block of a file's content. After the content's end the block has any bytes. If its
/// index block gives a number that is none of the image's, the block reads as zeros; no well-formed image has such a number.
pub fn read_block<D: Disk>(
    journal: &Journal,
    disk: &mut D,
    laid: Laid,
    n: u32,
    buf: &mut [u8],
) -> Result<(), Failed>
    requires few { laid.size ≤ V3_MAX_FILE }
    requires count { length laid.blocks.now ≡ slot_count laid.size }
    requires home { homes_start journal.now.layout ≤ laid.base }
    requires within { IsTrue (are_within laid.base journal.now.layout.blocks laid.blocks.now) }
    requires inside { n < blocks_needed laid.size }
    requires short { length buf.old ≤ BLOCK_LEN }
    requires usable { JournalIsUsable journal.now (D.meaning disk.old) }
    ensures read { OnOk result ((kept : ℕ → List ℕ) → Fits journal.now (D.meaning disk.old) kept
        → buf.new ≡ take (length buf.old) (block_within laid.entry.base journal.now.layout.blocks (looked journal.now.staged kept)
        (slice_index (content_blocks laid.entry.version laid.entry.base laid.entry.blocks.now laid.entry.size (looked journal.now.staged kept)) n))) }
    ensures disk { ReadsDisk (D.meaning disk.old) (D.meaning disk.new) result }
    ensures fits { (kept : ℕ → List ℕ) → Fits journal.now (D.meaning disk.old) kept
        → Fits journal.now (D.meaning disk.new) kept }
{
    let mut index = [0; BLOCK_LEN];
    read_index(journal, disk, laid, n, &mut index)?;
    read_block_by(journal, disk, laid, &index, n, buf)
}

// Reads the n-th block, and before it the index block if that block's number is the first one there.
fn read_next<D: Disk>(
    journal: &Journal,
    disk: &mut D,
    laid: Laid,
    index: &mut [u8],
    n: u32,
    buf: &mut [u8],
) -> Result<(), Failed>
    requires few { laid.size ≤ V3_MAX_FILE }
    requires count { length laid.blocks.now ≡ slot_count laid.size }
    requires home { homes_start journal.now.layout ≤ laid.base }
    requires within { IsTrue (are_within laid.base journal.now.layout.blocks laid.blocks.now) }
    requires inside { n < blocks_needed laid.size }
    requires index { length index.old ≡ BLOCK_LEN }
    requires short { length buf.old ≤ BLOCK_LEN }
    requires usable { JournalIsUsable journal.now (D.meaning disk.old) }
    ensures read { OnOk result ((kept : ℕ → List ℕ) → Fits journal.now (D.meaning disk.old) kept
        → MayHaveNumber laid.entry.base laid.entry.blocks.now laid.entry.size n (looked journal.now.staged kept) index.old
        → buf.new ≡ take (length buf.old) (block_within laid.entry.base journal.now.layout.blocks (looked journal.now.staged kept)
        (slice_index (content_blocks laid.entry.version laid.entry.base laid.entry.blocks.now laid.entry.size (looked journal.now.staged kept)) n))) }
    ensures whole { OnOk result ((kept : ℕ → List ℕ) → Fits journal.now (D.meaning disk.old) kept
        → MayHaveNumber laid.entry.base laid.entry.blocks.now laid.entry.size n (looked journal.now.staged kept) index.old
        → IsWhole laid.entry.base journal.now.layout.blocks (looked journal.now.staged kept)
        (slice_index (content_blocks laid.entry.version laid.entry.base laid.entry.blocks.now laid.entry.size (looked journal.now.staged kept)) n)) }
    ensures has { OnOk result ((kept : ℕ → List ℕ) → Fits journal.now (D.meaning disk.old) kept
        → MayHaveNumber laid.entry.base laid.entry.blocks.now laid.entry.size n (looked journal.now.staged kept) index.old
        → HasNumber laid.entry.base laid.entry.blocks.now laid.entry.size n (looked journal.now.staged kept) index.new) }
    ensures held { OnOk result (IsTrue (D.meaning disk.old).is_honest
        → MayHaveNumber laid.entry.base laid.entry.blocks.now laid.entry.size n (held_in journal.now (D.meaning disk.old).bytes) index.old
        → HasNumber laid.entry.base laid.entry.blocks.now laid.entry.size n (held_in journal.now (D.meaning disk.old).bytes) index.new) }
    ensures index { length index.new ≡ BLOCK_LEN }
    ensures disk { ReadsDisk (D.meaning disk.old) (D.meaning disk.new) result }
    ensures fits { (kept : ℕ → List ℕ) → Fits journal.now (D.meaning disk.old) kept
        → Fits journal.now (D.meaning disk.new) kept }
{
    if n % NUMBERS_PER_INDEX == 0 {
        read_index(journal, disk, laid, n, index)?;
    }
    read_block_by(journal, disk, laid, index, n, buf)
}

/// Reads the n-th block as `read_block` does, for callers that read one block after the other: `index` keeps the index block from call to
/// call, and is read again only with the first block that it numbers.
pub fn read_next_block<D: Disk>(
    journal: &Journal,
    disk: &mut D,
    laid: Laid,
    index: &mut [u8],
    n: u32,
    buf: &mut [u8],
) -> Result<(), Failed>
    requires few { laid.size ≤ V3_MAX_FILE }
    requires count { length laid.blocks.now ≡ slot_count laid.size }
    requires home { homes_start journal.now.layout ≤ laid.base }
    requires within { IsTrue (are_within laid.base journal.now.layout.blocks laid.blocks.now) }
    requires inside { n < blocks_needed laid.size }
    requires index { length index.old ≡ BLOCK_LEN }
    requires short { length buf.old ≤ BLOCK_LEN }
    requires usable { JournalIsUsable journal.now (D.meaning disk.old) }
    ensures read { OnOk result ((kept : ℕ → List ℕ) → Fits journal.now (D.meaning disk.old) kept
        → MayHaveNumber laid.entry.base laid.entry.blocks.now laid.entry.size n (looked journal.now.staged kept) index.old
        → buf.new ≡ take (length buf.old) (block_within laid.entry.base journal.now.layout.blocks (looked journal.now.staged kept)
        (slice_index (content_blocks laid.entry.version laid.entry.base laid.entry.blocks.now laid.entry.size (looked journal.now.staged kept)) n))) }
    ensures has { OnOk result ((kept : ℕ → List ℕ) → Fits journal.now (D.meaning disk.old) kept
        → MayHaveNumber laid.entry.base laid.entry.blocks.now laid.entry.size n (looked journal.now.staged kept) index.old
        → HasNumber laid.entry.base laid.entry.blocks.now laid.entry.size n (looked journal.now.staged kept) index.new) }
    ensures held { OnOk result (IsTrue (D.meaning disk.old).is_honest
        → MayHaveNumber laid.entry.base laid.entry.blocks.now laid.entry.size n (held_in journal.now (D.meaning disk.old).bytes) index.old
        → HasNumber laid.entry.base laid.entry.blocks.now laid.entry.size n (held_in journal.now (D.meaning disk.old).bytes) index.new) }
    ensures index { length index.new ≡ BLOCK_LEN }
    ensures disk { ReadsDisk (D.meaning disk.old) (D.meaning disk.new) result }
    ensures fits { (kept : ℕ → List ℕ) → Fits journal.now (D.meaning disk.old) kept
        → Fits journal.now (D.meaning disk.new) kept }
{
    read_next(journal, disk, laid, index, n, buf)
}

/// Reads the bytes of a file, by the numbers of its slot, whole blocks straight into the buffer.
pub fn read_content<D: Disk>(
    journal: &Journal,
    disk: &mut D,
    laid: Laid,
    buf: &mut [u8],
) -> Result<(), Failed>
    requires few { laid.size ≤ V3_MAX_FILE }
    requires whole { length buf.old ≡ laid.size }
    requires count { length laid.blocks.now ≡ slot_count laid.size }
    requires home { homes_start journal.now.layout ≤ laid.base }
    requires within { IsTrue (are_within laid.base journal.now.layout.blocks laid.blocks.now) }
    requires usable { JournalIsUsable journal.now (D.meaning disk.old) }
    ensures read { OnOk result ((kept : ℕ → List ℕ) → Fits journal.now (D.meaning disk.old) kept
        → IsTrue (are_within laid.entry.base journal.now.layout.blocks (content_blocks laid.entry.version laid.entry.base laid.entry.blocks.now laid.entry.size (looked journal.now.staged kept)))
        → buf.new ≡ file_content laid.entry.version laid.entry.base laid.entry.blocks.now laid.entry.size (looked journal.now.staged kept)) }
    ensures disk { ReadsDisk (D.meaning disk.old) (D.meaning disk.new) result }
    ensures fits { (kept : ℕ → List ℕ) → Fits journal.now (D.meaning disk.old) kept
        → Fits journal.now (D.meaning disk.new) kept }
{
    let mut index = [0; BLOCK_LEN];
    for n in 0..laid.size.div_ceil(BLOCK_LEN as u32) {
        let at = n as usize * BLOCK_LEN;
        let end = buf.len().min(at + BLOCK_LEN);
        read_next(journal, disk, laid, &mut index, n, &mut buf[at..end])?;
    }
    Ok(())
}

// How many numbers the j-th index block has, for a content of `size` bytes.
fn index_count(size: u32, j: u32) -> u32
    requires few { size ≤ V3_MAX_FILE }
    requires there { NUMBERS_PER_INDEX * j < blocks_needed size }
    ensures { result ≡ index_count size j }
{
    let rest = size.div_ceil(BLOCK_LEN as u32) - NUMBERS_PER_INDEX * j;
    rest.min(NUMBERS_PER_INDEX)
}

// Whether an index block with this many numbers is well formed: whether zeros follow them.
fn is_formed(version: u32, block: &[u8], count: usize) -> bool
    requires whole { length block.now ≡ BLOCK_LEN }
    requires few { count ≤ NUMBERS_PER_INDEX }
    ensures form { IsTrue result → block.now ≡ index_bytes version (numbers_in version count block.now) }
    ensures none { result ≡ false → block.now ≡ index_bytes version (numbers_in version count block.now) → ⊥ }
{
    let (_, rest) = block.split_at(number_width(version) * count);
    are_zeros(rest)
}

// Appends the first `count` numbers of an index block to those that are there.
fn push_numbers(numbers: &mut ArrayVec<u32, MOST_BLOCKS>, version: u32, block: &[u8], count: usize)
    requires whole { length block.now ≡ BLOCK_LEN }
    requires few { count ≤ NUMBERS_PER_INDEX }
    requires room { length numbers.old.items + count ≤ MOST_BLOCKS }
    ensures { numbers.new.items ≡ numbers.old.items ++ numbers_in version count block.now }
{
    let mut held = [0; NUMBERS_PER_INDEX as usize];
    let (used, _) = held.split_at_mut(count);
    read_wide(&block[..number_width(version) * count], used, version);
    numbers.try_extend_from_slice(used).unwrap();
}

// Reads the numbers in the index blocks. The result says whether each of the blocks is well formed.
fn read_indexes<D: Disk>(
    journal: &Journal,
    disk: &mut D,
    laid: Laid,
    numbers: &mut ArrayVec<u32, MOST_BLOCKS>,
) -> Result<bool, Failed>
    requires few { laid.size ≤ V3_MAX_FILE }
    requires large { is_large laid.size ≡ true }
    requires count { length laid.blocks.now ≡ slot_count laid.size }
    requires home { homes_start journal.now.layout ≤ laid.base }
    requires within { IsTrue (are_within laid.base journal.now.layout.blocks laid.blocks.now) }
    requires none { numbers.old.items ≡ [] }
    requires usable { JournalIsUsable journal.now (D.meaning disk.old) }
    ensures numbers { OnOk result ((kept : ℕ → List ℕ) → Fits journal.now (D.meaning disk.old) kept
        → numbers.new.items ≡ numbers_of laid.entry.version laid.entry.base laid.entry.blocks.now (blocks_needed laid.entry.size) (looked journal.now.staged kept)) }
    ensures count { OnOk result (length numbers.new.items ≡ blocks_needed laid.entry.size) }
    ensures formed { IfOk result (λ formed. IsTrue formed → (kept : ℕ → List ℕ) → Fits journal.now (D.meaning disk.old) kept
        → IsIndexed laid.entry.version laid.entry.base laid.entry.blocks.now laid.entry.size (looked journal.now.staged kept)) }
    ensures malformed { IfOk result (λ formed. formed ≡ false → (kept : ℕ → List ℕ) → Fits journal.now (D.meaning disk.old) kept
        → IsIndexed laid.entry.version laid.entry.base laid.entry.blocks.now laid.entry.size (looked journal.now.staged kept) → ⊥) }
    ensures disk { ReadsDisk (D.meaning disk.old) (D.meaning disk.new) result }
    ensures fits { (kept : ℕ → List ℕ) → Fits journal.now (D.meaning disk.old) kept
        → Fits journal.now (D.meaning disk.new) kept }
{
    let mut formed = true;
    let mut block = [0; BLOCK_LEN];
    for (j, n) in laid.blocks.iter().enumerate() {
        read_home(
            journal,
            disk,
            home(journal.blocks(), laid.base, *n),
            &mut block,
        )?;
        let count = index_count(laid.size, j as u32) as usize;
        push_numbers(numbers, laid.version, &block, count);
        formed &= is_formed(laid.version, &block, count);
    }
    Ok(formed)
}

/// Reads the numbers of all blocks of a file into a list that is empty: those of its content in order, and then those of its index blocks.
/// The result says whether each index block is well formed: whether zeros follow its numbers.
pub fn read_blocks<D: Disk>(
    journal: &Journal,
    disk: &mut D,
    laid: Laid,
    blocks: &mut ArrayVec<u32, MOST_BLOCKS>,
) -> Result<bool, Failed>
    requires few { laid.size ≤ V3_MAX_FILE }
    requires count { length laid.blocks.now ≡ slot_count laid.size }
    requires home { homes_start journal.now.layout ≤ laid.base }
    requires within { IsTrue (are_within laid.base journal.now.layout.blocks laid.blocks.now) }
    requires none { blocks.old.items ≡ [] }
    requires usable { JournalIsUsable journal.now (D.meaning disk.old) }
    ensures blocks { OnOk result ((kept : ℕ → List ℕ) → Fits journal.now (D.meaning disk.old) kept
        → blocks.new.items ≡ file_blocks laid.entry.version laid.entry.base laid.entry.blocks.now laid.entry.size (looked journal.now.staged kept)) }
    ensures count { OnOk result (length blocks.new.items ≡ blocks_taken 2 laid.entry.size) }
    ensures small { OnOk result (is_large laid.entry.size ≡ false → blocks.new.items ≡ laid.entry.blocks.now) }
    ensures formed { IfOk result (λ formed. IsTrue formed → (kept : ℕ → List ℕ) → Fits journal.now (D.meaning disk.old) kept
        → IsIndexed laid.entry.version laid.entry.base laid.entry.blocks.now laid.entry.size (looked journal.now.staged kept)) }
    ensures malformed { IfOk result (λ formed. formed ≡ false → (kept : ℕ → List ℕ) → Fits journal.now (D.meaning disk.old) kept
        → IsIndexed laid.entry.version laid.entry.base laid.entry.blocks.now laid.entry.size (looked journal.now.staged kept) → ⊥) }
    ensures disk { ReadsDisk (D.meaning disk.old) (D.meaning disk.new) result }
    ensures fits { (kept : ℕ → List ℕ) → Fits journal.now (D.meaning disk.old) kept
        → Fits journal.now (D.meaning disk.new) kept }
{
    let mut are_formed = true;
    if is_large(laid.size) {
        are_formed = read_indexes(journal, disk, laid, blocks)?;
    }
    blocks.try_extend_from_slice(laid.blocks).unwrap();
    Ok(are_formed)
}
