ghost use Rattle.std.specs.Prelude.{◌≡◌, ◌≢◌, ◌⊎◌, ◌↔◌, ℕ, ◌+◌, ◌*◌, ◌/◌, ◌<◌, ◌≤◌, ◌==◌, if◌then◌else◌, false, true, List, length, replicate, slice_set, IsTrue, IfOk, IsNone, IfNone, IfSome, OnSome};
ghost use Rattle.lis_bits.specs.Bytes.{bits_number};
ghost use Rattle.lis_journal.specs.Images.{look, is_among};
ghost use Rattle.lis_journal.specs.Staging.{with_entry, has_entry};
ghost use Rattle.lis_blockmap.specs.Bitmap.{free_count, is_taken, bitmap_bytes, has_bit, IsFirstDifference, NoneFree};
ghost use Rattle.lis_blockmap.specs.Inside.{HasFree};
ghost use Rattle.lis_journal.specs.Record.{homes_start};

use lis_bits::Rows;
use lis_journal::Journal;
use lis_limits::{BLOCK_BITS, BLOCK_LEN, V3_MAX_BLOCKS};
use std::alloc::{AllocError, Global};
use std::marker::Model;

/// Which blocks are taken, by their numbers. All memory is allocated by `new`.
#[derive(Drop)]
pub struct BlockMap {
    blocks: u32,
    free: u32,
    // One row, of the free blocks. A bit that is past the last block is false, so that none is found there.
    rows: Rows,
}

impl Model for BlockMap {
    ghost use Rattle.std.specs.Prelude.{Bool, List};

    ghost Value = { List Bool };

    ghost use Rattle.lis_blockmap.specs.Inside.{taken_of, IsSoundMap};

    ghost view = { λ m. taken_of m.rows m.blocks };

    ghost invariant = { λ m. IsSoundMap m.rows m.blocks m.free };
}

// A bit of a block. The first is the lowest of the first byte.
fn has_bit(bytes: &[u8], n: u32) -> bool
    requires { n / 8 < length bytes.now }
    ensures { result ≡ has_bit bytes.now n }
{
    bytes[n as usize / 8] >> (n % 8) & 1 == 1
}

// The first bit in which two blocks differ.
fn first_unlike(a: &[u8], b: &[u8]) -> Option<u32>
    requires first { length a.now ≡ BLOCK_LEN }
    requires second { length b.now ≡ BLOCK_LEN }
    ensures same { IfNone result (a.now ≡ b.now) }
    ensures within { IfSome result (λ bit. bit < BLOCK_BITS) }
    ensures here { IfSome result (λ bit. has_bit a.now bit ≢ has_bit b.now bit) }
    ensures none_before { IfSome result (λ bit. (m : ℕ) → m < bit → has_bit a.now m ≡ has_bit b.now m) }
{
    for bit in 0..BLOCK_BITS {
        if has_bit(a, bit) != has_bit(b, bit) {
            return Some(bit);
        }
    }
    None
}

// A row with the bits of `blocks` blocks, all of them free.
fn free_row(alloc: Global, blocks: u32) -> Result<Rows, AllocError>
    requires { blocks ≤ V3_MAX_BLOCKS }
    ensures { IfOk result (λ rows. HasFree rows blocks blocks) }
{
    let mut rows = Rows::new(alloc, 1, (blocks + 63) / 64 * 64)?;
    for n in 0..blocks {
        rows.put(0, n, true);
    }
    Ok(rows)
}

impl BlockMap {
    /// The bitmap of `blocks` blocks, all of them free.
    pub fn new(alloc: Global, blocks: u32) -> Result<BlockMap, AllocError>
        requires some { 1 ≤ blocks }
        requires few { blocks ≤ V3_MAX_BLOCKS }
        ensures { IfOk result (λ map. map ≡ replicate blocks false) }
    {
        Ok(BlockMap {
            blocks,
            free: blocks,
            rows: free_row(alloc, blocks)?,
        })
    }

    /// How many blocks there are.
    pub fn len(&self) -> usize
        ensures value { result ≡ length self.now }
        ensures few { result ≤ V3_MAX_BLOCKS }
    {
        self.blocks as usize
    }

    /// How many blocks are free.
    pub fn free(&self) -> u32
        ensures { result ≡ free_count self.now }
    {
        self.free
    }

    /// Whether a block is taken: false past the last block.
    pub fn is_taken(&self, n: u32) -> bool
        ensures { result ≡ is_taken self.now n }
    {
        if n >= self.blocks {
            return false;
        }
        !self.rows.get(0, n)
    }

    /// Takes a free block, if there is one. The search begins at block `from`, and continues from block 0 if no later one is free.
    pub fn take(&mut self, from: u32) -> Option<u32>
        ensures none { IsNone result ↔ (free_count self.old ≡ 0) }
        ensures stays { IfNone result (self.new ≡ self.old) }
        ensures within { IfSome result (λ n. n < length self.old) }
        ensures was_free { IfSome result (λ n. is_taken self.old n ≡ false) }
        ensures next { IfSome result (λ n. from ≤ n → NoneFree self.old from n) }
        ensures wraps { IfSome result (λ n. n < from → NoneFree self.old from (length self.old) × NoneFree self.old 0 n) }
        ensures taken { IfSome result (λ n. self.new ≡ slice_set self.old n true) }
        ensures fewer { OnSome result (free_count self.new + 1 ≡ free_count self.old) }
    {
        let n = self.next_free(from)?;
        self.rows.put(0, n, false);
        self.free -= 1;
        Some(n)
    }

    /// Makes a taken block free.
    pub fn give(&mut self, n: u32)
        requires { IsTrue (is_taken self.old n) }
        ensures given { self.new ≡ slice_set self.old n false }
        ensures more { free_count self.new ≡ free_count self.old + 1 }
    {
        self.rows.put(0, n, true);
        self.free += 1;
    }

    /// Takes this free block.
    pub fn mark(&mut self, n: u32)
        requires within { n < length self.old }
        requires free { is_taken self.old n ≡ false }
        ensures marked { self.new ≡ slice_set self.old n true }
        ensures fewer { free_count self.new + 1 ≡ free_count self.old }
    {
        self.rows.put(0, n, false);
        self.free -= 1;
    }

    /// Stages block `n` of the bitmap at its home.
    pub fn stage_to(&self, journal: &mut Journal, home: u32, n: u32)
        requires some { BLOCK_BITS * n < length self.now }
        requires home { homes_start journal.old.layout ≤ home }
        requires within { home < journal.old.layout.blocks }
        requires unbroken { journal.old.is_broken ≡ false }
        requires unplaced { is_among journal.old.placed home ≡ false }
        requires room { IsTrue (has_entry journal.old.staged home) ⊎ (length journal.old.staged < journal.old.capacity.staged) }
        ensures staged { journal.new
            ≡ record journal.old { staged = with_entry journal.old.staged home (bitmap_bytes n self.now) } }
        ensures looks { (m : ℕ) (old : List ℕ) → look journal.new.staged m old
            ≡ (if m == home then bitmap_bytes n self.now else look journal.old.staged m old) }
    {
        let mut bytes = [0; BLOCK_LEN];
        self.write_to(n, &mut bytes);
        journal.stage(home, &bytes);
    }

    /// The first bit in which a block differs from block `n` of the bitmap.
    pub fn first_difference(&self, n: u32, bytes: &[u8]) -> Option<u32>
        requires some { BLOCK_BITS * n < length self.now }
        requires whole { length bytes.now ≡ BLOCK_LEN }
        ensures same { IfNone result (bytes.now ≡ bitmap_bytes n self.now) }
        ensures differs { IfSome result (λ bit. IsFirstDifference n bytes.now self.now bit) }
    {
        let mut block = [0; BLOCK_LEN];
        self.write_to(n, &mut block);
        if block.as_slice() == bytes {
            return None;
        }
        first_unlike(bytes, &block)
    }

    // The number of a free block, if there is one: the least from block `from` on, or else the least of all.
    fn next_free(&self, from: u32) -> Option<u32>
        ensures none { IsNone result ↔ (free_count self.now ≡ 0) }
        ensures within { IfSome result (λ n. n < length self.now) }
        ensures free { IfSome result (λ n. is_taken self.now n ≡ false) }
        ensures next { IfSome result (λ n. from ≤ n → NoneFree self.now from n) }
        ensures wraps { IfSome result (λ n. n < from → NoneFree self.now from (length self.now) × NoneFree self.now 0 n) }
    {
        match self.rows.next(0, from) {
            Some(n) => Some(n),
            None => self.rows.next(0, 0),
        }
    }

    // Writes block `n` of the bitmap.
    fn write_to(&self, n: u32, bytes: &mut [u8])
        requires some { BLOCK_BITS * n < length self.now }
        requires whole { length bytes.old ≡ BLOCK_LEN }
        ensures { bytes.new ≡ bitmap_bytes n self.now }
    {
        // The bits past the last block are 0.
        bytes.fill(0);
        let end = self.blocks.div_ceil(8);
        let first = BLOCK_LEN as u32 * n;
        let count = (end - first).min(BLOCK_LEN as u32);
        for k in 0..count {
            bytes[k as usize] = self.byte(first + k);
        }
    }

    // The byte for eight blocks, the first of them in its lowest bit.
    fn byte(&self, k: u32) -> u8
        requires { 8 * k < length self.now }
        ensures { result ≡ bits_number 8 (λ i. is_taken self.now (8 * k + i)) }
    {
        // The row has the free ones of eight blocks at once; the last byte may have fewer blocks.
        if self.blocks >= 8 * k + 8 {
            return !self.rows.byte(0, k);
        }
        let mut byte = 0;
        for i in 0..8 {
            byte = 2 * byte + u8::from(self.is_taken(8 * k + 7 - i));
        }
        byte
    }
}
