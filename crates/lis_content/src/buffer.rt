//! The bytes of a file, in memory that is allocated once.

ghost use Rattle.std.specs.Prelude.{◌≡◌, ◌+◌, ◌-◌, ◌*◌, ◌<◌, ◌≤◌, ℕ, List, [], length, take, IsTrue, IfOk, OnOk, vec_capacity};
ghost use Rattle.lis_ports.specs.Calls.{ReadsDisk};
ghost use Rattle.lis_journal.specs.Images.{Fits, look, JournalIsUsable};
ghost use Rattle.lis_journal.specs.Phases.{looked};
ghost use Rattle.lis_ports.specs.Bytes.{Torn, part};
ghost use Rattle.lis_content.specs.Content.{are_within};
ghost use Rattle.lis_content.specs.Large.{slot_count, content_blocks, file_content};
ghost use Rattle.lis_journal.specs.Record.{homes_start};

use crate::blocks::read_front;
use crate::large::{Laid, read_content};
use lis_journal::Journal;
use lis_limits::{BLOCK_LEN, V3_MAX_FILE};
use lis_ports::{Disk, Failed};
use std::alloc::{AllocError, Global};
use std::marker::Model;

/// The bytes of a file, in memory that is allocated once.
#[derive(Drop)]
pub struct Buffer {
    // The first ones are the bytes of the file, and others may follow that an earlier, longer file left. The room for a file of any size is
    // reserved, and touched only as far as files have reached.
    bytes: Vec<u8>,
    size: u32,
}

impl Model for Buffer {
    ghost use Rattle.std.specs.Prelude.{ℕ, List, take, vec_capacity};
    ghost use Rattle.lis_content.specs.Inside.{IsKept};

    ghost Value = { List ℕ };

    ghost view = { λ b. take b.size b.bytes.items };

    ghost invariant = { λ b. IsKept b.bytes.items (vec_capacity b.bytes) b.size };
}

// Adds zeros up to `len` bytes, if there are fewer.
fn fill_to(bytes: &mut Vec<u8>, len: usize)
    requires { len ≤ vec_capacity bytes.old }
    ensures long { len ≤ length bytes.new.items }
    ensures room { vec_capacity bytes.old ≤ vec_capacity bytes.new }
{
    if bytes.len() < len {
        let Ok(()) = bytes.resize(len, 0) else {
            unreachable!()
        };
    }
}

// Reads the bytes of a file into the first bytes of this memory.
fn read_file<D: Disk>(
    bytes: &mut [u8],
    journal: &Journal,
    disk: &mut D,
    laid: Laid,
) -> Result<(), Failed>
    requires short { laid.size ≤ length bytes.old }
    requires few { laid.size ≤ V3_MAX_FILE }
    requires count { length laid.blocks.now ≡ slot_count laid.size }
    requires home { homes_start journal.now.layout ≤ laid.base }
    requires within { IsTrue (are_within laid.base journal.now.layout.blocks laid.blocks.now) }
    requires usable { JournalIsUsable journal.now (D.meaning disk.old) }
    ensures read { OnOk result ((kept : ℕ → List ℕ) → Fits journal.now (D.meaning disk.old) kept
        → IsTrue (are_within laid.entry.base journal.now.layout.blocks (content_blocks laid.entry.version laid.entry.base laid.entry.blocks.now laid.entry.size (looked journal.now.staged kept)))
        → take laid.entry.size bytes.new ≡ file_content laid.entry.version laid.entry.base laid.entry.blocks.now laid.entry.size (looked journal.now.staged kept)) }
    ensures disk { ReadsDisk (D.meaning disk.old) (D.meaning disk.new) result }
    ensures fits { (kept : ℕ → List ℕ) → Fits journal.now (D.meaning disk.old) kept
        → Fits journal.now (D.meaning disk.new) kept }
{
    read_content(journal, disk, laid, &mut bytes[..laid.size as usize])
}

// Reads a block into the first `size` bytes, from index `at` on and up to their end.
fn read_place<D: Disk>(
    bytes: &mut [u8],
    size: usize,
    journal: &Journal,
    disk: &mut D,
    home: u32,
    at: usize,
) -> Result<(), Failed>
    requires there { size ≤ length bytes.old }
    requires inside { at < size }
    requires home { homes_start journal.now.layout ≤ home }
    requires within { home < journal.now.layout.blocks }
    requires usable { JournalIsUsable journal.now (D.meaning disk.old) }
    ensures place { Torn at BLOCK_LEN (take size bytes.old) (take size bytes.new) }
    ensures read { OnOk result ((kept : ℕ → List ℕ) → Fits journal.now (D.meaning disk.old) kept
        → part at BLOCK_LEN (take size bytes.new) ≡ take (size - at) (look journal.now.staged home (kept home))) }
    ensures disk { ReadsDisk (D.meaning disk.old) (D.meaning disk.new) result }
    ensures fits { (kept : ℕ → List ℕ) → Fits journal.now (D.meaning disk.old) kept
        → Fits journal.now (D.meaning disk.new) kept }
{
    let count = (size - at).min(BLOCK_LEN);
    read_front(journal, disk, home, &mut bytes[at..at + count])
}

impl Buffer {
    /// A buffer with no bytes yet. All memory that it will use is allocated here.
    pub fn new(alloc: Global) -> Result<Buffer, AllocError>
        ensures { IfOk result (λ buffer. buffer ≡ []) }
    {
        Ok(Buffer {
            bytes: Vec::with_capacity(alloc, V3_MAX_FILE as usize)?,
            size: 0,
        })
    }

    /// The bytes that were read last.
    pub fn bytes(&self) -> &[u8]
        ensures bytes { result.now ≡ self.now }
        ensures few { length result.now ≤ V3_MAX_FILE }
    {
        &self.bytes[..self.size as usize]
    }

    /// Reads the bytes of a file instead of those that the buffer has. After a fault it may have any bytes.
    pub fn read<D: Disk>(
        &mut self,
        journal: &Journal,
        disk: &mut D,
        laid: Laid,
    ) -> Result<(), Failed>
        requires short { laid.size ≤ V3_MAX_FILE }
        requires count { length laid.blocks.now ≡ slot_count laid.size }
        requires home { homes_start journal.now.layout ≤ laid.base }
        requires within { IsTrue (are_within laid.base journal.now.layout.blocks laid.blocks.now) }
        requires usable { JournalIsUsable journal.now (D.meaning disk.old) }
        ensures read { OnOk result ((kept : ℕ → List ℕ) → Fits journal.now (D.meaning disk.old) kept
            → IsTrue (are_within laid.entry.base journal.now.layout.blocks (content_blocks laid.entry.version laid.entry.base laid.entry.blocks.now laid.entry.size (looked journal.now.staged kept)))
            → self.new ≡ file_content laid.entry.version laid.entry.base laid.entry.blocks.now laid.entry.size (looked journal.now.staged kept)) }
        ensures size { OnOk result (length self.new ≡ laid.entry.size) }
        ensures disk { ReadsDisk (D.meaning disk.old) (D.meaning disk.new) result }
        ensures fits { (kept : ℕ → List ℕ) → Fits journal.now (D.meaning disk.old) kept
            → Fits journal.now (D.meaning disk.new) kept }
    {
        self.resize(laid.size);
        read_file(&mut self.bytes, journal, disk, laid)
    }

    /// Gives the buffer `size` bytes, whichever they are.
    pub fn resize(&mut self, size: u32)
        requires { size ≤ V3_MAX_FILE }
        ensures { length self.new ≡ size }
    {
        fill_to(&mut self.bytes, size as usize);
        self.size = size;
    }

    /// Reads a block of the journal as the n-th block of the bytes, up to their end. All other bytes stay.
    pub fn read_block<D: Disk>(
        &mut self,
        journal: &Journal,
        disk: &mut D,
        home: u32,
        n: u32,
    ) -> Result<(), Failed>
        requires inside { BLOCK_LEN * n < length self.old }
        requires home { homes_start journal.now.layout ≤ home }
        requires within { home < journal.now.layout.blocks }
        requires usable { JournalIsUsable journal.now (D.meaning disk.old) }
        ensures place { Torn (BLOCK_LEN * n) BLOCK_LEN self.old self.new }
        ensures read { OnOk result ((kept : ℕ → List ℕ) → Fits journal.now (D.meaning disk.old) kept
            → part (BLOCK_LEN * n) BLOCK_LEN self.new ≡ take (length self.old - BLOCK_LEN * n) (look journal.now.staged home (kept home))) }
        ensures disk { ReadsDisk (D.meaning disk.old) (D.meaning disk.new) result }
        ensures fits { (kept : ℕ → List ℕ) → Fits journal.now (D.meaning disk.old) kept
            → Fits journal.now (D.meaning disk.new) kept }
    {
        let size = self.size as usize;
        let at = BLOCK_LEN * n as usize;
        read_place(&mut self.bytes, size, journal, disk, home, at)
    }
}
