//! A disk of 594 zero blocks, whose first and last home block are committed, and what a mount after a crash reads of them.

ghost use Rattle.std.specs.Prelude.{◌≡◌, ◌+◌, ◌<◌, ◌≤◌, length, false, IfOk, OnOk, IsTrue};
ghost use Rattle.lis_memdisk.specs.MemStation.{meaning_of};
ghost use Rattle.lis_crashes.specs.Idle.{IsAtRest, HasStaged, IsSameDisk};

use lis_journal::{Capacity, Journal, Layout};
use lis_limits::{BLOCK_LEN, MAX_PLACED, MAX_STAGED, RECORD_BLOCKS};
use lis_memdisk::MemStation;
use std::alloc::{AllocError, Global};
use std::test::Fail;

pub const LAYOUT: Layout = Layout {
    records: RECORD_BLOCKS,
    blocks: DISK_BLOCKS,
};

pub const CAPACITY: Capacity = Capacity {
    staged: MAX_STAGED,
    placed: MAX_PLACED,
};

/// Blocks of the disk.
pub const DISK_BLOCKS: u32 = 594;

/// Bytes of the disk.
pub const DISK_LEN: usize = 2_433_024;

// The first home block, after block 0, the gates, and the blocks of the records.
const FIRST: u32 = RECORD_BLOCKS + 2;

const LAST: u32 = 593;

const ROOM: u64 = 1 << 20;

pub fn zeros(alloc: Global) -> Result<Vec<u8>, AllocError>
    ensures { IfOk result (λ zeros. length zeros.items ≡ DISK_LEN) }
{
    vec![in alloc; 0; DISK_LEN]
}

fn opened(alloc: Global, disk: &mut MemStation) -> Result<Journal, Fail>
    requires long { DISK_LEN ≤ (meaning_of disk.old).len }
    ensures idle { IfOk result (λ journal. IsAtRest DISK_BLOCKS journal) }
    ensures same { IsSameDisk (meaning_of disk.old) (meaning_of disk.new) }
{
    Ok(Journal::mount(alloc, disk, LAYOUT, CAPACITY)?)
}

/// The journal of a disk of these bytes.
pub fn mounted(alloc: Global, image: &[u8]) -> Result<(MemStation, Journal), Fail>
    requires { length image.now ≡ DISK_LEN }
    ensures idle { IfOk result (λ made. IsAtRest DISK_BLOCKS made.1) }
    ensures long { IfOk result (λ made. (meaning_of made.0).len ≡ DISK_LEN) }
    ensures recorded { IfOk result (λ made. IsTrue (meaning_of made.0).is_recorded) }
{
    let mut disk = MemStation::new(alloc, image, ROOM)?;
    let journal = opened(alloc, &mut disk)?;
    Ok((disk, journal))
}

// Stages a block that is filled with a byte.
fn stage(alloc: Global, journal: &mut Journal, n: u32, fill: Option<u8>) -> Result<(), AllocError>
    requires home { RECORD_BLOCKS + 2 ≤ n }
    requires within { n < DISK_BLOCKS }
    requires ready { HasStaged DISK_BLOCKS 1 journal.old }
    ensures ready { HasStaged DISK_BLOCKS (length journal.old.staged + 1) journal.new }
{
    if let Some(fill) = fill {
        journal.stage(n, &vec![in alloc; fill; BLOCK_LEN]?);
    }
    Ok(())
}

/// Commits the first and the last home block, each filled with a byte, if one is given. Returns whether the disk failed.
pub fn commit(
    alloc: Global,
    disk: &mut MemStation,
    journal: &mut Journal,
    fills: [Option<u8>; 2],
) -> Result<bool, AllocError>
    requires idle { IsAtRest DISK_BLOCKS journal.old }
    requires long { DISK_LEN ≤ (meaning_of disk.old).len }
    ensures idle { IfOk result (λ has_failed. has_failed ≡ false → IsAtRest DISK_BLOCKS journal.new) }
    ensures same { IsSameDisk (meaning_of disk.old) (meaning_of disk.new) }
{
    stage(alloc, journal, FIRST, fills[0])?;
    stage(alloc, journal, LAST, fills[1])?;
    Ok(journal.commit(disk).is_err())
}

/// The same on a disk that does not fail.
pub fn keep(
    alloc: Global,
    disk: &mut MemStation,
    journal: &mut Journal,
    fills: [Option<u8>; 2],
) -> Result<(), Fail>
    requires idle { IsAtRest DISK_BLOCKS journal.old }
    requires long { DISK_LEN ≤ (meaning_of disk.old).len }
    ensures idle { OnOk result (IsAtRest DISK_BLOCKS journal.new) }
    ensures same { IsSameDisk (meaning_of disk.old) (meaning_of disk.new) }
{
    if commit(alloc, disk, journal, fills)? {
        return Err("the commit failed".into());
    }
    Ok(())
}

/// Places a block of nines over the first home block.
pub fn place_nines(alloc: Global, disk: &mut MemStation, journal: &mut Journal) -> Result<(), Fail>
    requires idle { IsAtRest DISK_BLOCKS journal.old }
    requires long { DISK_LEN ≤ (meaning_of disk.old).len }
    ensures same { IsSameDisk (meaning_of disk.old) (meaning_of disk.new) }
{
    journal.place(disk, FIRST, &vec![in alloc; 9; BLOCK_LEN]?)?;
    Ok(())
}

// The byte that fills a block.
fn fill_of(alloc: Global, disk: &mut MemStation, journal: &Journal, n: u32) -> Result<u8, Fail>
    requires home { RECORD_BLOCKS + 2 ≤ n }
    requires within { n < DISK_BLOCKS }
    requires idle { IsAtRest DISK_BLOCKS journal.now }
    requires long { DISK_LEN ≤ (meaning_of disk.old).len }
    ensures same { IsSameDisk (meaning_of disk.old) (meaning_of disk.new) }
{
    let mut block = vec![in alloc; 1; BLOCK_LEN]?;
    journal.read(disk, n, &mut block)?;
    let fill = block[0];
    if block.iter().all(|b| *b == fill) {
        Ok(fill)
    } else {
        Err("the block is not filled with one byte".into())
    }
}

/// The bytes that fill the first and the last home block.
pub fn fills_of(alloc: Global, disk: &mut MemStation, journal: &Journal) -> Result<[u8; 2], Fail>
    requires idle { IsAtRest DISK_BLOCKS journal.now }
    requires long { DISK_LEN ≤ (meaning_of disk.old).len }
    ensures same { IsSameDisk (meaning_of disk.old) (meaning_of disk.new) }
{
    let first = fill_of(alloc, disk, journal, FIRST)?;
    let last = fill_of(alloc, disk, journal, LAST)?;
    Ok([first, last])
}

/// The image that a crash just after a call leaves.
pub fn image_after(alloc: Global, disk: &MemStation, call: u64, pick: u8) -> Result<Vec<u8>, Fail>
    requires { IsTrue (meaning_of disk.now).is_recorded }
    ensures { IfOk result (λ image. length image.items ≡ DISK_LEN) }
{
    if call > disk.calls() {
        return Err("there was no such call".into());
    }
    let image = disk.crash(alloc, call, pick)?;
    if image.len() != DISK_LEN {
        return Err("the image has another length".into());
    }
    Ok(image)
}

/// What a mount reads after a crash just after a call.
pub fn fills_left(alloc: Global, disk: &MemStation, call: u64, pick: u8) -> Result<[u8; 2], Fail>
    requires { IsTrue (meaning_of disk.now).is_recorded }
{
    let image = image_after(alloc, disk, call, pick)?;
    let (mut again, journal) = mounted(alloc, &image)?;
    fills_of(alloc, &mut again, &journal)
}

// A mount after a stop at any of these calls reads these bytes.
fn are_left(alloc: Global, disk: &MemStation, calls: u64, fills: [u8; 2]) -> Result<(), Fail>
    requires { IsTrue (meaning_of disk.now).is_recorded }
{
    for stop in 0..calls {
        if fills_left(alloc, disk, stop, 165)? != fills {
            return Err("a second stop changed what is kept".into());
        }
    }
    Ok(())
}

/// The same. It also checks that a stop at any call of that mount does not change it.
pub fn fills_after(alloc: Global, disk: &MemStation, call: u64, pick: u8) -> Result<[u8; 2], Fail>
    requires { IsTrue (meaning_of disk.now).is_recorded }
{
    let image = image_after(alloc, disk, call, pick)?;
    let (mut again, journal) = mounted(alloc, &image)?;
    let calls = again.calls();
    let fills = fills_of(alloc, &mut again, &journal)?;
    are_left(alloc, &again, calls, fills)?;
    Ok(fills)
}
