//! Commits on a disk of zero blocks, with a stop, a failing call or a checkpoint. A mount after any crash reads all of a commit or none.

ghost use Rattle.std.specs.Prelude.{◌≤◌, OnOk, IsTrue};
ghost use Rattle.lis_memdisk.specs.MemStation.{meaning_of};
ghost use Rattle.lis_crashes.specs.Idle.{IsAtRest, IsSameDisk};

use crate::disk::{
    DISK_BLOCKS, DISK_LEN, commit, fills_after, fills_left, keep, mounted, place_nines, zeros,
};
use lis_journal::Journal;
use lis_memdisk::MemStation;
use std::alloc::Global;
use std::test::Fail;

/// The bytes that a crash keeps of what was not synced: those before, the new ones, every second one, or others.
const PICKS: [u8; 4] = [0, 1, 2, 165];

// A mount after a crash just after each of these calls reads one of the two fills, and after the last call the second one.
fn are_read(
    alloc: Global,
    disk: &MemStation,
    calls: [u64; 2],
    fills: [[u8; 2]; 2],
) -> Result<(), Fail>
    requires { IsTrue (meaning_of disk.now).is_recorded }
{
    for call in calls[0]..calls[1] {
        for pick in PICKS {
            let read = fills_after(alloc, disk, call, pick)?;
            if read != fills[0] && read != fills[1] {
                return Err("a stop left other blocks".into());
            }
        }
    }
    if fills_after(alloc, disk, calls[1], 165)? != fills[1] {
        return Err("a stop behind the last call lost a block".into());
    }
    Ok(())
}

#[test]
fn a_stop_in_a_commit_leaves_all_or_none(rt: HostRuntime) -> Result<(), Fail> {
    let alloc = rt.alloc();
    let (mut disk, mut journal) = mounted(alloc, &zeros(alloc)?)?;
    let start = disk.calls();
    keep(alloc, &mut disk, &mut journal, [Some(7), Some(7)])?;
    are_read(alloc, &disk, [start, disk.calls()], [[0, 0], [7, 7]])
}

// Commits the first home block `count` times, filled with 1, 2 and so on. A mount after a crash after each of them reads what it kept.
fn keep_all(
    alloc: Global,
    disk: &mut MemStation,
    journal: &mut Journal,
    count: u8,
) -> Result<(), Fail>
    requires idle { IsAtRest DISK_BLOCKS journal.old }
    requires long { DISK_LEN ≤ (meaning_of disk.old).len }
    requires recorded { IsTrue (meaning_of disk.old).is_recorded }
    ensures idle { OnOk result (IsAtRest DISK_BLOCKS journal.new) }
    ensures same { IsSameDisk (meaning_of disk.old) (meaning_of disk.new) }
{
    for number in 0..count {
        let fill = number.saturating_add(1);
        keep(alloc, disk, journal, [Some(fill), None])?;
        if fills_left(alloc, disk, disk.calls(), 165)? != [fill, 0] {
            return Err("a stop behind a commit lost it".into());
        }
    }
    Ok(())
}

// 64 commits of a block make five calls each: two writes, a sync, a write, and a sync. The next one needs a checkpoint, and the last record
// wins.
#[test]
fn a_stop_in_a_checkpoint_changes_nothing(rt: HostRuntime) -> Result<(), Fail> {
    let alloc = rt.alloc();
    let (mut disk, mut journal) = mounted(alloc, &zeros(alloc)?)?;
    let opened = disk.calls();
    keep_all(alloc, &mut disk, &mut journal, 64)?;
    let start = disk.calls();
    assert!(rt; start.saturating_sub(opened) == 64 * 5);
    keep(alloc, &mut disk, &mut journal, [Some(70), Some(4)])?;
    assert!(rt; disk.calls().saturating_sub(start) > 6);
    are_read(alloc, &disk, [start, disk.calls()], [[64, 0], [70, 4]])
}

// The block that is placed is in open records, so that a checkpoint comes first.
#[test]
fn a_stop_before_a_block_is_placed_changes_nothing(rt: HostRuntime) -> Result<(), Fail> {
    let alloc = rt.alloc();
    let (mut disk, mut journal) = mounted(alloc, &zeros(alloc)?)?;
    keep(alloc, &mut disk, &mut journal, [Some(3), Some(3)])?;
    keep(alloc, &mut disk, &mut journal, [Some(7), None])?;
    let start = disk.calls();
    place_nines(alloc, &mut disk, &mut journal)?;
    let end = disk.calls();
    assert!(rt; end.saturating_sub(start) == 8);
    are_read(
        alloc,
        &disk,
        [start, end.saturating_sub(1)],
        [[7, 3], [7, 3]],
    )
}

// The commit of both home blocks fails, and breaks the journal.
fn break_commit(alloc: Global, disk: &mut MemStation, journal: &mut Journal) -> Result<(), Fail>
    requires idle { IsAtRest DISK_BLOCKS journal.old }
    requires long { DISK_LEN ≤ (meaning_of disk.old).len }
    ensures same { IsSameDisk (meaning_of disk.old) (meaning_of disk.new) }
{
    if !commit(alloc, disk, journal, [Some(7), Some(7)])? {
        return Err("the commit did not fail".into());
    }
    if !journal.is_broken() {
        return Err("the journal is not broken".into());
    }
    Ok(())
}

// A commit with one call that fails.
fn broken(alloc: Global, call: u64, pick: u8) -> Result<[u8; 2], Fail> {
    let (mut disk, mut journal) = mounted(alloc, &zeros(alloc)?)?;
    disk.fails.push(call)?;
    break_commit(alloc, &mut disk, &mut journal)?;
    fills_after(alloc, &disk, disk.calls(), pick)
}

#[test]
fn a_failing_call_breaks_the_journal(rt: HostRuntime) -> Result<(), Fail> {
    for call in 3..9 {
        for pick in PICKS {
            let fills = broken(rt.alloc(), call, pick)?;
            assert!(rt; fills == [0, 0] || fills == [7, 7]);
        }
    }
    Ok(())
}
