//! Mounts on images that no journal left: gates and records of any bytes.

ghost use Rattle.std.specs.Prelude.{◌-◌, ◌≡◌, ◌<◌, length, IfOk};

use crate::disk::{CAPACITY, DISK_LEN, LAYOUT, zeros};
use lis_journal::{Journal, JournalFault};
use lis_limits::BLOCK_LEN;
use lis_memdisk::MemStation;
use std::alloc::{AllocError, Global};
use std::test::Fail;

// The block of the first malformed record, or 0 if there is none.
fn bad_record(alloc: Global, image: &[u8]) -> Result<u32, Fail>
    requires { length image.now ≡ DISK_LEN }
{
    let mut disk = MemStation::new(alloc, image, 0)?;
    match Journal::mount(alloc, &mut disk, LAYOUT, CAPACITY) {
        Ok(_) => Ok(0),
        Err(JournalFault::BadRecord(block)) => Ok(block),
        Err(fault) => Err(fault.into()),
    }
}

// Open gates, and a record of two blocks with two bytes of its header changed.
fn open_record(
    alloc: Global,
    second_gate: u8,
    at: usize,
    with: [u8; 2],
) -> Result<Vec<u8>, AllocError>
    requires { at < BLOCK_LEN - 96 }
    ensures { IfOk result (λ image. length image.items ≡ DISK_LEN) }
{
    let mut image = zeros(alloc)?;
    image[4_096] = 1;
    image[4_097] = second_gate;
    let header = &mut image[8_192..12_288];
    header[0] = 2;
    header[4..6].copy_from_slice(&[66, 2]);
    header[8..10].copy_from_slice(&[81, 2]);
    header[at..at + 2].copy_from_slice(&with);
    Ok(image)
}

/// Whether the second gate is open, the index of two bytes, the bytes, and the block that is reported.
const HEADERS: [(u8, usize, [u8; 2], u32); 8] = [
    (0, 8, [81, 2], 0),
    (0, 0, [0, 0], 2),
    (0, 0, [64, 2], 2),
    (0, 4, [65, 2], 2),
    (0, 8, [66, 2], 2),
    (0, 8, [82, 2], 2),
    (0, 12, [1, 0], 2),
    // The first bad record of many.
    (1, 8, [81, 2], 5),
];

#[test]
fn a_record_that_is_not_in_form_is_told(rt: HostRuntime) -> Result<(), Fail> {
    let alloc = rt.alloc();
    for (second_gate, at, with, block) in HEADERS {
        let image = open_record(alloc, second_gate, at.min(3_999), with)?;
        assert!(rt; bad_record(alloc, &image)? == block, "at {at}");
    }
    Ok(())
}
