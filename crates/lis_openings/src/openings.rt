//! What making an image leaves, and what opening returns for each kind of damage.

use lis_memdisk::MemStation;
use lis_model::limits::Limits;
use lis_model::spot::Spot;
use lis_open::{MakeFault, OpenFault, make, mount};
use lis_ports::Disk;
use std::alloc::{AllocError, Global};
use std::process::Abort;
use std::test::Fail;

const LIMITS: Limits = Limits {
    files: 64,
    props: 64,
    blocks: 8,
    version: 1,
};

// How long the image of these limits is, and where its parts begin.
const IMAGE_LEN: usize = 2_433_024;

const GATES: u64 = 4_096;

const RECORDS: u64 = 2 * 4_096;

const WORDS: u64 = 578 * 4_096;

const AXIOMS: u64 = 579 * 4_096;

const FILES: u64 = 580 * 4_096;

const ROWS: u64 = 584 * 4_096;

const BITMAP: u64 = 585 * 4_096;

const DATA: u64 = 586 * 4_096;

// The same for an image with room for 192 known words.
const WIDE_LEN: usize = 596 * 4_096;

const WIDE_AXIOMS: u64 = 581 * 4_096;

const WIDE_FILES: u64 = 582 * 4_096;

const WIDE_START: &[u8] = b"LISFS-IM\x01\0\0\0\x40\0\0\0\xc0\0\0\0\x08\0\0\0\0";

const SUPER_START: &[u8] = b"LISFS-IM\x01\0\0\0\x40\0\0\0\x40\0\0\0\x08\0\0\0\0";

/// Bytes, and the offset at which they are written.
type Patch = (u64, &'static [u8]);

// The words `music`, `rock`, `year:` and `year:1999`, axioms from `rock` and from `year:1999` to `music`, and the file `song`. The file has
// the word `rock`, and 2 bytes in data block 1, and so the word `size:small`.
const SONG: &[Patch] = &[
    (WORDS, b"\x02\x05music"),
    (WORDS + 64, b"\x02\x05year:"),
    (WORDS + 2 * 64, b"\x01\x09year:1999"),
    (WORDS + 5 * 64, b"\x02\x04rock"),
    (WORDS + 8 * 64, b"\x01\x05size:"),
    (WORDS + 9 * 64, b"\x01\x0asize:small"),
    (AXIOMS + 2 * 8, b"\x06\0\0\0\x01"),
    (AXIOMS + 4 * 8, b"\x03\0\0\0\x01"),
    (FILES + 256, b"\x01\x04song"),
    (FILES + 256 + 62, b"\x01\0\x02\0\0\0\x05"),
    (FILES + 256 + 100, b"\x01"),
    (ROWS, b"\x02"),
    (ROWS + 5 * 8, b"\x02"),
    (ROWS + 8 * 8, b"\x02"),
    (ROWS + 9 * 8, b"\x02"),
    (BITMAP, b"\x02"),
];

// The file `a.c` in slot 0, whose 10 bytes are in data block 0, with the words that are derived from its name, its size and its content.
const SOURCE: &[Patch] = &[
    (WORDS, b"\x01\x04ext:"),
    (WORDS + 64, b"\x01\x05ext:c"),
    (WORDS + 2 * 64, b"\x01\x05size:"),
    (WORDS + 3 * 64, b"\x01\x0asize:small"),
    (WORDS + 4 * 64, b"\x01\x08defines:"),
    (WORDS + 5 * 64, b"\x01\x09defines:f"),
    (FILES, b"\x01\x03a.c"),
    (FILES + 62, b"\0\0\x0a"),
    (ROWS, b"\x01"),
    (ROWS + 8, b"\x01"),
    (ROWS + 2 * 8, b"\x01"),
    (ROWS + 3 * 8, b"\x01"),
    (ROWS + 4 * 8, b"\x01"),
    (ROWS + 5 * 8, b"\x01"),
    (BITMAP, b"\x01"),
    (DATA, b"int f(){}\n"),
];

// Changes of an image without words and files, and the spot of the first check that then fails.
const DAMAGES: &[(&[Patch], Spot)] = &[
    (&[(8, b"\x09")], Spot::Super),
    (&[(12, b"\x3f")], Spot::Super),
    (&[(25, b"\x01")], Spot::Super),
    (&[(4_095, b"\x01")], Spot::Super),
    (&[(GATES, b"\x01")], Spot::BadRecord(2)),
    // a whole record of one block, and none after it
    (
        &[(GATES, b"\x01\x01"), (RECORDS, b"\x01\0\0\0\x42\x02")],
        Spot::BadRecord(4),
    ),
    (&[(WORDS + 5 * 64, b"\x03")], Spot::Property(5)),
    (
        &[(WORDS, b"\x02\x01a"), (WORDS + 3 * 64, b"\x02\x01a")],
        Spot::Property(3),
    ),
    (&[(WORDS + 2 * 64, b"\x01\x04ext:")], Spot::Word(2)),
    (
        &[(WORDS, b"\x02\x01a"), (AXIOMS + 8, b"\x01\0\0\0\x01")],
        Spot::Axiom(1),
    ),
    (&[(FILES + 7 * 256, b"\x02")], Spot::File(7)),
    (&[(BITMAP, b"\x08")], Spot::Bitmap(3)),
    (&[(BITMAP + 4_095, b"\x80")], Spot::Bitmap(32_767)),
    (&[(ROWS, b"\x01")], Spot::Row(0)),
    (&[(ROWS + 512, b"\x01")], Spot::Row(64)),
    // two damages
    (
        &[(BITMAP, b"\x08"), (WORDS + 5 * 64, b"\x03")],
        Spot::Property(5),
    ),
    (&[(ROWS, b"\x01"), (BITMAP, b"\x08")], Spot::Bitmap(3)),
    (
        &[(ROWS + 512, b"\x01"), (FILES + 7 * 256, b"\x02")],
        Spot::File(7),
    ),
    (&[(ROWS + 512, b"\x01"), (ROWS, b"\x01")], Spot::Row(0)),
    // two damages of parts that are checked in sequence, the earlier one at the last index of its part
    (&[(GATES, b"\x01"), (8, b"\x09")], Spot::Super),
    (
        &[(WORDS + 5 * 64, b"\x03"), (GATES, b"\x01")],
        Spot::BadRecord(2),
    ),
    (
        &[(WORDS + 5 * 64, b"\x03"), (WORDS + 3 * 64, b"\x03")],
        Spot::Property(3),
    ),
    (
        &[(AXIOMS, b"\x01\0\0\0\x01"), (WORDS + 63 * 64, b"\x03")],
        Spot::Property(63),
    ),
    (
        &[(FILES, b"\x02"), (AXIOMS + 512, b"\x01\0\0\0\x01")],
        Spot::Axiom(64),
    ),
    (
        &[(WORDS, b"\x01\x04ext:"), (FILES + 63 * 256, b"\x02")],
        Spot::File(63),
    ),
    (
        &[(BITMAP, b"\x01"), (WORDS + 63 * 64, b"\x01\x04ext:")],
        Spot::Word(63),
    ),
    (
        &[(ROWS, b"\x01"), (BITMAP + 4_095, b"\x80")],
        Spot::Bitmap(32_767),
    ),
];

// The same for the image with `song`.
const SONG_DAMAGES: &[(&[Patch], Spot)] = &[
    (&[(WORDS + 6 * 64, b"\x02\x04rock")], Spot::Property(6)),
    (&[(WORDS + 3 * 64, b"\x01\x06from:x")], Spot::Word(3)),
    // the pair twice, two cycles, a right side that is not plain, one without a word, and a slot past the last one
    (&[(AXIOMS + 3 * 8, b"\x06\0\0\0\x01")], Spot::Axiom(3)),
    (&[(AXIOMS, b"\x01\0\0\0\x06")], Spot::Axiom(2)),
    (&[(AXIOMS, b"\x01\0\0\0\x01")], Spot::Axiom(0)),
    (&[(AXIOMS, b"\x01\0\0\0\x02")], Spot::Axiom(0)),
    (&[(AXIOMS, b"\x01\0\0\0\x05")], Spot::Axiom(0)),
    (&[(AXIOMS + 512, b"\x06\0\0\0\x01")], Spot::Axiom(64)),
    // a left side without a word, and a slot with only a left side
    (&[(AXIOMS, b"\x05\0\0\0\x01")], Spot::Axiom(0)),
    (&[(AXIOMS, b"\x01")], Spot::Axiom(0)),
    // a valued left side without its head, declared or built in, and a word that only its axiom kept
    (&[(WORDS + 64, b"\0\0\0\0\0\0\0")], Spot::Axiom(4)),
    (
        &[
            (WORDS + 3 * 64, b"\x01\x06from:x"),
            (AXIOMS, b"\x04\0\0\0\x01"),
        ],
        Spot::Axiom(0),
    ),
    (&[(AXIOMS + 4 * 8, b"\0\0\0\0\0")], Spot::Word(2)),
    // a word without a slot, two words that are not assignable, a block past the last one, a name twice, and a block twice, in two files
    // and in one of 4,097 bytes
    (&[(FILES + 256 + 68, b"\x06")], Spot::File(1)),
    (&[(FILES + 256 + 68, b"\x01")], Spot::File(1)),
    (&[(FILES + 256 + 68, b"\x09")], Spot::File(1)),
    (&[(FILES + 256 + 100, b"\x08")], Spot::File(1)),
    (
        &[(FILES + 512, b"\x01\x04song"), (FILES + 512 + 64, b"\x02")],
        Spot::File(2),
    ),
    (
        &[
            (FILES + 512, b"\x01\x04sung"),
            (FILES + 512 + 64, b"\x01"),
            (FILES + 512 + 100, b"\x01"),
        ],
        Spot::File(2),
    ),
    (
        &[
            (WORDS + 9 * 64, b"\x01\x0bsize:medium"),
            (FILES + 256 + 64, b"\x01\x10"),
            (FILES + 256 + 100, b"\x01\0\x01"),
        ],
        Spot::File(1),
    ),
    // a name twice before a slot in no layout, and after one
    (
        &[
            (FILES, b"\x01\x04song"),
            (FILES + 64, b"\x02"),
            (FILES + 512, b"\x02"),
        ],
        Spot::File(1),
    ),
    (
        &[
            (FILES, b"\x01\x04song"),
            (FILES + 64, b"\x02"),
            (FILES + 256, b"\x02"),
            (FILES + 512, b"\x01\x04song"),
            (FILES + 512 + 64, b"\x02"),
            (FILES + 512 + 100, b"\x02"),
        ],
        Spot::File(1),
    ),
    (&[(BITMAP, b"\x03")], Spot::Bitmap(0)),
    (&[(BITMAP, b"\0")], Spot::Bitmap(1)),
    (&[(ROWS + 5 * 8, b"\0")], Spot::Row(5)),
    (&[(ROWS + 7, b"\x80")], Spot::Row(0)),
    (&[(ROWS + 4_095, b"\x01")], Spot::Row(64)),
];

// The same for the image with `a.c`: a derived word without a slot, and one whose head has none.
const SOURCE_DAMAGES: &[(&[Patch], Spot)] = &[
    (&[(WORDS + 64, b"\0\0\0\0\0\0\0")], Spot::File(0)),
    (&[(WORDS, b"\0\0\0\0\0\0")], Spot::File(0)),
    (&[(DATA + 4, b"g")], Spot::File(0)),
    (&[(FILES + 2, b"b.h")], Spot::File(0)),
    // what is no longer derived is not in use
    (&[(DATA, b"//")], Spot::Word(4)),
    (&[(ROWS + 8, b"\0")], Spot::Row(1)),
];

#[derive(Clone, Copy, Debug, PartialEq, Eq)]
enum Answer {
    Opened,
    TooShort(u64, u64),
    Damaged(Spot),
}

// A disk of this many bytes, all the same.
fn disk_of(alloc: Global, byte: u8, len: usize) -> Result<MemStation, AllocError> {
    let bytes = vec![in alloc; byte; len]?;
    MemStation::new(alloc, &bytes, 0)
}

// Only this function sees the contract of `make`, as only `opening` sees that of `mount`. So the rest is proved quickly.
fn making(disk: &mut MemStation) -> Result<(), MakeFault> {
    make(disk, &LIMITS)
}

fn empty_image(alloc: Global) -> Result<MemStation, Fail> {
    let mut disk = disk_of(alloc, 0, IMAGE_LEN)?;
    making(&mut disk)?;
    Ok(disk)
}

fn put(disk: &mut MemStation, at: u64, bytes: &[u8]) -> Result<(), Fail> {
    let len = disk.len();
    if len < at || len - at < bytes.len() as u64 {
        return Err(Fail::from("past the end"));
    }
    disk.write_at(at, bytes)?;
    Ok(())
}

fn put_all(disk: &mut MemStation, changes: &[Patch]) -> Result<(), Fail> {
    for (at, bytes) in changes {
        put(disk, *at, bytes)?;
    }
    Ok(())
}

fn byte_at(disk: &mut MemStation, at: u64) -> Result<u8, Fail> {
    if disk.len() <= at {
        return Err(Fail::from("past the end"));
    }
    let mut byte = [0; 1];
    disk.read_at(at, &mut byte)?;
    Ok(byte[0])
}

fn opening(alloc: Global, disk: &mut MemStation) -> Result<Answer, Fail> {
    match mount(alloc, disk) {
        Ok(store) => {
            store.close();
            Ok(Answer::Opened)
        }
        Err(OpenFault::TooShort(len, need)) => Ok(Answer::TooShort(len, need)),
        Err(OpenFault::Damaged(spot)) => Ok(Answer::Damaged(spot)),
        Err(_) => Err(Fail::from("another answer")),
    }
}

// What opening returns for an empty image with some changes, and then others.
fn opening_with(alloc: Global, first: &[Patch], second: &[Patch]) -> Result<Answer, Fail> {
    let mut disk = empty_image(alloc)?;
    put_all(&mut disk, first)?;
    put_all(&mut disk, second)?;
    opening(alloc, &mut disk)
}

// Each of the damages, made to an empty image with some changes, gives its spot.
fn assert_found(
    rt: &impl Abort,
    alloc: Global,
    changes: &[Patch],
    damages: &[(&[Patch], Spot)],
) -> Result<(), Fail> {
    for (damage, spot) in damages {
        let answer = opening_with(alloc, changes, damage)?;
        assert!(rt; answer == Answer::Damaged(*spot), "{damage:?}");
    }
    Ok(())
}

// The words `aa`, `ab` and so on, 130 of them, each with an axiom to the one before.
fn put_chain(disk: &mut MemStation) -> Result<(), Fail> {
    for n in 0..130_u8 {
        let slot = u64::from(n);
        put(
            disk,
            WORDS + slot * 64,
            &[2, 2, b'a' + n / 26, b'a' + n % 26],
        )?;
        if n > 0 {
            put(disk, WIDE_AXIOMS + slot * 8, &[n + 1, 0, 0, 0, n])?;
        }
    }
    Ok(())
}

// What opening returns for an image with these words and an empty file that has the word of this slot.
fn opening_chain(alloc: Global, slot: u8) -> Result<Answer, Fail> {
    let mut disk = disk_of(alloc, 0, WIDE_LEN)?;
    put(&mut disk, 0, WIDE_START)?;
    put_chain(&mut disk)?;
    put(&mut disk, WORDS + 130 * 64, b"\x01\x05size:")?;
    put(&mut disk, WORDS + 131 * 64, b"\x01\x0asize:empty")?;
    put(&mut disk, WIDE_FILES, b"\x01\x01f")?;
    put(&mut disk, WIDE_FILES + 62, &[1, 0, 0, 0, 0, 0, slot])?;
    opening(alloc, &mut disk)
}

#[test]
fn making_leaves_an_empty_image(rt: HostRuntime) -> Result<(), Fail> {
    let mut disk = disk_of(rt.alloc(), b'L', IMAGE_LEN + 1)?;
    making(&mut disk)?;
    for (at, byte) in SUPER_START.iter().enumerate() {
        assert!(rt; byte_at(&mut disk, at as u64)? == *byte, "at {at}");
    }

    // The gate block and the home blocks before the data blocks are zeros. The records, the data blocks and what is past the image are left
    // alone.
    for (at, byte) in [
        (GATES, 0),
        (RECORDS - 1, 0),
        (RECORDS, b'L'),
        (WORDS - 1, b'L'),
        (WORDS, 0),
        (ROWS, 0),
        (DATA - 1, 0),
        (DATA, b'L'),
        (IMAGE_LEN as u64, b'L'),
    ] {
        assert!(rt; byte_at(&mut disk, at)? == byte, "at {at}");
    }
    assert!(rt; opening(rt.alloc(), &mut disk)? == Answer::Opened);
    Ok(())
}

#[test]
fn a_short_disk_is_refused(rt: HostRuntime) -> Result<(), Fail> {
    let mut disk = disk_of(rt.alloc(), 0, IMAGE_LEN - 1)?;
    let answer = making(&mut disk);
    assert!(rt; matches!(answer, Err(MakeFault::TooShort(2_433_023, 2_433_024))));
    // The length is judged after the super block, and before the gates.
    put_all(&mut disk, &[(0, SUPER_START), (GATES, b"\x01")])?;
    assert!(rt; opening(rt.alloc(), &mut disk)? == Answer::TooShort(2_433_023, 2_433_024));
    put(&mut disk, 8, b"\x09")?;
    assert!(rt; opening(rt.alloc(), &mut disk)? == Answer::Damaged(Spot::Super));
    let mut small = disk_of(rt.alloc(), 0, 4_095)?;
    assert!(rt; opening(rt.alloc(), &mut small)? == Answer::TooShort(4_095, 4_096));
    Ok(())
}

// A gate after a closed one does not count, and neither does a gate that is not 1. The version is 1 if its gate is not 2.
#[test]
fn whole_images_are_opened(rt: HostRuntime) -> Result<(), Fail> {
    for changes in [
        SONG,
        SOURCE,
        &[(GATES + 1, b"\x01")],
        &[(GATES, b"\x02")],
        &[(24, b"\x05")],
    ] {
        assert!(rt; opening_with(rt.alloc(), changes, &[])? == Answer::Opened);
    }
    Ok(())
}

#[test]
fn damage_to_an_empty_image_is_found(rt: HostRuntime) -> Result<(), Fail> {
    assert_found(&rt, rt.alloc(), &[], DAMAGES)
}

#[test]
fn damage_to_words_and_files_is_found(rt: HostRuntime) -> Result<(), Fail> {
    assert_found(&rt, rt.alloc(), SONG, SONG_DAMAGES)
}

#[test]
fn damage_to_what_files_tell_is_found(rt: HostRuntime) -> Result<(), Fail> {
    assert_found(&rt, rt.alloc(), SOURCE, SOURCE_DAMAGES)
}

// With its two words by size the file has 128 words, 129 and 132. Its rows are empty, which is checked later.
#[test]
fn a_file_has_at_most_128_words(rt: HostRuntime) -> Result<(), Fail> {
    for (slot, spot) in [
        (125, Spot::Row(0)),
        (126, Spot::File(0)),
        (129, Spot::File(0)),
    ] {
        let answer = opening_chain(rt.alloc(), slot)?;
        assert!(rt; answer == Answer::Damaged(spot), "{slot}");
    }
    Ok(())
}
