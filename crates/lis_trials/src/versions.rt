//! Large files in images, and images of version 1 that become images of version 2.

ghost use Rattle.std.specs.Prelude.{◌≡◌, IfOk, IsTrue};
ghost use Rattle.lis_memdisk.specs.MemStation.{meaning_of};

use crate::images::{bytes_of, made, run, run_all, session, shown_behind, used};
use crate::tests::tables::LARGE_FILES;
use crate::tests::{SOUND, call, files_row, push_file, row_of};
use lis_memdisk::MemStation;
use lis_model::spot::Spot;
use lis_open::OpenFault;
use lis_shell::status::Status;
use std::alloc::{AllocError, Global};
use std::test::Fail;

/// The words that make an image with room for a file that is too large for version 1.
static SMALL: [&str; 5] = ["make", "i", "64", "64", "40"];

/// Room for the record of an upgrade.
const ROOM: u64 = 1 << 20;

/// How many bytes a block has.
const BLOCK_LEN: usize = 4_096;

/// The bytes at which such an image has its first file slot, and its first data block.
const FILES_START: usize = 580 * BLOCK_LEN;

const DATA_START: usize = 586 * BLOCK_LEN;

/// The byte of a file slot at which its first block number is.
const NUMBERS_AT: usize = 100;

/// How many bytes a file slot has.
const FILE_LEN: usize = 256;

/// An offset in an image with a file above 65,536 bytes in slot 0, and a small one in slot 1: in the super block, in a file slot, or in the
/// index block of the first file.
#[derive(Clone, Copy, Debug)]
enum Place {
    Super(usize),
    Slot(usize, usize),
    Index(usize),
}

/// What is written there.
#[derive(Clone, Copy, Debug)]
enum Written {
    /// These two bytes.
    Bytes([u8; 2]),
    /// The number of the index block.
    IndexNumber,
    /// The first block number of the small file.
    SmallNumber,
    /// The first number in the index block.
    FirstNumber,
}

/// Damages of such an image, and the spot of the first check that fails.
static DAMAGES: [(Place, Written, Spot); 9] = [
    // Bytes after the numbers that are not zero.
    (Place::Index(34), Written::Bytes([1, 0]), Spot::File(0)),
    (Place::Index(4_094), Written::Bytes([0, 1]), Spot::File(0)),
    // A number of no block, and the numbers of blocks that are used already.
    (Place::Index(32), Written::Bytes([40, 0]), Spot::File(0)),
    (Place::Index(2), Written::FirstNumber, Spot::File(0)),
    (Place::Index(0), Written::IndexNumber, Spot::File(0)),
    (Place::Index(0), Written::SmallNumber, Spot::File(1)),
    (
        Place::Slot(0, NUMBERS_AT),
        Written::Bytes([40, 0]),
        Spot::File(0),
    ),
    (
        Place::Slot(0, NUMBERS_AT + 2),
        Written::Bytes([1, 0]),
        Spot::File(0),
    ),
    // In version 1 a file can't have this many bytes.
    (Place::Super(24), Written::Bytes([255, 0]), Spot::File(0)),
];

// The words that make an image for a session with these limits.
fn making(alloc: Global, words: &'static [&'static str]) -> Result<Vec<&'static str>, AllocError> {
    let mut made = Vec::new(alloc);
    made.push("make")?;
    made.push("i")?;
    for word in words.iter().skip(1) {
        made.push(*word)?;
    }
    Ok(made)
}

fn upgrade(alloc: Global, station: &mut MemStation) -> Result<(Status, usize), AllocError>
    ensures recorded { (meaning_of station.new).is_recorded ≡ (meaning_of station.old).is_recorded }
{
    call(alloc, &["upgrade", "i"], "mkdir a;", &SOUND, station)
}

// The bytes of an image of version 1 on which a file was refused. The image has no open record.
fn refused(alloc: Global) -> Result<Vec<u8>, Fail> {
    let mut station = MemStation::new(alloc, &made(alloc, &SMALL)?, 0)?;
    let mut row = String::new(alloc);
    push_file(&mut row, "add a 65537;", 65_537)?;
    if run(alloc, row.as_str(), &mut station)? != Status::DONE {
        return Err("the session did not end".into());
    }
    if row_of(alloc, station.shown())?.as_str() != "no 20 file too large;" {
        return Err("the file was not refused".into());
    }
    bytes_of(alloc, &mut station)
}

#[test]
fn files_of_images_are_as_large_as_there_are_blocks(rt: HostRuntime) -> Result<(), Fail> {
    let alloc = rt.alloc();
    for (words, files, behind, wanted) in &LARGE_FILES {
        let image = made(alloc, &making(alloc, words)?)?;
        let row = files_row(alloc, files, behind)?;
        let (status, shown) = session(alloc, &image, row.as_str())?;
        assert!(rt; shown.as_str() == *wanted, "{words:?}");
        assert!(rt; status == Status::DONE, "{words:?}");
    }
    Ok(())
}

// Neither upgrade reads input or shows anything; the second finds an image of version 2.
fn upgrade_twice(alloc: Global, station: &mut MemStation) -> Result<(), Fail> {
    for _ in 0..2 {
        let (status, taken) = upgrade(alloc, station)?;
        if status != Status::DONE || taken != 0 || !station.shown().is_empty() {
            return Err("the image was not upgraded in silence".into());
        }
    }
    Ok(())
}

// What a session shows on an image that was upgraded twice.
fn shown_upgraded(alloc: Global, row: &str) -> Result<String, Fail> {
    let mut station = MemStation::new(alloc, &refused(alloc)?, 0)?;
    upgrade_twice(alloc, &mut station)?;
    run_all(alloc, &[row], &mut station)?;
    shown_behind(alloc, &station, 0)
}

#[test]
fn an_upgraded_image_takes_larger_files(rt: HostRuntime) -> Result<(), Fail> {
    let row = files_row(rt.alloc(), &[("a", 65_537)], "stat;")?;
    let shown = shown_upgraded(rt.alloc(), row.as_str())?;
    assert!(rt; shown.as_str() == "ok;s files 1;s known 2;s axioms 0;s free 22;ok;");
    Ok(())
}

// A station on which such an image was made one of version 2.
fn recorded(alloc: Global) -> Result<MemStation, Fail>
    ensures { IfOk result (λ station. IsTrue (meaning_of station).is_recorded) }
{
    let mut station = MemStation::new(alloc, &refused(alloc)?, ROOM)?;
    let (status, _) = upgrade(alloc, &mut station)?;
    if status != Status::DONE {
        return Err("the image was not upgraded".into());
    }
    Ok(station)
}

// How a session that only looks ends on what a crash just after the call leaves, and what it shows.
fn left_by(
    alloc: Global,
    station: &MemStation,
    call: u64,
    pick: u8,
) -> Result<(Status, String), Fail>
    requires { IsTrue (meaning_of station.now).is_recorded }
{
    if call > station.calls() {
        return Err("there was no such call".into());
    }
    let image = station.crash(alloc, call, pick)?;
    Ok(session(alloc, &image, "ls;")?)
}

#[test]
fn a_crash_of_an_upgrade_leaves_an_image_that_opens(rt: HostRuntime) -> Result<(), Fail> {
    let alloc = rt.alloc();
    let station = recorded(alloc)?;
    for call in 0..=station.calls() {
        for pick in [0, 1, 2, 165] {
            let (status, shown) = left_by(alloc, &station, call, pick)?;
            assert!(rt;
                status == Status::DONE,
                "the call {call} and the pick {pick}"
            );
            assert!(rt;
                shown.as_str() == "ok;",
                "the call {call} and the pick {pick}"
            );
        }
    }
    Ok(())
}

// The bytes of an image of version 2 with a file above 65,536 bytes and a small one. The image has no open record.
fn with_files(alloc: Global) -> Result<Vec<u8>, Fail> {
    let words = ["make", "i", "64", "64", "40", "v2"];
    let row = files_row(alloc, &[("a", 65_537), ("b", 1)], "")?;
    used(alloc, &made(alloc, &words)?, &[row.as_str(), ""])
}

// The two bytes there; zeros if there are none.
fn pair_at(image: &[u8], at: usize) -> [u8; 2] {
    match image.get(at..) {
        Some([low, high, ..]) => [*low, *high],
        _ => [0; 2],
    }
}

// The byte at which the index block of the first file begins.
fn index_at(image: &[u8]) -> usize {
    let number = u16::from_le_bytes(pair_at(image, FILES_START + NUMBERS_AT));
    DATA_START + BLOCK_LEN * usize::from(number)
}

fn address(image: &[u8], place: Place) -> usize {
    match place {
        Place::Super(at) => at,
        Place::Slot(slot, at) => FILES_START
            .saturating_add(slot.saturating_mul(FILE_LEN))
            .saturating_add(at),
        Place::Index(at) => index_at(image).saturating_add(at),
    }
}

fn bytes_for(image: &[u8], what: Written) -> [u8; 2] {
    match what {
        Written::Bytes(bytes) => bytes,
        Written::IndexNumber => pair_at(image, FILES_START + NUMBERS_AT),
        Written::SmallNumber => pair_at(image, FILES_START + FILE_LEN + NUMBERS_AT),
        Written::FirstNumber => pair_at(image, index_at(image)),
    }
}

fn put(bytes: &mut Vec<u8>, at: usize, value: u8) -> bool {
    match bytes.get_mut(at) {
        None => false,
        Some(place) => {
            *place = value;
            true
        }
    }
}

// Writes this there, by the numbers in the image as it was.
fn damage(image: &[u8], bytes: &mut Vec<u8>, place: Place, what: Written) -> bool {
    let at = address(image, place);
    let [low, high] = bytes_for(image, what);
    put(bytes, at, low) && put(bytes, at.saturating_add(1), high)
}

#[test]
fn damaged_index_blocks_are_named(rt: HostRuntime) -> Result<(), Fail> {
    let alloc = rt.alloc();
    let image = with_files(alloc)?;
    let (status, _) = session(alloc, &image, "ls;")?;
    assert!(rt; status == Status::DONE);
    for (place, what, spot) in &DAMAGES {
        let mut bytes = image.clone()?;
        assert!(rt; damage(&image, &mut bytes, *place, *what), "{place:?}");
        let (status, shown) = session(alloc, &bytes, "ls;")?;
        assert!(rt;
            status == Status::Opening(OpenFault::Damaged(*spot)),
            "{place:?} {what:?}"
        );
        assert!(rt; shown.is_empty(), "{place:?} {what:?}");
    }
    Ok(())
}

// The image with another value of the version gate.
fn with_gate(alloc: Global, image: &[u8], gate: u8) -> Result<Vec<u8>, Fail> {
    let mut bytes = image.to_vec(alloc)?;
    match bytes.get_mut(24) {
        None => return Err("there is no gate".into()),
        Some(place) => *place = gate,
    }
    Ok(bytes)
}

// How a session that adds a large file ends over it, and what it shows.
fn large_file_with_gate(alloc: Global, image: &[u8], gate: u8) -> Result<(Status, String), Fail> {
    let row = files_row(alloc, &[("a", 65_537)], "")?;
    let bytes = with_gate(alloc, image, gate)?;
    Ok(session(alloc, &bytes, row.as_str())?)
}

// Every value of the version gate except 2 is version 1, and an image without large files opens as either.
#[test]
fn the_gate_of_a_version_may_have_any_value(rt: HostRuntime) -> Result<(), Fail> {
    let alloc = rt.alloc();
    let image = made(alloc, &SMALL)?;
    for gate in [0, 1, 2, 3, 165, 255] {
        let (status, shown) = large_file_with_gate(alloc, &image, gate)?;
        let wanted = if gate == 2 {
            "ok;"
        } else {
            "no 20 file too large;"
        };
        assert!(rt; status == Status::DONE, "{gate}");
        assert!(rt; shown.as_str() == wanted, "{gate}");
    }
    Ok(())
}
