//! Large sessions over images in memory.

use crate::images::run_all;
use crate::tests::{SOUND, call, row_of};
use lis_memdisk::MemStation;
use lis_shell::status::Status;
use std::alloc::{AllocError, Global};
use std::test::Fail;

/// How many bytes an image of `1024 192 128` takes.
const IMAGE_LEN: usize = 3_198_976;

fn grow(alloc: Global, number: &str, station: &mut MemStation) -> Result<Status, AllocError> {
    let (status, taken) = call(alloc, &["grow", "i", number], "mkdir a;", &SOUND, station)?;
    if taken != 0 {
        return Ok(Status::INPUT_FAULT);
    }
    Ok(status)
}

// A station with an image without words and files.
fn fresh(alloc: Global) -> Result<MemStation, Fail> {
    let zeros = vec![in alloc; 0; IMAGE_LEN]?;
    let mut station = MemStation::new(alloc, &zeros, 0)?;
    let words = ["make", "i", "1024", "192", "128"];
    let (status, _) = call(alloc, &words, "", &SOUND, &mut station)?;
    if status != Status::DONE {
        return Err("no image was made".into());
    }
    Ok(station)
}

// What the session of the number 7 shows, run this many times.
fn grown(alloc: Global, times: u32) -> Result<String, Fail> {
    let mut station = fresh(alloc)?;
    for _ in 0..times {
        if grow(alloc, "7", &mut station)? != Status::DONE {
            return Err("the session did not end".into());
        }
    }
    Ok(row_of(alloc, station.shown())?)
}

// The second time all words, axioms and files are there, except the files that were removed. These are made and removed again.
#[test]
fn a_session_of_a_number_is_always_the_same(rt: HostRuntime) -> Result<(), Fail> {
    let once = "replies 1241;refused 0;files 800;axioms 15;free 28;listed 81;";
    let twice =
        "replies 1241;refused 0;files 800;axioms 15;free 28;listed 81;replies 1241;refused 832;files 800;axioms 15;free 28;listed 81;";
    for (times, wanted) in [(1, once), (1, once), (2, twice)] {
        let shown = grown(rt.alloc(), times)?;
        assert!(rt; shown.as_str() == wanted, "{times} times");
    }
    Ok(())
}

// A disk call of the session fails after the opening. Nothing is shown.
fn meet_disk_fault(alloc: Global, station: &mut MemStation) -> Result<(), Fail> {
    let number = station.calls().saturating_add(1_000);
    station.fails.push(number)?;
    let status = grow(alloc, "7", station)?;
    station.fails.clear();
    if !status.is_disk_fault() || !station.shown().is_empty() {
        return Err("the fault was not met, or something was shown".into());
    }
    Ok(())
}

// A show call of the session fails. Nothing is shown.
fn meet_output_fault(alloc: Global, station: &mut MemStation) -> Result<(), Fail> {
    station.show_fails.push(1)?;
    let status = grow(alloc, "7", station)?;
    if status != Status::OUTPUT_FAULT || !station.shown().is_empty() {
        return Err("the fault was not met, or something was shown".into());
    }
    Ok(())
}

// What a look shows after both.
fn left_by_faults(alloc: Global) -> Result<String, Fail> {
    let mut station = fresh(alloc)?;
    meet_disk_fault(alloc, &mut station)?;
    meet_output_fault(alloc, &mut station)?;
    run_all(alloc, &["stat;"], &mut station)?;
    Ok(row_of(alloc, station.shown())?)
}

// If a disk call fails, nothing is shown. If a show call fails, all items were run.
#[test]
fn a_fault_shows_nothing_of_the_summary(rt: HostRuntime) -> Result<(), Fail> {
    let shown = left_by_faults(rt.alloc())?;
    assert!(rt; shown.starts_with("s files 800;"), "{shown}");
    Ok(())
}
