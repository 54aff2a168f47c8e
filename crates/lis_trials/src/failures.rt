//! The commands on one file over an image, with one failing call: of the disk, of the station that shows, or of the source.

use crate::images::{MAKES, bytes_of, made, opening_calls, session};
use crate::tests::tables::{FAILING_PLACES, ONE_FILE};
use crate::tests::{Outside, SOUND, call, row_of};
use lis_memdisk::MemStation;
use lis_shell::status::Status;
use std::alloc::Global;
use std::test::Fail;

/// What the script shows.
const SHOWN: &str = "ok;ok;ok;ok;ok;ok;ok;ok;";

/// More disk calls than the script makes.
const MANY_CALLS: u64 = 200;

/// How many bytes each reply of the script has: `ok` and a line feed.
const REPLY_LEN: usize = 3;

/// How a run of the script ended, what it showed, how many disk calls it made, and what a session that only looks shows of the image that
/// it left.
#[derive(Drop)]
struct Ending {
    status: Status,
    shown: String,
    calls: u64,
    left: String,
}

// The script over a station on which a call fails, and then a look over a new station with the bytes that the first one reads.
fn ending_of(alloc: Global, station: &mut MemStation, outside: &Outside) -> Result<Ending, Fail> {
    let (status, _) = call(alloc, &["run", "i"], ONE_FILE.row, outside, station)?;
    let shown = row_of(alloc, station.shown())?;
    let calls = station.calls();
    station.fails.clear();
    let image = bytes_of(alloc, station)?;
    let (looked, left) = session(alloc, &image, ONE_FILE.look)?;
    if looked != Status::DONE {
        return Err("the image was not opened".into());
    }
    Ok(Ending {
        status,
        shown,
        calls,
        left,
    })
}

// Whether these are the first `len` bytes of what the script shows.
fn is_front(shown: &str, len: usize) -> bool {
    shown.len() == len && SHOWN.starts_with(shown)
}

// Whether this is the state after this many commands.
fn is_behind(left: &str, commands: usize) -> bool {
    ONE_FILE.state(commands) == Some(left)
}

// Whether whole replies were shown, and the image has the state after their commands or after one more.
fn is_allowed(ended: &Ending) -> bool {
    let replies = ended.shown.len() / REPLY_LEN;
    is_front(ended.shown.as_str(), replies * REPLY_LEN)
        && (is_behind(ended.left.as_str(), replies) || is_behind(ended.left.as_str(), replies + 1))
}

// Whether nothing was shown, and the image has the state from before.
fn is_unchanged(ended: &Ending) -> bool {
    ended.shown.is_empty() && is_behind(ended.left.as_str(), 0)
}

// The script with a failing call of this number.
fn failing(alloc: Global, image: &[u8], number: u64) -> Result<Ending, Fail> {
    let mut station = MemStation::new(alloc, image, 0)?;
    station.fails.push(number)?;
    ending_of(alloc, &mut station, &SOUND)
}

#[test]
fn a_failing_call_of_the_disk_leaves_the_state_that_was_shown_or_the_next_one(
    rt: HostRuntime,
) -> Result<(), Fail> {
    let alloc = rt.alloc();
    let image = made(alloc, MAKES[0])?;
    let opening = opening_calls(alloc, &image)?;
    for number in 1..MANY_CALLS {
        let ended = failing(alloc, &image, number)?;
        assert!(rt; is_allowed(&ended), "the call {number}");
        assert!(rt;
            number > opening || is_unchanged(&ended),
            "the call {number}"
        );
        if ended.status == Status::DONE {
            assert!(rt; is_front(ended.shown.as_str(), SHOWN.len()));
            return Ok(());
        }
        assert!(rt; ended.status.is_disk_fault(), "the call {number}");
        assert!(rt; ended.calls == number, "no call comes behind a failed one");
    }
    Err("the script makes more calls".into())
}

// The script at one byte a call, if the show after this many bytes fails.
fn with_failing_show(alloc: Global, image: &[u8], before: usize) -> Result<Ending, Fail> {
    let mut station = MemStation::new(alloc, image, 0)?;
    station.step = 1;
    station.show_fails.push((before as u64).saturating_add(1))?;
    ending_of(alloc, &mut station, &SOUND)
}

// At one byte a call it is known what was shown. The command whose reply is not shown whole was run.
#[test]
fn a_failing_show_leaves_the_state_of_the_reply_that_it_cuts_off(
    rt: HostRuntime,
) -> Result<(), Fail> {
    let alloc = rt.alloc();
    let image = made(alloc, MAKES[0])?;
    for before in 0..SHOWN.len() {
        let ended = with_failing_show(alloc, &image, before)?;
        assert!(rt; ended.status == Status::OUTPUT_FAULT, "behind {before}");
        assert!(rt; is_front(ended.shown.as_str(), before), "behind {before}");
        assert!(rt;
            is_behind(ended.left.as_str(), before / REPLY_LEN + 1),
            "behind {before}"
        );
    }
    Ok(())
}

// The script from a source that fails at this offset.
fn with_failing_source(alloc: Global, image: &[u8], place: usize) -> Result<Ending, Fail> {
    let mut station = MemStation::new(alloc, image, 0)?;
    let outside = Outside {
        step: 1,
        fail_at: Some(place),
        ..SOUND
    };
    ending_of(alloc, &mut station, &outside)
}

#[test]
fn a_failing_source_leaves_the_state_of_what_came_whole(rt: HostRuntime) -> Result<(), Fail> {
    let alloc = rt.alloc();
    let image = made(alloc, MAKES[0])?;
    for (place, commands) in &FAILING_PLACES {
        let ended = with_failing_source(alloc, &image, *place)?;
        assert!(rt; ended.status == Status::INPUT_FAULT, "at {place}");
        assert!(rt;
            is_front(ended.shown.as_str(), commands.saturating_mul(REPLY_LEN)),
            "at {place}"
        );
        assert!(rt; is_behind(ended.left.as_str(), *commands), "at {place}");
    }
    Ok(())
}
