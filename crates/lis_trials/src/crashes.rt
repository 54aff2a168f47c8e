//! Scripts in one session over an image, which crashes after each of its disk calls and is opened again.

ghost use Rattle.std.specs.Prelude.{IfOk, IsTrue};
ghost use Rattle.lis_memdisk.specs.MemStation.{meaning_of};

use crate::images::{MAKES, made, run, session};
use crate::tests::tables::{KINDS, ONE_FILE, Script, TWO_FILES};
use crate::tests::{Outside, SOUND, call};
use lis_memdisk::MemStation;
use lis_shell::status::Status;
use std::alloc::Global;
use std::test::Fail;

/// Room for the record of a session of a few commands.
const ROOM: u64 = 1 << 22;

/// The same for an opening.
const OPENING_ROOM: u64 = 1 << 20;

/// The most disk calls of an opening at which it is stopped.
const OPENING_CALLS: u64 = 40;

/// A pick of what remains of bytes that were not synced.
const PICK: u8 = 165;

/// How many bytes each reply of a script has: `ok` and a line feed.
const REPLY_LEN: u64 = 3;

// What a session that only looks shows of an image.
fn looked_at(alloc: Global, script: &Script, image: &[u8]) -> Result<String, Fail> {
    let (status, shown) = session(alloc, image, script.look)?;
    if status != Status::DONE {
        return Err("the image was not opened".into());
    }
    Ok(shown)
}

// The image that a crash just after the call leaves.
fn crashed(alloc: Global, station: &MemStation, call: u64, pick: u8) -> Result<Vec<u8>, Fail>
    requires { IsTrue (meaning_of station.now).is_recorded }
{
    if call > station.calls() {
        return Err("there was no such call".into());
    }
    Ok(station.crash(alloc, call, pick)?)
}

// What such a session shows of that image.
fn left_by(
    alloc: Global,
    script: &Script,
    station: &MemStation,
    call: u64,
    pick: u8,
) -> Result<String, Fail>
    requires { IsTrue (meaning_of station.now).is_recorded }
{
    looked_at(alloc, script, &crashed(alloc, station, call, pick)?)
}

// How many bytes had been shown when the call returned.
fn shown_at(station: &MemStation, call: u64) -> u64
    requires { IsTrue (meaning_of station.now).is_recorded }
{
    if call > station.calls() {
        return 0;
    }
    station.shown_at(call)
}

// Whether this is the state after this many commands.
fn is_behind(script: &Script, left: &str, commands: u64) -> bool {
    script.state(commands as usize) == Some(left)
}

// Whether this is the state after all of them.
fn is_last(script: &Script, left: &str) -> bool {
    script.states.split_terminator('\n').last() == Some(left)
}

// Whether it is the state after the commands whose replies were shown whole, or after one more, and the latter if that reply was begun.
fn is_allowed(script: &Script, left: &str, shown: u64) -> bool {
    let whole = shown / REPLY_LEN;
    let is_begun = shown % REPLY_LEN > 0;
    is_behind(script, left, whole.saturating_add(1))
        || (!is_begun && is_behind(script, left, whole))
}

// The script over an empty image made by these words.
fn scripted(alloc: Global, words: &[&str], script: &Script) -> Result<MemStation, Fail>
    ensures { IfOk result (λ station. IsTrue (meaning_of station).is_recorded) }
{
    let mut station = MemStation::new(alloc, &made(alloc, words)?, ROOM)?;
    if run(alloc, script.row, &mut station)? != Status::DONE {
        return Err("the script was not carried out".into());
    }
    Ok(station)
}

// What the first crash leaves that leaves a wrong state, by a pick of the bytes that were not synced. A crash may come just after a call,
// or just before the next one, when more replies were shown.
fn wrong_state(
    alloc: Global,
    script: &Script,
    station: &MemStation,
    pick: u8,
) -> Result<Option<String>, Fail>
    requires { IsTrue (meaning_of station.now).is_recorded }
{
    let last = station.calls();
    for call in 0..last {
        let left = left_by(alloc, script, station, call, pick)?;
        let is_right = is_allowed(script, left.as_str(), shown_at(station, call))
            && is_allowed(script, left.as_str(), shown_at(station, call + 1));
        if !is_right {
            return Ok(Some(left));
        }
    }

    // After the last call nothing is lost.
    let left = left_by(alloc, script, station, last, pick)?;
    Ok(if is_last(script, left.as_str()) {
        None
    } else {
        Some(left)
    })
}

// The same for the first of these picks that leaves such a state.
fn wrong_of(
    alloc: Global,
    words: &[&str],
    script: &Script,
    picks: [u8; 2],
) -> Result<Option<String>, Fail> {
    let station = scripted(alloc, words, script)?;
    for pick in picks {
        let wrong = wrong_state(alloc, script, &station, pick)?;
        if wrong.is_some() {
            return Ok(wrong);
        }
    }
    Ok(None)
}

// The script over such an image, loaded from an input in pieces of this many bytes.
fn loaded(alloc: Global, words: &[&str], script: &Script, step: usize) -> Result<MemStation, Fail>
    ensures { IfOk result (λ station. IsTrue (meaning_of station).is_recorded) }
{
    let mut station = MemStation::new(alloc, &made(alloc, words)?, ROOM)?;
    let outside = Outside { step, ..SOUND };
    let (status, _) = call(alloc, &["load", "i"], script.row, &outside, &mut station)?;
    if status != Status::DONE {
        return Err("the script was not loaded".into());
    }
    Ok(station)
}

// Whether it is the state after some commands, among them all whose replies were shown whole or begun.
fn is_kept(script: &Script, left: &str, shown: u64) -> bool {
    let begun = shown.div_ceil(REPLY_LEN) as usize;
    for state in script.states.split_terminator('\n').skip(begun) {
        if left == state {
            return true;
        }
    }
    false
}

// What the first crash in a load leaves that leaves another state, by a pick of the bytes that were not synced.
fn wrong_load(
    alloc: Global,
    script: &Script,
    station: &MemStation,
    pick: u8,
) -> Result<Option<String>, Fail>
    requires { IsTrue (meaning_of station.now).is_recorded }
{
    let last = station.calls();
    for call in 0..last {
        let left = left_by(alloc, script, station, call, pick)?;
        if !is_kept(script, left.as_str(), shown_at(station, call + 1)) {
            return Ok(Some(left));
        }
    }
    let left = left_by(alloc, script, station, last, pick)?;
    Ok(if is_last(script, left.as_str()) {
        None
    } else {
        Some(left)
    })
}

// The same for the first of the scripts, loaded in such pieces.
fn wrong_load_of_any(alloc: Global, words: &[&str], step: usize) -> Result<Option<String>, Fail> {
    for script in [&KINDS, &ONE_FILE, &TWO_FILES] {
        let station = loaded(alloc, words, script, step)?;
        let wrong = wrong_load(alloc, script, &station, PICK)?;
        if wrong.is_some() {
            return Ok(wrong);
        }
    }
    Ok(None)
}

// What a session that only looks shows of an image whose opening stopped at the call after the fuse. The result is `None` if it was not
// stopped.
fn left_by_opening(
    alloc: Global,
    script: &Script,
    image: &[u8],
    fuse: u64,
) -> Result<Option<String>, Fail> {
    let mut station = MemStation::new(alloc, image, OPENING_ROOM)?;
    station.fuse = fuse;
    if run(alloc, "", &mut station)? == Status::DONE {
        return Ok(None);
    }
    let left = left_by(alloc, script, &station, station.calls(), PICK)?;
    Ok(Some(left))
}

// Whether the opening that stops at the call after the fuse leaves another state. The result is `None` if it was not stopped.
fn leaves_another(
    alloc: Global,
    script: &Script,
    image: &[u8],
    fuse: u64,
    before: &str,
) -> Result<Option<bool>, Fail> {
    match left_by_opening(alloc, script, image, fuse)? {
        None => Ok(None),
        Some(left) => Ok(Some(left.as_str() != before)),
    }
}

// The first fuse with which the opening leaves another state than the image has.
fn wrong_fuse(alloc: Global, script: &Script, image: &[u8]) -> Result<Option<u64>, Fail> {
    let before = looked_at(alloc, script, image)?;
    for fuse in 0..OPENING_CALLS {
        match leaves_another(alloc, script, image, fuse, before.as_str())? {
            None => return Ok(None),
            Some(true) => return Ok(Some(fuse)),
            Some(false) => {}
        }
    }
    Ok(None)
}

// The same for the first of the scripts.
fn wrong_of_any(alloc: Global, words: &[&str], picks: [u8; 2]) -> Result<Option<String>, Fail> {
    for script in [&KINDS, &ONE_FILE, &TWO_FILES] {
        let wrong = wrong_of(alloc, words, script, picks)?;
        if wrong.is_some() {
            return Ok(wrong);
        }
    }
    Ok(None)
}

#[test]
fn a_crash_that_takes_all_or_nothing_leaves_the_state_before_a_command_or_behind_it(
    rt: HostRuntime,
) -> Result<(), Fail> {
    let wrong = wrong_of_any(rt.alloc(), MAKES[0], [0, 1])?;
    assert!(rt; wrong.is_none(), "{wrong:?}");
    Ok(())
}

#[test]
fn a_crash_that_takes_some_leaves_the_state_before_a_command_or_behind_it(
    rt: HostRuntime,
) -> Result<(), Fail> {
    let wrong = wrong_of_any(rt.alloc(), MAKES[0], [2, 165])?;
    assert!(rt; wrong.is_none(), "{wrong:?}");
    Ok(())
}

#[test]
fn so_it_is_on_an_image_of_version_2_where_all_or_nothing_is_taken(
    rt: HostRuntime,
) -> Result<(), Fail> {
    let wrong = wrong_of_any(rt.alloc(), MAKES[1], [0, 1])?;
    assert!(rt; wrong.is_none(), "{wrong:?}");
    Ok(())
}

#[test]
fn and_where_some_is_taken(rt: HostRuntime) -> Result<(), Fail> {
    let wrong = wrong_of_any(rt.alloc(), MAKES[1], [2, 165])?;
    assert!(rt; wrong.is_none(), "{wrong:?}");
    Ok(())
}

#[test]
fn a_crash_in_a_load_leaves_the_state_behind_some_commands(rt: HostRuntime) -> Result<(), Fail> {
    for words in [MAKES[0], MAKES[1]] {
        for step in [1 << 20, 7] {
            let wrong = wrong_load_of_any(rt.alloc(), words, step)?;
            assert!(rt; wrong.is_none(), "in pieces of {step}: {wrong:?}");
        }
    }
    Ok(())
}

// If the input comes byte by byte, no item is complete ahead, so no change is held back.
#[test]
fn a_load_of_single_bytes_commits_each_command(rt: HostRuntime) -> Result<(), Fail> {
    for script in [&KINDS, &ONE_FILE, &TWO_FILES] {
        let station = loaded(rt.alloc(), MAKES[0], script, 1)?;
        let wrong = wrong_state(rt.alloc(), script, &station, PICK)?;
        assert!(rt; wrong.is_none(), "{wrong:?}");
    }
    Ok(())
}

// After each call of the fourth command, which puts a content.
#[test]
fn an_opening_that_is_stopped_leaves_the_state_that_it_found(rt: HostRuntime) -> Result<(), Fail> {
    let alloc = rt.alloc();
    let station = scripted(alloc, MAKES[0], &ONE_FILE)?;
    let mut stops: u32 = 0;
    for call in 0..station.calls() {
        if shown_at(&station, call) == 3 * REPLY_LEN {
            let image = crashed(alloc, &station, call, PICK)?;
            let wrong = wrong_fuse(alloc, &ONE_FILE, &image)?;
            assert!(rt; wrong.is_none(), "the call {call} and {wrong:?}");
            stops = stops.saturating_add(1);
        }
    }
    assert!(rt; stops == 9, "{stops}");
    Ok(())
}
