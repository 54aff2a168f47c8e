//! What a session shows for its input, in whatever pieces it comes, and how it ends. In rows `;` means a line feed, `^` a carriage return,
//! `~` a tab and `%` a semicolon.

ghost use Rattle.std.specs.Prelude.{◌≡◌};
ghost use Rattle.lis_memdisk.specs.MemStation.{meaning_of};

use lis_line::reader::Payload;
use lis_memdisk::MemStation;
use lis_model::limits::Limits;
use lis_plain::plain::Plain;
use lis_ports::{MemSource, Source, Station};
use lis_shell::session::try_session;
use lis_shell::status::Status;
use lis_shell::top::lisfs;
use std::alloc::{AllocError, Global};
use std::test::Fail;

pub mod tables;

use tables::{
    CUT_SESSIONS, Cut, LARGE_FILES, V3_FILES, failing_shows, long_lines, right_words, sessions,
    wrong_words,
};

/// The words of most sessions.
static WORDS: [&str; 4] = ["try", "64", "64", "8"];

/// The words of a session in each version, and the pieces in which its input comes.
static PIECES: [(&[&str], usize); 7] = [
    (&["try", "64", "64", "8"], 1),
    (&["try", "64", "64", "8"], 2),
    (&["try", "64", "64", "8"], 3),
    (&["try", "64", "64", "8"], 7),
    (&["try", "64", "64", "8"], 4_096),
    (&["try", "64", "64", "8", "v2"], 4_096),
    (&["try", "64", "64", "8", "v3"], 4_096),
];

/// How the source and the station behave: how many bytes one call of the source gives, the offset at which it fails, how many bytes one
/// call shows, and the number of the show call that fails, 0 for none.
#[derive(Clone, Copy)]
pub struct Outside {
    pub step: usize,
    pub fail_at: Option<usize>,
    pub show_step: usize,
    pub show_fails: u64,
}

/// Nothing fails, and pieces are large.
pub static SOUND: Outside = Outside {
    step: 4_096,
    fail_at: None,
    show_step: 65_536,
    show_fails: 0,
};

/// How a session ended.
#[derive(Drop)]
struct Seen {
    status: Status,
    shown: String,
    taken: usize,
    calls: u64,
}

pub fn bytes_of(alloc: Global, row: &str) -> Result<Vec<u8>, AllocError> {
    let mut bytes = Vec::new(alloc);
    for byte in row.bytes() {
        bytes.push(match byte {
            b';' => b'\n',
            b'^' => b'\r',
            b'~' => b'\t',
            b'%' => b';',
            _ => byte,
        })?;
    }
    Ok(bytes)
}

pub fn row_of(alloc: Global, bytes: &[u8]) -> Result<String, AllocError> {
    let mut row = String::new(alloc);
    for byte in bytes {
        row.push(match *byte {
            b'\n' => ';',
            b'\r' => '^',
            byte => char::from(byte),
        })?;
    }
    Ok(row)
}

/// The words of a line, separated by `|`; an empty line has none.
pub fn words_of(alloc: Global, line: &str) -> Result<Vec<&str>, AllocError> {
    let mut words = Vec::new(alloc);
    if !line.is_empty() {
        for word in line.split('|') {
            words.push(word)?;
        }
    }
    Ok(words)
}

pub fn source(alloc: Global, row: &str, outside: &Outside) -> Result<MemSource, AllocError> {
    Ok(MemSource {
        bytes: bytes_of(alloc, row)?,
        place: 0,
        step: outside.step.max(1),
        fail_at: outside.fail_at,
        faults: 0,
        behind: 0,
    })
}

fn station(alloc: Global, outside: &Outside) -> Result<MemStation, AllocError> {
    let mut station = MemStation::new(alloc, b"", 0)?;
    station.step = outside.show_step.max(1);
    station.show_fails.push(outside.show_fails)?;
    Ok(station)
}

/// The program over any input and any station, since otherwise each step of its check holds what is known of those in memory. Its clause
/// passes on only that a recorded station stays recorded.
pub fn run_program<S: Source, T: Station>(
    alloc: Global,
    words: &[String],
    input: &mut S,
    station: &mut T,
) -> Status
    ensures { (T.meaning station.new).is_recorded ≡ (T.meaning station.old).is_recorded }
{
    lisfs(alloc, words, input, station)
}

/// How a call of the program ends, and how many bytes of the input it took.
pub fn call(
    alloc: Global,
    words: &[&str],
    row: &str,
    outside: &Outside,
    station: &mut MemStation,
) -> Result<(Status, usize), AllocError>
    ensures recorded { (meaning_of station.new).is_recorded ≡ (meaning_of station.old).is_recorded }
{
    let mut owned = Vec::new(alloc);
    for word in words {
        owned.push(String::from_str(alloc, word)?)?;
    }
    let mut input = source(alloc, row, outside)?;
    let status = run_program(alloc, &owned, &mut input, station);
    Ok((status, input.place))
}

fn run(alloc: Global, words: &[&str], row: &str, outside: &Outside) -> Result<Seen, AllocError> {
    let mut station = station(alloc, outside)?;
    let (status, taken) = call(alloc, words, row, outside, &mut station)?;
    let shown = row_of(alloc, station.shown())?;
    Ok(Seen {
        status,
        shown,
        taken,
        calls: station.calls(),
    })
}

// Whether the session is done, has taken all of its input, and made no disk call.
fn is_whole(seen: &Seen, row: &str) -> bool {
    seen.status == Status::DONE && seen.taken == row.len() && seen.calls == 0
}

// The sessions are done. No clause can say that there is memory, so a body that always runs out of memory would be proved.
#[test]
fn sessions_show_the_same_in_any_pieces(rt: HostRuntime) -> Result<(), Fail> {
    for line in sessions().split_terminator('\n') {
        let Some((row, wanted)) = line.split_once(" => ") else {
            assert!(rt; line.starts_with("# "), "{line}");
            continue;
        };
        for (words, step) in &PIECES {
            let outside = Outside {
                step: *step,
                ..SOUND
            };
            let seen = run(rt.alloc(), words, row, &outside)?;
            assert!(rt; seen.shown.as_str() == wanted, "{row}");
            assert!(rt; is_whole(&seen, row), "{row}");
        }
    }
    Ok(())
}

fn long_row(alloc: Global, count: usize, behind: &str) -> Result<String, AllocError> {
    let mut row = String::new(alloc);
    for _ in 0..count {
        row.push('a')?;
    }
    row.push_str(behind)?;
    Ok(row)
}

/// A line that adds a file of this many bytes, and the bytes.
pub fn push_file(row: &mut String, line: &str, size: usize) -> Result<(), AllocError> {
    row.push_str(line)?;
    for _ in 0..size {
        row.push('x')?;
    }
    row.push(';')?;
    Ok(())
}

/// Lines that add files of these names and sizes, and what follows them.
pub fn files_row(
    alloc: Global,
    files: &[(&str, usize)],
    behind: &str,
) -> Result<String, AllocError> {
    let mut row = String::new(alloc);
    for (name, size) in files {
        let line = format!(in alloc; "add {name} {size};")?;
        push_file(&mut row, line.as_str(), *size)?;
    }
    row.push_str(behind)?;
    Ok(row)
}

#[test]
fn files_are_as_large_as_there_are_blocks(rt: HostRuntime) -> Result<(), Fail> {
    for (words, files, behind, wanted) in &LARGE_FILES {
        let row = files_row(rt.alloc(), files, behind)?;
        let seen = run(rt.alloc(), words, row.as_str(), &SOUND)?;
        assert!(rt; seen.shown.as_str() == *wanted, "{words:?}");
    }
    Ok(())
}

#[test]
fn files_of_version_3_are_as_large_as_its_blocks(rt: HostRuntime) -> Result<(), Fail> {
    for (words, files, behind, wanted) in &V3_FILES {
        let row = files_row(rt.alloc(), files, behind)?;
        let seen = run(rt.alloc(), words, row.as_str(), &SOUND)?;
        assert!(rt; seen.shown.as_str() == *wanted, "{words:?}");
    }
    Ok(())
}

// Two files of about 1,000 bytes, listed by their size, and what is shown.
fn sized_row(alloc: Global) -> Result<(String, &'static str), AllocError> {
    let mut row = String::new(alloc);
    push_file(&mut row, "add a 1000;", 1_000)?;
    push_file(&mut row, "add b 999;", 999)?;
    row.push_str("cd size>=1000;ls;write a 0;;ls;cd /;props a;")?;
    Ok((row, "ok;ok;ok;f a;ok;ok;ok;ok;p size:;p size:empty;ok;"))
}

// Two tests that are declared, files that meet none, one and both of them, and what is shown.
fn tested_row(alloc: Global) -> Result<(String, &'static str), AllocError> {
    let mut row = String::new(alloc);
    row.push_str("mkdir size>=100;mkdir size>=1000;add a 0;;")?;
    push_file(&mut row, "add b 500;", 500)?;
    push_file(&mut row, "add c 5000;", 5_000)?;
    row.push_str(
        "ls;cd size>=100;ls;cd /;mkdir big;axiom size>=1000 big;props c;rmdir size>=1000;unaxiom size>=1000 big;rmdir size>=1000;create d size>=100;mkdir size>=0100;mkdir size>=100;",
    )?;
    Ok((
        row,
        "ok;ok;ok;ok;ok;d size:empty;d size:medium;d size:small;d size>=100;ok;ok;d size:medium;d size:small;d size>=1000;ok;ok;ok;ok;p big;p size:;p size:medium;p size>=100;p size>=1000;ok;no 13 in use;ok;ok;no 14 not assignable;no 01 bad line;no 11 already declared;",
    ))
}

// Files that each have their own suffix, one more than there is room for their words, and what is shown.
fn crowded_row(alloc: Global) -> Result<(String, String), AllocError> {
    let mut row = String::new(alloc);
    let mut wanted = String::new(alloc);
    for n in 11..72 {
        row.push_str(format!(in alloc; "create f{n}.e{n};")?.as_str())?;
        wanted.push_str("ok;")?;
    }
    row.push_str("create f72.e72;mkdir music;rm f71.e71;mkdir music;")?;
    wanted.push_str("no 22 no property room;no 22 no property room;ok;ok;")?;
    Ok((row, wanted))
}

/// Sessions whose rows are put together, and what is shown of each: with long lines, and with words by size and by name that appear and
/// disappear.
pub fn built_sessions(alloc: Global) -> Result<Vec<(String, String)>, AllocError> {
    let mut sessions = Vec::new(alloc);
    for (count, behind, wanted) in long_lines() {
        let row = long_row(alloc, *count, behind)?;
        sessions.push((row, String::from_str(alloc, wanted)?))?;
    }
    let (row, wanted) = sized_row(alloc)?;
    sessions.push((row, String::from_str(alloc, wanted)?))?;
    let (row, wanted) = tested_row(alloc)?;
    sessions.push((row, String::from_str(alloc, wanted)?))?;
    sessions.push(crowded_row(alloc)?)?;
    Ok(sessions)
}

#[test]
fn sessions_of_long_lines_and_many_words_show_the_same(rt: HostRuntime) -> Result<(), Fail> {
    for (row, wanted) in &built_sessions(rt.alloc())? {
        let seen = run(rt.alloc(), &WORDS, row.as_str(), &SOUND)?;
        assert!(rt; seen.shown.as_str() == wanted.as_str(), "{row}");
    }
    Ok(())
}

// Whether nothing was taken or shown, and no disk call was made.
fn is_untouched(seen: &Seen) -> bool {
    seen.shown.is_empty() && seen.taken == 0 && seen.calls == 0
}

#[test]
fn wrong_words_are_refused_before_anything_is_taken_or_shown(rt: HostRuntime) -> Result<(), Fail> {
    for line in wrong_words().split_terminator('\n') {
        let words = words_of(rt.alloc(), line)?;
        let seen = run(rt.alloc(), &words, "mkdir a;", &SOUND)?;
        assert!(rt; seen.status == Status::Usage, "{line}");
        assert!(rt; is_untouched(&seen), "{line}");
    }
    Ok(())
}

#[test]
fn right_words_are_carried_out(rt: HostRuntime) -> Result<(), Fail> {
    for line in right_words().split_terminator('\n') {
        let words = words_of(rt.alloc(), line)?;
        let seen = run(rt.alloc(), &words, "mkdir a;", &SOUND)?;
        assert!(rt; seen.status == Status::DONE, "{line}");
        assert!(rt; seen.shown.as_str() == "ok;", "{line}");
    }
    Ok(())
}

// At one byte a call it is known what was shown: one byte for each call before the failed one.
#[test]
fn a_failing_show_ends_behind_a_front_of_the_replies(rt: HostRuntime) -> Result<(), Fail> {
    for (show_fails, shown, status) in failing_shows() {
        let outside = Outside {
            show_step: 1,
            show_fails: *show_fails,
            ..SOUND
        };
        let seen = run(rt.alloc(), &WORDS, "create a;create b;ls;", &outside)?;
        assert!(rt; seen.shown.as_str() == *shown, "the call {show_fails}");
        assert!(rt; seen.status == *status, "the call {show_fails}");
    }
    Ok(())
}

#[test]
fn a_failing_show_ends_with_its_fault(rt: HostRuntime) -> Result<(), Fail> {
    let outside = Outside {
        show_fails: 2,
        ..SOUND
    };
    let seen = run(rt.alloc(), &WORDS, "create a;create b;ls;", &outside)?;
    assert!(rt; seen.status == Status::OUTPUT_FAULT);
    assert!(rt; "ok;".starts_with(seen.shown.as_str()));
    Ok(())
}

fn go_on(
    alloc: Global,
    plain: &mut Plain,
    limit: u64,
    row: &str,
    outside: &Outside,
) -> Result<Seen, AllocError> {
    let mut payload = Payload::new(alloc)?;
    let mut input = source(alloc, row, outside)?;
    let mut station = station(alloc, outside)?;
    let status = try_session(plain, &mut payload, &mut input, &mut station, limit.min(99));
    let shown = row_of(alloc, station.shown())?;
    Ok(Seen {
        status,
        shown,
        taken: input.place,
        calls: station.calls(),
    })
}

// A session that is cut off, and a second one on the state that it left.
fn seen_both(alloc: Global, case: &Cut) -> Result<(Seen, Seen), Fail> {
    let limits = Limits {
        files: 64,
        props: 64,
        blocks: 8,
        version: 1,
    };
    let (limit, step, fail_at, (row, _, _), (then, _)) = case;
    let mut plain = Plain::new(alloc, &limits)?;
    let outside = Outside {
        step: *step,
        fail_at: *fail_at,
        ..SOUND
    };
    let first = go_on(alloc, &mut plain, *limit, row, &outside)?;
    let second = go_on(alloc, &mut plain, 99, then, &SOUND)?;
    Ok((first, second))
}

// The replies to a second session on the same state show what a session left.
#[test]
fn a_cut_session_leaves_what_it_had_carried_out(rt: HostRuntime) -> Result<(), Fail> {
    for case in &CUT_SESSIONS {
        let (_, _, _, (row, shown, status), (then, then_shown)) = case;
        let (seen, behind) = seen_both(rt.alloc(), case)?;
        assert!(rt; seen.status == *status, "{row}");
        assert!(rt; seen.shown.as_str() == *shown, "{row}");
        assert!(rt; behind.status == Status::DONE, "{then} after {row}");
        assert!(rt; behind.shown.as_str() == *then_shown, "{then} after {row}");
    }
    Ok(())
}
