//! The first failing call is the last one, on any object, in every word of the program.

use crate::images::{fresh, used};
use crate::tests::{Outside, SOUND, run_program, source};
use lis_memdisk::MemStation;
use lis_shell::status::Status;
use std::alloc::Global;
use std::test::Fail;

mod log;

use log::{Kind, Log, LoggedSource, LoggedStation};

/// More calls of a kind than any of the words makes.
const MANY_CALLS: u64 = 1_000;

/// The source gives, and the station takes, so few bytes a call that there are many calls.
const OUTSIDE: Outside = Outside { step: 7, ..SOUND };

const SHOW_STEP: usize = 7;

/// A row of the table: words of the program, a session that makes the image with which they begin, the input, and the kinds of calls that
/// they make.
#[derive(Clone, Copy)]
struct Case<'a> {
    words: &'a str,
    before: &'a str,
    row: &'a str,
    kinds: &'a str,
}

fn case_of(line: &str) -> Result<Case<'_>, Fail> {
    let mut fields = line.split(" => ");
    match (fields.next(), fields.next(), fields.next(), fields.next()) {
        (Some(words), Some(before), Some(row), Some(kinds)) => Ok(Case {
            words,
            before,
            row,
            kinds,
        }),
        _ => Err("a row is too short".into()),
    }
}

/// The session leaves open records, so the opening writes them to their homes. For `grow` there is room only for the words of the first
/// lines: no more files are made.
fn cases() -> &'static str {
    "\
try|64|64|8 =>  => mkdir music;create a music;add m 5;hello;frob;ls;cat m;cd music;pwd;props a;way a;stat;rm a;ls => take,show
make|i|64|64|8 => mkdir old;create o old; => ls; => disk
make|i|64|64|8|v2 => mkdir old;create o old; => ls; => disk
run|i => mkdir old;create o old; => mkdir music;mkdir rock;create s1 rock;add m 5 music;hello;axiom rock music;ls;cat m;frob;write m 2;hi;rename s1 s2.c;cd music;pwd;props m;way m;stat;cd /;unaxiom rock music;mv s2.c /music;rm m;rmdir nosuch;ls => take,disk,show
load|i => mkdir old;create o old; => mkdir music;mkdir rock;create s1 rock;add m 5 music;hello;axiom rock music;ls;cat m;frob;write m 2;hi;rename s1 s2.c;cd music;stat;unaxiom rock music;rm m;rmdir nosuch;ls => take,disk,show
rooms|i => mkdir old;create o old; => @0 cd old;@7 mkdir music;@0 create p music;@0 pwd;@7 pwd;@7 ls;@3;ls;@1 add m 5 music;hello;@0 cat m;@7 rm o;@0 way p;@1 stat => take,disk,show
dump|i => mkdir old;mkdir k:;mkdir new;axiom old new;create o old;add f 5 k:1 k:2 k:3 k:4 k:5 k:6 k:7 k:8 k:9;hello; => ls; => disk,show
view|i|notes.txt|word:alpha => mkdir old;add notes.txt 25 old;alpha one;beta;;alpha two; => ls; => disk,show
put|i|notes.txt|word:alpha => mkdir old;add notes.txt 25 old;alpha one;beta;;alpha two; => +alpha 1;@1 2;+alpha 2;+end; => take,disk,show
upgrade|i => mkdir old;create o old; => ls; => disk
grow|i|7 => mkdir k:;create a k:10 k:11 k:12 k:13 k:14 k:15 k:16 k:17 k:18 k:19 k:20 k:21 k:22 k:23 k:24 k:25;create b k:26 k:27 k:28 k:29 k:30 k:31 k:32 k:33 k:34 k:35 k:36 k:37 k:38 k:39 k:40 k:41;create c k:42 k:43 k:44 k:45 k:46 k:47; => ls; => disk,show
"
}

/// How words ended one of whose calls was to fail: how many calls there were on both objects, and the number of the failed one.
#[derive(Clone, Copy)]
struct Ended {
    status: Status,
    calls: u64,
    failed: u64,
}

// What the words do if the call fails that the log selects.
fn carried(
    alloc: Global,
    words: &[String],
    image: &[u8],
    row: &str,
    log: &Log,
) -> Result<Ended, Fail> {
    let mut input = LoggedSource {
        source: source(alloc, row, &OUTSIDE)?,
        log,
    };
    let mut station = LoggedStation {
        station: MemStation::new(alloc, image, 0)?,
        log,
    };
    station.station.step = SHOW_STEP;
    let status = run_program(alloc, words, &mut input, &mut station);
    Ok(Ended {
        status,
        calls: log.calls(),
        failed: log.failed(),
    })
}

// Whether the status is that of a fault of this kind.
fn is_named(status: &Status, kind: Kind) -> bool {
    match kind {
        Kind::Take => *status == Status::INPUT_FAULT,
        Kind::Disk => status.is_disk_fault(),
        Kind::Show => *status == Status::OUTPUT_FAULT,
    }
}

// The same for this call of a kind.
fn carried_up_to(
    alloc: Global,
    words: &[String],
    image: &[u8],
    row: &str,
    (kind, fails): (Kind, u64),
) -> Result<Ended, Fail> {
    let log = Log::new(kind, fails);
    carried(alloc, words, image, row, &log)
}

// The first call of this kind that fails and is not the last one on both objects, or ends the words with another status. The result is 0 if
// there is none, and the words make calls of this kind exactly if they should.
fn wrong_call(
    alloc: Global,
    words: &[String],
    image: &[u8],
    case: &Case,
    kind: Kind,
) -> Result<u64, Fail> {
    for fails in 1..MANY_CALLS {
        let ended = carried_up_to(alloc, words, image, case.row, (kind, fails))?;
        if ended.failed == 0 && ended.status == Status::DONE {
            let is_made = case.kinds.contains(kind.name());
            return Ok(if is_made == (fails > 1) { 0 } else { fails });
        }
        if ended.failed != ended.calls || !is_named(&ended.status, kind) {
            return Ok(fails);
        }
    }
    Err("the words make more calls".into())
}

// The same for the words over their image, whose records are open.
fn first_wrong(alloc: Global, case: &Case, kind: Kind) -> Result<u64, Fail> {
    let mut words = Vec::new(alloc);
    for name in case.words.split('|') {
        words.push(String::from_str(alloc, name)?)?;
    }
    let image = used(alloc, &fresh(alloc)?, &[case.before])?;
    wrong_call(alloc, &words, &image, case, kind)
}

// It catches a body that mounts again after a failed sync, and one that takes or shows after it.
#[test]
fn nothing_is_mounted_again_behind_a_failed_sync(rt: HostRuntime) -> Result<(), Fail> {
    for line in cases().split_terminator('\n') {
        let wrong = first_wrong(rt.alloc(), &case_of(line)?, Kind::Disk)?;
        assert!(rt; wrong == 0, "{line}");
    }
    Ok(())
}

// It also catches one that takes input again after an input fault, and one that shows or changes more.
#[test]
fn nothing_is_taken_again_behind_a_fault_of_the_input(rt: HostRuntime) -> Result<(), Fail> {
    for line in cases().split_terminator('\n') {
        let wrong = first_wrong(rt.alloc(), &case_of(line)?, Kind::Take)?;
        assert!(rt; wrong == 0, "{line}");
    }
    Ok(())
}

#[test]
fn nothing_is_done_behind_a_failed_show(rt: HostRuntime) -> Result<(), Fail> {
    for line in cases().split_terminator('\n') {
        let wrong = first_wrong(rt.alloc(), &case_of(line)?, Kind::Show)?;
        assert!(rt; wrong == 0, "{line}");
    }
    Ok(())
}
