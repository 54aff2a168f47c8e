//! Parts of a file over images in memory: what is shown of them, and what the file has afterwards.

use crate::images::{MAKES, bytes_of, made, session, used};
use crate::tests::tables::{NOTES, NOTES_LEFT, part_cases};
use crate::tests::{Outside, SOUND, call, row_of, words_of};
use lis_memdisk::MemStation;
use lis_shell::status::Status;
use std::alloc::Global;
use std::test::Fail;

/// An edited view, some prefixes of which are edited views too.
const EDITED: &str = "@1 2;+alpha;+end;";

// The bytes of an image with the file, which these words make. The image's records are open.
fn noted(alloc: Global, words: &[&str]) -> Result<Vec<u8>, Fail> {
    used(alloc, &made(alloc, words)?, &[NOTES])
}

// What the file has.
fn left_on(alloc: Global, station: &mut MemStation) -> Result<String, Fail> {
    let (_, shown) = session(alloc, &bytes_of(alloc, station)?, "cat notes.txt;")?;
    Ok(shown)
}

/// How a part was viewed or put back, what it showed, how many bytes of the input it took, and what the file has afterwards.
#[derive(Drop)]
struct Carried {
    status: Status,
    shown: String,
    taken: usize,
    left: String,
}

fn carry_on(
    alloc: Global,
    words: &[&str],
    row: &str,
    outside: &Outside,
    station: &mut MemStation,
) -> Result<Carried, Fail> {
    let (status, taken) = call(alloc, words, row, outside, station)?;
    let shown = row_of(alloc, station.shown())?;
    let left = left_on(alloc, station)?;
    Ok(Carried {
        status,
        shown,
        taken,
        left,
    })
}

// The same over such an image.
fn carried_on(
    alloc: Global,
    image: &[u8],
    words: &[&str],
    row: &str,
    outside: &Outside,
) -> Result<Carried, Fail> {
    let mut station = MemStation::new(alloc, image, 0)?;
    carry_on(alloc, words, row, outside, &mut station)
}

/// A row of the table.
#[derive(Clone, Copy)]
struct PartCase<'a> {
    words: &'a str,
    row: &'a str,
    wanted: &'a str,
    left: &'a str,
}

impl PartCase<'_> {
    // `view` takes nothing of its input, and `put` all of it.
    fn taken(&self) -> usize {
        if self.words.starts_with("put") {
            self.row.len()
        } else {
            0
        }
    }
}

fn part_of(line: &str) -> Result<PartCase<'_>, Fail> {
    let mut fields = line.split(" => ");
    match (fields.next(), fields.next(), fields.next()) {
        (Some(words), Some(row), Some(wanted)) => Ok(PartCase {
            words,
            row,
            wanted,
            left: fields.next().unwrap_or(NOTES_LEFT),
        }),
        _ => Err("a row is too short".into()),
    }
}

#[test]
fn parts_show_and_leave_the_same_in_any_pieces(rt: HostRuntime) -> Result<(), Fail> {
    let alloc = rt.alloc();
    for (step, makes) in [(1, MAKES[0]), (7, MAKES[1]), (4_096, MAKES[0])] {
        let image = noted(alloc, makes)?;
        let outside = Outside { step, ..SOUND };
        for line in part_cases().split_terminator('\n') {
            let case = part_of(line)?;
            let words = words_of(alloc, case.words)?;
            let seen = carried_on(alloc, &image, &words, case.row, &outside)?;
            assert!(rt; seen.status == Status::DONE, "{line}");
            assert!(rt; seen.shown.as_str() == case.wanted, "{line}");
            assert!(rt; seen.taken == case.taken(), "{line}");
            assert!(rt; seen.left.as_str() == case.left, "{line}");
        }
    }
    Ok(())
}

// Whatever came of the input before it failed, nothing is shown, and the file stays.
#[test]
fn a_failing_source_leaves_the_file(rt: HostRuntime) -> Result<(), Fail> {
    let alloc = rt.alloc();
    let image = noted(alloc, MAKES[0])?;
    for place in 0..EDITED.len() {
        let outside = Outside {
            step: 1,
            fail_at: Some(place),
            ..SOUND
        };
        let words = ["put", "i", "notes.txt", "word:alpha"];
        let seen = carried_on(alloc, &image, &words, EDITED, &outside)?;
        assert!(rt; seen.status == Status::INPUT_FAULT, "at {place}");
        assert!(rt; seen.shown.is_empty(), "at {place}");
        assert!(rt; seen.left.as_str() == NOTES_LEFT, "at {place}");
    }
    Ok(())
}
