//! Inputs and their items, worked out by hand. In rows `;` means a line feed and `^` a carriage return.

use lis_line::reader::{Item, LineReader, Payload};
use lis_model::command::Command;
use lis_model::refusal::number;
use lis_ports::MemSource;
use std::alloc::{AllocError, Global};
use std::test::Fail;

/// An input, its limit, and its items: `add` or `write` with its payload's size and bytes, another command, the number of a refusal,
/// `end` or `limit`.
fn inputs() -> &'static [(&'static str, u64, &'static str)] {
    &[
        ("add a 3;a;b;rm a;", 99, "add 3 a;b,other,end,"),
        ("add a 3 x y;^^^;cat a", 99, "add 3 ^^^,other,end,"),
        ("add a 0;;ls;", 99, "add 0 ,other,end,"),
        ("add a 0", 99, "add 0 ,end,"),
        ("add a 0;", 99, "add 0 ,end,"),
        ("add a 2;ab", 99, "add 2 ab,end,"),
        ("add a 1", 99, "3,end,"),
        ("add a 3;a;", 99, "3,end,"),
        ("add a 1;ab;ls;", 99, "4,other,end,"),
        ("add a 1;a^;ls;", 99, "4,other,end,"),
        ("add a 1;ab", 99, "4,end,"),
        ("add . 1;a;add a 1 b/c;a;", 99, "1,1,end,"),
        (
            "write a 1;a;write a 1;ab;write a 1 b;c;",
            99,
            "write 1 a,4,1,end,",
        ),
        (
            "rmdir b;axiom b c:;unaxiom b: c;axiom b;mv a ..;mv a",
            99,
            "other,other,other,1,other,1,end,",
        ),
        (
            "rename a b;rename a;props a;props;way a;stat;stat a",
            99,
            "other,1,other,1,other,other,1,end,",
        ),
        ("add a x;ls;add a;ls;", 99, "1,other,1,other,end,"),
        (
            "add a 1 b b b b b b b b b b b b b b b b b;c;ls",
            99,
            "18,other,end,",
        ),
        ("rm;rm a b;cat;cat .;cat a^", 99, "1,1,1,1,other,end,"),
        ("add a 1;b;", 10, "add 1 b,end,"),
        ("add a 1;b;", 9, "limit,"),
        ("add a 1;b;", 8, "limit,"),
        ("add a 1;bc;ls;", 11, "4,limit,"),
        ("add a 1;bc;ls;", 10, "limit,"),
        ("ls;add a 0", 10, "other,add 0 ,end,"),
        ("ls;add a 0;", 10, "other,limit,"),
        ("add a 999999999999;a", 99, "3,end,"),
        // Tests are words of a line. With a leading zero a word is no test.
        (
            "mkdir size>=0;rmdir size<12;axiom size>=1 b;mkdir size>=01;",
            99,
            "other,other,other,1,end,",
        ),
        (
            "create a size<1;add a 0 size>=1;;mkdir size>1;mkdir size>=;",
            99,
            "other,add 0 ,1,1,end,",
        ),
    ]
}

fn byte_of(sign: u8) -> u8 {
    match sign {
        b';' => b'\n',
        b'^' => b'\r',
        byte => byte,
    }
}

fn input_of(alloc: Global, row: &str, step: usize) -> Result<MemSource, AllocError> {
    Ok(MemSource {
        bytes: row.bytes().map(byte_of).collect(alloc)?,
        place: 0,
        step: step.max(1),
        fail_at: None,
        faults: 0,
        behind: 0,
    })
}

fn note_payload(row: &mut String, name: &str, payload: &Payload) -> Result<(), AllocError> {
    write!(row, "{name} {} ", payload.size())?;
    for byte in payload.bytes() {
        row.push(match *byte {
            b'\n' => ';',
            b'\r' => '^',
            byte => char::from(byte),
        })?;
    }
    row.push(',')
}

fn note(row: &mut String, item: &Item, payload: &Payload) -> Result<(), AllocError> {
    match item {
        Item::Command(Command::Add(_, _)) => note_payload(row, "add", payload),
        Item::Command(Command::Write(_)) => note_payload(row, "write", payload),
        Item::Command(_) => row.push_str("other,"),
        Item::Bad(refusal) => write!(row, "{},", number(refusal)),
        Item::End => row.push_str("end,"),
        Item::Limit => row.push_str("limit,"),
    }
}

// What is needed to read an input, and what was seen of it.
#[derive(Drop)]
struct Reading {
    reader: LineReader,
    input: MemSource,
    payload: Payload,
    seen: String,
}

impl Reading {
    fn new(alloc: Global, row: &str, limit: u64, step: usize) -> Result<Reading, AllocError> {
        Ok(Reading {
            reader: LineReader::new(limit.min(99)),
            input: input_of(alloc, row, step)?,
            seen: String::new(alloc),
            payload: Payload::new(alloc)?,
        })
    }

    // Notes each item, up to the last one.
    fn note_all(&mut self) -> Result<(), AllocError> {
        for _ in 0..99 {
            if self.reader.is_ended() {
                break;
            }
            match self.reader.next(&mut self.input, &mut self.payload) {
                Ok(item) => note(&mut self.seen, &item, &self.payload)?,
                Err(_) => self.seen.push_str("fault,")?,
            }
        }
        Ok(())
    }
}

fn items(alloc: Global, row: &str, limit: u64, step: usize) -> Result<String, AllocError> {
    let mut reading = Reading::new(alloc, row, limit, step)?;
    reading.note_all()?;
    Ok(reading.seen)
}

#[test]
fn items_are_the_same_in_any_pieces(rt: HostRuntime) -> Result<(), Fail> {
    for (row, limit, wanted) in inputs() {
        for step in [1, 2, 4_096] {
            let seen = items(rt.alloc(), row, *limit, step)?;
            assert!(rt; seen.as_str() == *wanted, "{row}");
        }
    }
    Ok(())
}
