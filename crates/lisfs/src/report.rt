//! What standard error says of a run.

use crate::{path_of, usage};
use lis_model::spot::Spot;
use lis_open::OpenFault;
use lis_shell::status::{Status, status_text};
use std::io;
use std::io::{Error, Write};

// The part of an image that is damaged.
fn write_spot(error: &mut impl Write, spot: &Spot) -> io::Result<()> {
    match spot {
        Spot::Super => writeln!(error, "super block"),
        Spot::BadRecord(block) => writeln!(error, "record at block {block}"),
        Spot::Property(slot) => writeln!(error, "property slot {slot}"),
        Spot::Axiom(slot) => writeln!(error, "axiom slot {slot}"),
        Spot::File(slot) => writeln!(error, "file slot {slot}"),
        Spot::Word(slot) => writeln!(error, "unused word in property slot {slot}"),
        Spot::Bitmap(bit) => writeln!(error, "bitmap bit {bit}"),
        Spot::Row(row) => writeln!(error, "extension row {row}"),
        Spot::Set(slot) => writeln!(error, "set {slot}"),
    }
}

// The system's text of an error, without its number.
fn words_of(text: &str) -> &str {
    match text.split_once(" (os error ") {
        Some((words, _)) => words,
        None => text,
    }
}

// The line of a cause. If there is no memory for it, nothing of it is printed.
fn write_cause(
    rt: &HostRuntime,
    error: &mut impl Write,
    path: &str,
    cause: &Error,
) -> io::Result<()> {
    let text = format!(in rt.alloc(); "{cause}")?;
    writeln!(error, "{path}: {}", words_of(text.as_str()))
}

// What `--help` and `--version` request, on standard output.
fn print_parts(rt: &HostRuntime, parts: &[&[u8]]) -> io::Result<()> {
    let mut out = io::writer(rt);
    for part in parts {
        out.write_all(part)?;
    }
    Ok(())
}

// The text of a status, and after it what else is known of its cause.
fn print_status(
    rt: &HostRuntime,
    status: &Status,
    words: &[String],
    cause: Option<Error>,
) -> io::Result<()> {
    let text = status_text(status);
    if text.is_empty() {
        return Ok(());
    }
    let path = path_of(words);
    let mut error = rt.stderr();
    error.write_all(text.bytes())?;
    error.write_all(b"\n")?;
    match status {
        Status::Usage => usage::print(&mut error, words),
        Status::Opening(OpenFault::Damaged(spot)) => {
            write!(error, "{path}: ")?;
            write_spot(&mut error, spot)
        }
        Status::Opening(OpenFault::TooShort(len, need)) => {
            writeln!(error, "{path}: {len} bytes of {need}")
        }
        _ => match cause {
            Some(cause) if status.is_disk_fault() => write_cause(rt, &mut error, path, &cause),
            _ => Ok(()),
        },
    }
}

/// Prints on standard error how the program ended and why; for `--help` and `--version`, what they request, on standard output.
pub fn print(
    rt: &HostRuntime,
    status: &Status,
    words: &[String],
    cause: Option<Error>,
) -> io::Result<()> {
    match usage::asked_for(words) {
        Some(parts) => print_parts(rt, parts),
        None => print_status(rt, status, words, cause),
    }
}
