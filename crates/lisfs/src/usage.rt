//! What is wrong with words that are in no form, and what `--help` and `--version` request.

use lis_model::limits::{is_blocks_limit, is_files_limit, is_props_limit};
use lis_shell::words::FORMS;
use lis_words::{read_count, read_name};
use std::io;
use std::io::Write;

const HELP: &[u8] = b"LISFS keeps files by words, in an image that is one file or block device.

";

const RANGES: &[u8] = b"
make makes IMAGE an empty image, over whatever is there; run runs the commands of its input.
FILES is a power of two from 64 to 4096, PROPS a multiple of 64 from 64 to 8192, BLOCKS from 1 to 32768.
With v2 a file may have 1048576 bytes, and else 65536. NAME is a file, and F a formula over its lines.
With v3 FILES is up to 262144, PROPS up to 1048576, BLOCKS up to 16777216, and a file may have 4096 bytes
for each of BLOCKS, up to 67108864.
N is a number below 2147483648; grow is a trial, not for an image with files of your own.
docs/GUIDE.md is a page for users, and docs/lisfs.1 a man page.
";

const VERSION: &[u8] = b"lisfs, unreleased; images of versions 1, 2 and 3
";

/// The text that words in no form request, if they are `--help` or `--version`.
pub fn asked_for(words: &[String]) -> Option<&'static [&'static [u8]]> {
    match words {
        [word] if word.as_str() == "--help" => Some(&[HELP, FORMS, RANGES]),
        [word] if word.as_str() == "--version" => Some(&[VERSION]),
        _ => None,
    }
}

fn is_files(version: u32, word: &str) -> bool {
    match read_count(word.as_bytes()) {
        Some(files) => is_files_limit(version, files),
        None => false,
    }
}

fn is_props(version: u32, word: &str) -> bool {
    match read_count(word.as_bytes()) {
        Some(props) => is_props_limit(version, props),
        None => false,
    }
}

fn is_blocks(version: u32, word: &str) -> bool {
    match read_count(word.as_bytes()) {
        Some(blocks) => is_blocks_limit(version, blocks),
        None => false,
    }
}

// A word that is out of its range.
fn write_word(error: &mut impl Write, name: &str, word: &str, range: &str) -> io::Result<()> {
    writeln!(error, "{name} is '{word}', and has to be {range}")
}

// The ranges of FILES, PROPS and BLOCKS in a version.
fn ranges_of(version: u32) -> (&'static str, &'static str, &'static str) {
    if version == 3 {
        return (
            "a power of two from 64 to 262144",
            "a multiple of 64 from 64 to 1048576",
            "a number from 1 to 16777216",
        );
    }
    (
        "a power of two from 64 to 4096",
        "a multiple of 64 from 64 to 8192",
        "a number from 1 to 32768",
    )
}

// A number that is out of its range in the version.
fn write_number(
    error: &mut impl Write,
    version: u32,
    name: &str,
    word: &str,
    range: &str,
) -> io::Result<()> {
    writeln!(
        error,
        "{name} is '{word}', and has to be {range} in version {version}"
    )
}

fn write_numbers(
    error: &mut impl Write,
    version: u32,
    files: &str,
    props: &str,
    blocks: &str,
) -> io::Result<()> {
    let (files_range, props_range, blocks_range) = ranges_of(version);
    if !is_files(version, files) {
        write_number(error, version, "FILES", files, files_range)?;
    }
    if !is_props(version, props) {
        write_number(error, version, "PROPS", props, props_range)?;
    }
    if !is_blocks(version, blocks) {
        write_number(error, version, "BLOCKS", blocks, blocks_range)?;
    }
    Ok(())
}

// The version that a word after the limits says.
fn version_named(last: &str) -> Option<u32> {
    match last {
        "v2" => Some(2),
        "v3" => Some(3),
        _ => None,
    }
}

// What is wrong with limits. After a wrong last word they may be in any version's range.
fn write_limits(error: &mut impl Write, limits: &[String]) -> io::Result<()> {
    match limits {
        [files, props, blocks] => {
            write_numbers(error, 1, files.as_str(), props.as_str(), blocks.as_str())
        }
        [files, props, blocks, last] => {
            let named = version_named(last.as_str());
            let version = named.unwrap_or(3);
            write_numbers(
                error,
                version,
                files.as_str(),
                props.as_str(),
                blocks.as_str(),
            )?;
            if named.is_some() {
                return Ok(());
            }
            write_word(error, "the last word", last.as_str(), "v2, v3, or left out")
        }
        _ => Ok(()),
    }
}

// A NAME of `view` or `put` that is no file name.
fn write_name(error: &mut impl Write, name: &str) -> io::Result<()> {
    if read_name(name.as_bytes()).is_some() {
        return Ok(());
    }
    write_word(
        error,
        "NAME",
        name,
        "1 to 60 letters, digits and _ - . + @, and neither . nor ..",
    )
}

// Each word that is out of its range, on its own line. Nothing if there are too few words, or too many: then the form shows it.
fn write_ranges(error: &mut impl Write, words: &[String]) -> io::Result<()> {
    match words {
        [word, limits @ ..] if word.as_str() == "try" => write_limits(error, limits),
        [word, _, limits @ ..] if word.as_str() == "make" => write_limits(error, limits),
        [word, _, number] if word.as_str() == "grow" => {
            write_word(error, "N", number.as_str(), "a number from 0 to 2147483647")
        }
        [word, _, name, _] if word.as_str() == "view" || word.as_str() == "put" => {
            write_name(error, name.as_str())
        }
        _ => Ok(()),
    }
}

// Whether a line of the forms belongs to a word.
fn is_form_of(line: &[u8], word: &str) -> bool {
    match line.split(|byte| *byte == b' ').nth(1) {
        Some(name) => name == word.as_bytes(),
        None => false,
    }
}

// The forms of a word. The result says whether there is one.
fn write_forms_of(error: &mut impl Write, word: &str) -> io::Result<bool> {
    let mut is_there = false;
    for line in FORMS.split(|byte| *byte == b'\n') {
        if is_form_of(line, word) {
            error.write_all(line)?;
            error.write_all(b"\n")?;
            is_there = true;
        }
    }
    Ok(is_there)
}

/// Prints what is out of range, and the form of the word. If there is no such word, or no word at all, it prints all forms.
pub fn print(error: &mut impl Write, words: &[String]) -> io::Result<()> {
    let Some(word) = words.first() else {
        return error.write_all(FORMS);
    };
    write_ranges(error, words)?;
    if write_forms_of(error, word.as_str())? {
        return Ok(());
    }
    writeln!(error, "there is no word '{word}'")?;
    error.write_all(FORMS)
}
