//! The words of the command line.

ghost use Rattle.std.specs.Prelude.{◌≡◌, map, Some, IfSome};
ghost use Rattle.std.specs.String.{string_bytes};
ghost use Rattle.lis_words.specs.Words.{same_word};
ghost use Rattle.lis_shell.specs.Words.{limits_of, grow_number_of, version_of, limits_in, work_alone, part_named, work_named, upgrade_alone, task_with, task_of, MakesInRange, length_for};

use lis_limits::BLOCK_LEN;
use lis_model::limits::{Limits, image_blocks, is_blocks_limit, is_files_limit, is_props_limit};
use lis_words::{read_count, read_name};

/// The numbers of large sessions are below this.
const GROW_END: u64 = 1 << 31;

/// The forms of the words, one on each line.
pub const FORMS: &[u8] = b"lisfs try FILES PROPS BLOCKS [v2|v3]
lisfs make IMAGE FILES PROPS BLOCKS [v2|v3]
lisfs run IMAGE
lisfs load IMAGE
lisfs rooms IMAGE
lisfs dump IMAGE
lisfs view IMAGE NAME F
lisfs put IMAGE NAME F
lisfs upgrade IMAGE
lisfs grow IMAGE N
";

/// What the words of the command line request.
#[derive(Clone, Copy, Debug, PartialEq, Eq)]
pub enum Task {
    /// `try FILES PROPS BLOCKS`, with or without `v2` or `v3` after it: a session over a state that begins empty, of that version or of
    /// version 1.
    Try(Limits),
    /// `make IMAGE FILES PROPS BLOCKS`, with or without `v2` or `v3` after it: an empty image, of that version or of version 1.
    Make(Limits),
    /// `upgrade IMAGE`: an image of version 1 becomes one of version 2, and others stay.
    Upgrade,
    /// One work on an existing image.
    OnImage(ImageTask),
}

/// A work on an existing image.
#[derive(Clone, Copy, Debug, PartialEq, Eq)]
pub enum ImageTask {
    /// `run IMAGE`: a session.
    Run,
    /// `load IMAGE`: a session with many changes in one commit.
    Load,
    /// `rooms IMAGE`: up to eight sessions in one stream.
    Rooms,
    /// `dump IMAGE`: the session that makes the state again, as text.
    Dump,
    /// `grow IMAGE N`: the large session that is made from the number.
    Grow(u32),
    /// `view IMAGE NAME F`: the lines of a file of which a formula holds, shown.
    View,
    /// `put IMAGE NAME F`: the new bytes of a file from an edited view of it.
    Put,
}

fn is_word(word: &String, name: &[u8]) -> bool
    ensures { result ≡ same_word (string_bytes word.now) name.now }
{
    word.as_bytes() == name
}

fn limits_of(version: u32, files: &[u8], props: &[u8], blocks: &[u8]) -> Option<Limits>
    ensures { result ≡ limits_of version files.now props.now blocks.now }
{
    let files = read_count(files)?;
    let props = read_count(props)?;
    let blocks = read_count(blocks)?;
    if !is_files_limit(version, files) {
        return None;
    }
    if !is_props_limit(version, props) {
        return None;
    }
    if !is_blocks_limit(version, blocks) {
        return None;
    }
    Some(Limits {
        files: files as u32,
        props: props as u32,
        blocks: blocks as u32,
        version,
    })
}

fn grow_number_of(digits: &[u8]) -> Option<u32>
    ensures { result ≡ grow_number_of digits.now }
{
    let number = read_count(digits)?;
    if number >= GROW_END {
        return None;
    }
    Some(number as u32)
}

fn version_of(word: &String) -> Option<u32>
    ensures { result ≡ version_of (string_bytes word.now) }
{
    if is_word(word, b"v2") {
        return Some(2);
    }
    if is_word(word, b"v3") {
        return Some(3);
    }
    None
}

fn limits_in(words: &[String]) -> Option<Limits>
    ensures { result ≡ limits_in (map string_bytes words.now) }
{
    match words {
        [files, props, blocks] => {
            limits_of(1, files.as_bytes(), props.as_bytes(), blocks.as_bytes())
        }
        [files, props, blocks, last] => {
            let version = version_of(last)?;
            limits_of(
                version,
                files.as_bytes(),
                props.as_bytes(),
                blocks.as_bytes(),
            )
        }
        _ => None,
    }
}

fn work_alone(word: &String) -> Option<ImageTask>
    ensures { result ≡ work_alone (string_bytes word.now) }
{
    if is_word(word, b"run") {
        return Some(ImageTask::Run);
    }
    if is_word(word, b"load") {
        return Some(ImageTask::Load);
    }
    if is_word(word, b"rooms") {
        return Some(ImageTask::Rooms);
    }
    if is_word(word, b"dump") {
        return Some(ImageTask::Dump);
    }
    None
}

fn part_named(word: &String, name: &String) -> Option<ImageTask>
    ensures { result ≡ part_named (string_bytes word.now) (string_bytes name.now) }
{
    let _name = read_name(name.as_bytes())?;
    if is_word(word, b"view") {
        return Some(ImageTask::View);
    }
    if is_word(word, b"put") {
        return Some(ImageTask::Put);
    }
    None
}

fn work_named(word: &String, words: &[String]) -> Option<ImageTask>
    ensures { result ≡ work_named (string_bytes word.now) (map string_bytes words.now) }
{
    match words {
        [] => work_alone(word),
        [number] => {
            if !is_word(word, b"grow") {
                return None;
            }
            let number = grow_number_of(number.as_bytes())?;
            Some(ImageTask::Grow(number))
        }
        [name, _] => part_named(word, name),
        _ => None,
    }
}

fn upgrade_alone(words: &[String]) -> Option<Task>
    ensures { result ≡ upgrade_alone (map string_bytes words.now) }
{
    if !words.is_empty() {
        return None;
    }
    Some(Task::Upgrade)
}

fn task_with(word: &String, words: &[String]) -> Option<Task>
    ensures { result ≡ task_with (string_bytes word.now) (map string_bytes words.now) }
{
    if is_word(word, b"make") {
        let limits = limits_in(words)?;
        return Some(Task::Make(limits));
    }
    if is_word(word, b"upgrade") {
        return upgrade_alone(words);
    }
    let work = work_named(word, words)?;
    Some(Task::OnImage(work))
}

/// What the words after the program's name request. The result is `None` exactly if they are in none of the forms, or a number is out of
/// range.
pub fn task_of(words: &[String]) -> Option<Task>
    ensures task { result ≡ task_of (map string_bytes words.now) }
    ensures range { IfSome result MakesInRange }
{
    match words {
        [word, _, ..] => {
            if !is_word(word, b"try") {
                return task_with(word, &words[2..]);
            }
            let limits = limits_in(&words[1..])?;
            Some(Task::Try(limits))
        }
        _ => None,
    }
}

/// How many bytes the image takes that the task makes. The result is `None` exactly if it makes none.
pub fn make_len(task: &Task) -> Option<u64>
    requires { MakesInRange task.now }
    ensures { result ≡ length_for (Some task.now) }
{
    match task {
        Task::Make(limits) => Some(u64::from(image_blocks(limits)) * BLOCK_LEN as u64),
        _ => None,
    }
}
