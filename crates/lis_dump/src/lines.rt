//! The lines of a dump, each put together before it is shown.

ghost use Rattle.std.specs.Prelude.{◌≡◌, ◌+◌, ◌*◌, ◌<◌, ◌≤◌, ◌∷◌, ◌++◌, length, codes, decimal};
ghost use Rattle.std.specs.List.{flat_map};
ghost use Rattle.lis_replay.specs.Dump.{words_line, mkdir_line, mv_lines, axiom_line};

use arrayvec::ArrayVec;
use itoa::Buffer;
use lis_limits::{MAX_LINE, MAX_WORD};
use lis_words::{Name, Word};

// A line with its line feed.
const LINE_ROOM: usize = MAX_LINE + 1;

/// Room for any line that a session takes, with its line feed. A line of a dump has at most 560 bytes.
pub type Line = ArrayVec<u8, LINE_ROOM>;

// A line so far: its first bytes.
fn begin(bytes: &[u8]) -> Line
    requires { length bytes.now ≤ 5 }
    ensures { result.items ≡ bytes.now }
{
    let mut line = ArrayVec::new();
    line.try_extend_from_slice(bytes).unwrap();
    line
}

// Appends a byte, and a word after it.
fn add_word(line: &mut Line, byte: u8, word: &[u8])
    requires { length line.old.items + length word.now < MAX_LINE + 1 }
    ensures { line.new.items ≡ line.old.items ++ byte ∷ word.now }
{
    line.push(byte);
    line.try_extend_from_slice(word).unwrap();
}

// Appends the byte, and a word after it, for each of the words.
fn add_words(line: &mut Line, byte: u8, words: &[Word])
    requires { length line.old.items + (MAX_WORD + 1) * length words.now ≤ MAX_LINE + 1 }
    ensures added { line.new.items ≡ line.old.items ++ flat_map (λ word. byte ∷ word) words.now }
    ensures short { length line.new.items ≤ length line.old.items + (MAX_WORD + 1) * length words.now }
{
    for word in words {
        add_word(line, byte, word.bytes());
    }
}

/// The line that declares a word.
pub fn mkdir_line(word: &Word) -> Line
    ensures { result.items ≡ mkdir_line word.now }
{
    let mut line = begin(b"mkdir");
    add_word(&mut line, b' ', word.bytes());
    line.push(b'\n');
    line
}

/// The line that adds a file with this many bytes and these words.
pub fn add_line(name: &Name, size: u32, words: &[Word]) -> Line
    requires { length words.now ≤ 8 }
    ensures { result.items ≡ words_line (codes "add" ∷ name.now ∷ decimal size ∷ words.now) }
{
    let mut digits = Buffer::new();
    let mut line = begin(b"add");
    add_word(&mut line, b' ', name.bytes());
    add_word(&mut line, b' ', digits.format(size).as_bytes());
    add_words(&mut line, b' ', words);
    line.push(b'\n');
    line
}

/// The line feed after a file's bytes, and then the line that assigns more words to the file, if there are any.
pub fn mv_line(name: &Name, words: &[Word]) -> Line
    requires { length words.now ≤ 8 }
    ensures { result.items ≡ 10 ∷ mv_lines name.now words.now }
{
    let Some((first, others)) = words.split_first() else {
        return begin(b"\n");
    };
    let mut line = begin(b"\nmv");
    add_word(&mut line, b' ', name.bytes());
    add_word(&mut line, b' ', first.bytes());
    add_words(&mut line, b'/', others);
    line.push(b'\n');
    line
}

/// The line of an axiom.
pub fn axiom_line(left: &Word, right: &Word) -> Line
    ensures { result.items ≡ axiom_line (left.now, right.now) }
{
    let mut line = begin(b"axiom");
    add_word(&mut line, b' ', left.bytes());
    add_word(&mut line, b' ', right.bytes());
    line.push(b'\n');
    line
}
