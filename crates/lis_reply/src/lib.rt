//! The bytes of replies, shown on a station.
#![tactic(auto)]

ghost use Rattle.std.specs.Prelude.{◌≡◌, ◌+◌, ◌≤◌, ◌∷◌, ◌++◌, length, decimal};
ghost use Rattle.lis_ports.specs.Since.{IsShowRun};
ghost use Rattle.lis_model.specs.Replies.{line, body_line, ok_line, refusal_line, number_line};

use arrayvec::ArrayVec;
use itoa::Buffer;
use lis_model::refusal::Refusal;
use lis_ports::{Failed, Station};

/// Shows all of the bytes. It fails with `Failed` only if the station counted a show fault; a prefix was shown then.
pub fn show_all<T: Station>(station: &mut T, bytes: &[u8]) -> Result<(), Failed>
    ensures { IsShowRun (T.meaning station.old) (T.meaning station.new) bytes.now result }
{
    let mut place = 0;
    while place < bytes.len() {
        let (_, left) = bytes.split_at(place);
        let count = station.show(left)?;
        place += count;
    }
    Ok(())
}

/// The longest text of a line that is shown in one call.
const MAX_TEXT: usize = 1_100;

/// The longest prefix, before the blank, of such a line.
const MAX_FRONT: usize = 60;

fn line_of(front: &[u8], text: &[u8]) -> ArrayVec<u8, 1168>
    requires { length front.now + length text.now ≤ MAX_TEXT + 66 }
    ensures { result.items ≡ line (front.now ++ 32 ∷ text.now) }
{
    let mut line = ArrayVec::new();
    line.try_extend_from_slice(front).unwrap();
    line.push(b' ');
    line.try_extend_from_slice(text).unwrap();
    line.push(b'\n');
    line
}

fn show_long<T: Station>(station: &mut T, front: &[u8], text: &[u8]) -> Result<(), Failed>
    ensures { IsShowRun (T.meaning station.old) (T.meaning station.new) (line (front.now ++ 32 ∷ text.now)) result }
{
    show_all(station, front)?;
    show_all(station, b" ")?;
    show_all(station, text)?;
    show_all(station, b"\n")
}

// It makes one call if the line is short enough to be put together first.
fn show_spaced<T: Station>(station: &mut T, front: &[u8], text: &[u8]) -> Result<(), Failed>
    ensures { IsShowRun (T.meaning station.old) (T.meaning station.new) (line (front.now ++ 32 ∷ text.now)) result }
{
    if front.len() > MAX_FRONT {
        return show_long(station, front, text);
    }
    if text.len() > MAX_TEXT {
        return show_long(station, front, text);
    }
    let line = line_of(front, text);
    show_all(station, line.as_slice())
}

/// Shows a body line: the letter, a blank, the bytes and a line feed.
pub fn show_line<T: Station>(station: &mut T, letter: u8, bytes: &[u8]) -> Result<(), Failed>
    ensures { IsShowRun (T.meaning station.old) (T.meaning station.new) (body_line letter bytes.now) result }
{
    show_spaced(station, &[letter], bytes)
}

/// Shows a label, a blank, the number in decimal and a line feed.
pub fn show_number<T: Station>(station: &mut T, label: &[u8], n: u64) -> Result<(), Failed>
    ensures { IsShowRun (T.meaning station.old) (T.meaning station.new) (number_line label.now n) result }
{
    let mut buffer = Buffer::new();
    show_spaced(station, label, buffer.format(n).as_bytes())
}

/// Shows the line `ok`.
pub fn show_ok<T: Station>(station: &mut T) -> Result<(), Failed>
    ensures { IsShowRun (T.meaning station.old) (T.meaning station.new) ok_line result }
{
    show_all(station, b"ok\n")
}

fn refusal_text(refusal: &Refusal) -> &'static [u8]
    ensures { result.now ≡ refusal_line refusal.now }
{
    match refusal {
        Refusal::BadLine => b"no 01 bad line\n",
        Refusal::LongLine => b"no 02 long line\n",
        Refusal::CutPayload => b"no 03 cut payload\n",
        Refusal::PayloadEnd => b"no 04 payload end\n",
        Refusal::BadFormula => b"no 05 formula\n",
        Refusal::UnknownProperty => b"no 06 unknown property\n",
        Refusal::LargeFormula => b"no 07 formula too large\n",
        Refusal::NotAPlace => b"no 08 not a place\n",
        Refusal::NameTaken => b"no 09 name taken\n",
        Refusal::NoFileHere => b"no 10 no such file here\n",
        Refusal::AlreadyDeclared => b"no 11 already declared\n",
        Refusal::NotDeclared => b"no 12 not declared\n",
        Refusal::InUse => b"no 13 in use\n",
        Refusal::NotAssignable => b"no 14 not assignable\n",
        Refusal::Cycle => b"no 15 cycle\n",
        Refusal::AxiomThere => b"no 16 axiom there\n",
        Refusal::NoAxiom => b"no 17 no such axiom\n",
        Refusal::TooManyAssigned => b"no 18 too many assigned\n",
        Refusal::LargeDescription => b"no 19 description too large\n",
        Refusal::LargeFile => b"no 20 file too large\n",
        Refusal::NoFileRoom => b"no 21 no file room\n",
        Refusal::NoPropertyRoom => b"no 22 no property room\n",
        Refusal::NoAxiomRoom => b"no 23 no axiom room\n",
        Refusal::NoSpace => b"no 24 no space\n",
        Refusal::BuiltIn => b"no 25 built-in attribute\n",
    }
}

/// Shows the line of a refusal: `no`, its number in two digits, and its words.
pub fn show_refusal<T: Station>(station: &mut T, refusal: &Refusal) -> Result<(), Failed>
    ensures { IsShowRun (T.meaning station.old) (T.meaning station.new) (refusal_line refusal.now) result }
{
    show_all(station, refusal_text(refusal))
}
