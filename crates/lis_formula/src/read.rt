//! Reading formula texts.

ghost use Rattle.std.specs.Prelude.{◌<◌, ◌≤◌, ◌∷◌, length, IsTrue, MatchResult, IfErr, IfOk};
ghost use Rattle.lis_grammar.specs.Places.{IsPlace};
ghost use Rattle.lis_formula.specs.Paths.{IsPath, IsNoPath, IsWhole, begins_here};
ghost use Rattle.lis_formula.specs.Answers.{ReadsTo, Computes};

use crate::fault::FormulaFault;
use crate::reader::{Held, Nodes, Reader};
use lis_limits::MAX_FORMULA;
use lis_place::{Path, Place};

fn read_path(text: &[u8]) -> Result<Nodes, u32>
    requires { length text.now ≤ MAX_FORMULA }
    ensures path { MatchResult result
        (λ kept. IsPath text.now kept)
        (λ at. IsNoPath text.now at) }
    ensures inside { IfErr result (λ at. at ≤ length text.now) }
{
    let mut reader = Reader::new();
    let mut at = 0u32;
    for byte in text {
        if !reader.take(*byte) {
            return Err(at);
        }
        at += 1;
    }
    if !reader.end() {
        return Err(at);
    }
    let Reader {
        held: Held { signs: _, kept },
        phase: _,
        inside: _,
    } = reader;
    Ok(kept)
}

/// The path of what was kept.
fn whole(rooted: bool, kept: &Nodes) -> Result<Path, FormulaFault>
    ensures { IsWhole rooted kept.now result }
{
    if kept.over {
        return Err(FormulaFault::TooLarge);
    }
    match Place::of(kept.nodes.as_slice()) {
        Some(place) => Ok(Path { rooted, place }),
        None => Err(FormulaFault::TooLarge),
    }
}

/// Reads what follows the slash at the start of a text.
fn from_root(path: &[u8]) -> Result<Path, FormulaFault>
    requires { length path.now < MAX_FORMULA }
    ensures computes { Computes (47 ∷ path.now) result }
    ensures place { IfOk result (λ read. IsPlace read.place) }
{
    if path.is_empty() {
        return Ok(Path {
            rooted: true,
            place: Place::root(),
        });
    }
    match read_path(path) {
        Ok(kept) => whole(true, &kept),
        Err(at) => Err(FormulaFault::Syntax(at + 1)),
    }
}

/// Reads a text that does not begin with a slash.
fn from_here(text: &[u8]) -> Result<Path, FormulaFault>
    requires short { length text.now ≤ MAX_FORMULA }
    requires here { IsTrue (begins_here text.now) }
    ensures computes { Computes text.now result }
    ensures place { IfOk result (λ read. IsPlace read.place) }
{
    match read_path(text) {
        Ok(kept) => whole(false, &kept),
        Err(at) => Err(FormulaFault::Syntax(at)),
    }
}

fn read_short(text: &[u8]) -> Result<Path, FormulaFault>
    requires { length text.now ≤ MAX_FORMULA }
    ensures computes { Computes text.now result }
    ensures place { IfOk result (λ path. IsPlace path.place) }
{
    match text {
        [] => Err(FormulaFault::Syntax(0)),
        [first, path @ ..] => {
            if *first == b'/' {
                from_root(path)
            } else {
                from_here(text)
            }
        }
    }
}

/// Reads a formula text. It gives a path exactly if the text has at most 1,024 bytes and is in the grammar, and its steps are a place. A
/// text that is too long is `TooLarge`, whatever it holds. A text outside the grammar is a fault of syntax, however many nodes it has.
pub fn read_formula(text: &[u8]) -> Result<Path, FormulaFault>
    ensures answers { ReadsTo text.now result }
    ensures computes { Computes text.now result }
{
    if text.len() > MAX_FORMULA {
        return Err(FormulaFault::TooLarge);
    }
    read_short(text)
}
