//! What a text makes of a place.

ghost use Rattle.std.specs.Prelude.{◌≡◌, ℕ, Err, codes};
ghost use Rattle.lis_words.specs.Words.{same_word};
ghost use Rattle.lis_grammar.specs.Machine.{broken_at};
ghost use Rattle.lis_grammar.specs.Places.{IsPlace, within_limits, steps_from, resolved};
ghost use Rattle.lis_formula.specs.Answers.{IsResolution};
ghost use Rattle.lis_formula.specs.declared.fault.FormulaFault.TheVariants.{Syntax};

use crate::fault::FormulaFault;
use crate::read::read_formula;
use lis_place::{Path, Place};

fn is_step_up(text: &[u8]) -> bool
    ensures { result ≡ same_word text.now (codes "..") }
{
    text == b"..".as_slice()
}

fn follow(place: &Place, path: Path) -> Result<Place, FormulaFault>
    requires { IsPlace path.place }
    ensures { IsResolution (within_limits (steps_from place.now path.rooted path.place)) result }
{
    let Path {
        rooted,
        place: steps,
    } = path;
    if rooted {
        return Ok(steps);
    }
    place.appended(&steps).ok_or(FormulaFault::TooLarge)
}

/// Leads from a place to a new one. The text `..` leads to the place without its last step. Any other text is read as a formula, and leads
/// from the root if it is rooted, and otherwise from the place.
pub fn resolve(place: &Place, text: &[u8]) -> Result<Place, FormulaFault>
    ensures place { IsResolution (resolved place.now text.now) result }
    ensures broken { (k : ℕ) → result ≡ Err (Syntax k) → k ≡ broken_at text.now }
{
    if is_step_up(text) {
        return Ok(place.without_last());
    }
    match read_formula(text) {
        Ok(path) => follow(place, path),
        Err(fault) => Err(fault),
    }
}
