//! The formula of a view.

ghost use Rattle.std.specs.Prelude.{◌≡◌};
ghost use Rattle.lis_parts.specs.Commands.{formula_of};
ghost use Rattle.lis_store.specs.Retagging.{place_or_refusal};

use lis_formula::{FormulaFault, read_formula};
use lis_model::refusal::Refusal;
use lis_place::{Path, Place};

/// The formula of the text, as a place, or why the text is refused.
pub fn read_place(text: &[u8]) -> Result<Place, Refusal>
    ensures { result ≡ place_or_refusal (formula_of text.now) }
{
    match read_formula(text) {
        Ok(Path { rooted: _, place }) => Ok(place),
        Err(FormulaFault::Syntax(_)) => Err(Refusal::BadFormula),
        Err(FormulaFault::TooLarge) => Err(Refusal::LargeFormula),
    }
}
