//! A state as plain lists.

ghost use Rattle.std.specs.Prelude.{◌≡◌};
ghost use Rattle.lis_model.specs.State.{empty_state};

use crate::file::File;
use lis_model::limits::Limits;
use lis_table::closure::Axiom;
use lis_words::Word;
use std::alloc::Global;
use std::marker::Model;

/// A state.
#[derive(Drop)]
pub struct State {
    pub limits: Limits,
    /// A set, in byte order.
    pub declared: Vec<Word>,
    /// In the order of their left sides, and then of their right sides.
    pub axioms: Vec<Axiom>,
    /// In the order of their names.
    pub files: Vec<File>,
}

impl Model for State {
    ghost use Rattle.lis_model.specs.State.{State as Kept};
    ghost use Rattle.lis_model.specs.Codes.{state_code};

    ghost Value = { Kept };

    ghost coded = { state_code };

    ghost view = { λ s. record { limits = s.limits; declared = s.declared.items; axioms = s.axioms.items; files = s.files.items } };
}

/// The empty state of these limits.
pub fn empty_state(alloc: Global, limits: &Limits) -> State
    ensures { result ≡ empty_state limits.now }
{
    State {
        limits: *limits,
        declared: Vec::new(alloc),
        axioms: Vec::new(alloc),
        files: Vec::new(alloc),
    }
}
