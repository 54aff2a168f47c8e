//! The memory that evaluation, listings and routes work in.

ghost use Rattle.std.specs.Prelude.{IsTrue, IfOk};
ghost use Rattle.lis_model.specs.Ranges.{are_in_range};
ghost use Rattle.lis_eval.specs.Room.{HasRoom};

use lis_bits::Rows;
use lis_model::limits::Limits;
use lis_taxonomy::Search;
use std::alloc::{AllocError, Global};

/// How many rows of files there are: those that are found, and a stack of as many as a place has nodes.
pub const FILE_ROWS: u32 = 65;

/// Rows by the slots of files and by the numbers of words, and room for a route. All memory is allocated by `new`.
#[derive(Drop)]
pub struct Scratch {
    pub limits: Limits,
    /// Row 0 has the files that are found, and the others are the stack of an evaluation.
    pub files: Rows,
    /// One row of files: the locals of a listing.
    pub locals: Rows,
    /// One row of words: the candidates of a listing, or those of a step of a route.
    pub candidates: Rows,
    /// One row of words: the increments of a listing.
    pub increments: Rows,
    /// How many of the files that are found have each number.
    pub counts: Vec<u32>,
    /// For what words entail.
    pub search: Search,
    /// The indexes, in the order of words, of the words of a route.
    pub route: Vec<u32>,
    /// How many words the route has.
    pub steps: u32,
}

impl Scratch {
    /// The memory for tables of these limits.
    pub fn new(alloc: Global, limits: &Limits) -> Result<Scratch, AllocError>
        requires { IsTrue (are_in_range limits.now) }
        ensures { IfOk result (λ scratch. HasRoom scratch limits.now) }
    {
        Ok(Scratch {
            limits: *limits,
            files: Rows::new(alloc, FILE_ROWS, limits.files)?,
            locals: Rows::new(alloc, 1, limits.files)?,
            candidates: Rows::new(alloc, 1, limits.props)?,
            increments: Rows::new(alloc, 1, limits.props)?,
            counts: vec![in alloc; 0; limits.props as usize]?,
            search: Search::new(alloc)?,
            route: vec![in alloc; 0; limits.files as usize]?,
            steps: 0,
        })
    }
}
