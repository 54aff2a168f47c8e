//! The memory in which parts of files are viewed and put back.

ghost use Rattle.std.specs.Prelude.{◌≡◌, IsTrue, IfOk};
ghost use Rattle.lis_model.specs.Ranges.{are_in_range};

use crate::gathering::Edited;
use lis_eval::Scratch;
use lis_line::reader::Payload;
use lis_model::limits::Limits;
use std::alloc::{AllocError, Global};
use std::marker::Model;

/// Room for the bytes of one file, for an edited view of it, and for the bytes made from both.
#[derive(Drop)]
pub struct Workspace {
    limits: Limits,
    pub(crate) scratch: Scratch,
    pub(crate) file: Payload,
    pub(crate) edited: Edited,
    pub(crate) made: Payload,
}

impl Model for Workspace {
    ghost use Rattle.lis_eval.specs.Room.{HasRoom};
    ghost use Rattle.lis_model.specs.Codes.{limits_code};
    ghost use Rattle.lis_model.specs.declared.limits.Limits.{Limits as LimitsOf};

    ghost Value = { LimitsOf };

    ghost coded = { limits_code };

    ghost view = { λ p. p.limits };

    ghost invariant = { λ p. HasRoom p.scratch p.limits };
}

impl Workspace {
    /// Memory for files of a state of these limits. No call that gets it allocates more.
    pub fn new(alloc: Global, limits: &Limits) -> Result<Workspace, AllocError>
        requires { IsTrue (are_in_range limits.now) }
        ensures { IfOk result (λ workspace. workspace ≡ limits.now) }
    {
        let scratch = Scratch::new(alloc, limits)?;
        let file = Payload::new(alloc)?;
        let edited = Edited::new(alloc)?;
        let made = Payload::new(alloc)?;
        Ok(Workspace {
            limits: *limits,
            scratch,
            file,
            edited,
            made,
        })
    }
}
