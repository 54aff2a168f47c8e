//! The large session that is made from a number, on an image.

ghost use Rattle.lis_grow.specs.Session.{grow_items};
ghost use Rattle.lis_grow.proofs.Growing.{grow_none};
ghost use Rattle.lis_session.specs.Session.{root_of};
ghost use Rattle.lis_shell.specs.Grows.{growing};

use crate::image::{ImageWork, halted, open_session};
use lis_grow::session::grow_session;
use lis_line::carrier::Halt;
use lis_ports::{Source, Station};
use lis_session::end::End;
use lis_store::Store;
use std::alloc::{AllocError, Global};

/// `grow`: the session that is made from the number. It takes no input.
#[derive(Clone, Copy)]
pub struct Growing(pub u32);

impl ImageWork for Growing {
    ghost says = { λ work. growing work.0 };

    ghost quiet = { λ work state bytes image stands. grow_none (root_of state) (grow_items work.0) image stands };

    fn carry_on<S: Source, T: Station>(
        &self,
        alloc: Global,
        store: Store,
        _input: &mut S,
        station: &mut T,
    ) -> Result<Halt<End>, AllocError> {
        let (mut session, mut payload) = open_session(alloc, store)?;
        let done = grow_session(&mut session, &mut payload, station, self.0);
        session.close();
        Ok(halted(done))
    }
}
