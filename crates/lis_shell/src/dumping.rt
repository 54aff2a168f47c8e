//! The session that makes the state of an image again, shown as text.

ghost use Rattle.lis_replay.specs.Dump.{dump_of};
ghost use Rattle.lis_session.specs.Parts.{only_shows};
ghost use Rattle.lis_session.specs.Session.{root_of};
ghost use Rattle.lis_shell.specs.Steps.{step_none, dumping};

use crate::image::{ImageWork, halted};
use lis_dump::dump_state;
use lis_line::carrier::Halt;
use lis_ports::{Source, Station};
use lis_session::end::End;
use lis_store::Store;
use std::alloc::{AllocError, Global};

/// `dump`: the session that makes the state again. It takes no input, and allocates no memory after the opening.
#[derive(Clone, Copy)]
pub struct Dumping;

impl ImageWork for Dumping {
    ghost says = { λ _. dumping };

    ghost quiet = { λ _ state bytes image stands. step_none state (only_shows (dump_of state) (root_of state)) image stands };

    fn carry_on<S: Source, T: Station>(
        &self,
        _alloc: Global,
        store: Store,
        _input: &mut S,
        station: &mut T,
    ) -> Result<Halt<End>, AllocError> {
        let done = dump_state(&store, station);
        store.close();
        Ok(halted(done))
    }
}
