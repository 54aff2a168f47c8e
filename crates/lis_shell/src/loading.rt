//! A session over an image with many changes in one commit.

ghost use Rattle.std.specs.Prelude.{◌^◌};
ghost use Rattle.lis_model.specs.Script.{script};
ghost use Rattle.lis_session.specs.Session.{root_of};
ghost use Rattle.lis_load.proofs.Moments.{load_none};
ghost use Rattle.lis_shell.specs.Runs.{loading};

use crate::image::{ImageWork, open_session};
use crate::serving::INPUT_LIMIT;
use lis_line::carrier::Halt;
use lis_load::loader::Loader;
use lis_load::serving::serve_load;
use lis_ports::{Source, Station};
use lis_session::end::End;
use lis_store::Store;
use std::alloc::{AllocError, Global};

/// `load`: the session of the commands of the input, with many changes in one commit.
#[derive(Clone, Copy)]
pub struct Loading;

impl ImageWork for Loading {
    ghost says = { λ _. loading };

    ghost quiet = { λ _ state bytes image stands. load_none (root_of state) (script bytes (2 ^ 40)) image stands };

    fn carry_on<S: Source, T: Station>(
        &self,
        alloc: Global,
        store: Store,
        input: &mut S,
        station: &mut T,
    ) -> Result<Halt<End>, AllocError> {
        let (session, mut payload) = open_session(alloc, store)?;
        let mut loader = Loader::new(session);
        let halt = serve_load(&mut loader, &mut payload, input, station, INPUT_LIMIT);
        loader.close();
        Ok(halt)
    }
}
