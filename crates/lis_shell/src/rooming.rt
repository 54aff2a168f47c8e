//! Several sessions over an image, in one stream.

ghost use Rattle.std.specs.Prelude.{◌≡◌, ◌^◌, replicate, [], IfOk};
ghost use Rattle.lis_line.specs.Tagged.{room_script};
ghost use Rattle.lis_session.proofs.Moments.{moment_none};
ghost use Rattle.lis_rooms.specs.Rooms.{room_step, rooms_of};
ghost use Rattle.lis_shell.specs.Runs.{rooming};

use crate::image::ImageWork;
use crate::serving::INPUT_LIMIT;
use lis_line::carrier::Halt;
use lis_line::reader::Payload;
use lis_ports::{Source, Station};
use lis_rooms::rooms::Rooms;
use lis_rooms::serving::serve_rooms;
use lis_session::end::End;
use lis_store::Store;
use std::alloc::{AllocError, Global};

// The rooms over the store, all at the root, and room for payloads. If memory runs out the store is dropped.
fn open_rooms(alloc: Global, store: Store) -> Result<(Rooms, Payload), AllocError>
    ensures { IfOk result (λ opened. opened.0 ≡ record { store = store; place = replicate 8 [] }) }
{
    let rooms = Rooms::new(alloc, store)?;
    match Payload::new(alloc) {
        Ok(payload) => Ok((rooms, payload)),
        Err(refused) => {
            rooms.close();
            Err(refused)
        }
    }
}

/// `rooms`: the sessions of the commands of the input, each in its room.
#[derive(Clone, Copy)]
pub struct Rooming;

impl ImageWork for Rooming {
    ghost says = { λ _. rooming };

    ghost quiet = { λ _ state bytes image stands. moment_none room_step (rooms_of state) (room_script bytes (2 ^ 40)) image stands };

    fn carry_on<S: Source, T: Station>(
        &self,
        alloc: Global,
        store: Store,
        input: &mut S,
        station: &mut T,
    ) -> Result<Halt<End>, AllocError> {
        let (mut rooms, mut payload) = open_rooms(alloc, store)?;
        let halt = serve_rooms(&mut rooms, &mut payload, input, station, INPUT_LIMIT);
        rooms.close();
        Ok(halt)
    }
}
