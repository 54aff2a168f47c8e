//! Rooms run the items of an input, one after another.

ghost use Rattle.lis_session.specs.Served.{HasDone, HasStopped};
ghost use Rattle.lis_store.specs.Stored.{IsUsable};
ghost use Rattle.lis_rooms.specs.Rooms.{room_step};

use crate::rooms::Rooms;
use lis_line::carrier::Carrier;
use lis_line::reader::Payload;
use lis_line::tagged::Tagged;
use lis_ports::Station;
use lis_session::end::End;

impl Carrier for Rooms {
    type Item = Tagged;

    type Fault = End;

    ghost is_ready = { λ rooms m more. IsUsable rooms.store m };

    ghost has_done = { HasDone room_step };

    ghost has_stopped = { HasStopped room_step };

    fn carry<T: Station>(
        &mut self,
        tagged: &Tagged,
        payload: &Payload,
        station: &mut T,
    ) -> Result<(), End> {
        self.step(tagged, payload, station)
    }
}
