//! A session runs the items of an input, one after another.

ghost use Rattle.lis_model.specs.Step.{step};
ghost use Rattle.lis_session.specs.Served.{HasDone, HasStopped};
ghost use Rattle.lis_store.specs.Stored.{IsUsable};

use crate::end::End;
use crate::session::Session;
use lis_line::carrier::Carrier;
use lis_line::reader::{Item, Payload};
use lis_ports::Station;

impl Carrier for Session {
    type Item = Item;

    type Fault = End;

    ghost is_ready = { λ session m more. IsUsable session.store m };

    ghost has_done = { HasDone step };

    ghost has_stopped = { HasStopped step };

    fn carry<T: Station>(
        &mut self,
        item: &Item,
        payload: &Payload,
        station: &mut T,
    ) -> Result<(), End> {
        self.step(item, payload, station)
    }
}
