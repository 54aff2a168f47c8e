//! A plain state runs the items of a session.

ghost use Rattle.lis_plain.specs.Tried.{Tried, TriedInto};

use crate::end::PlainEnd;
use crate::plain::Plain;
use lis_line::carrier::Carrier;
use lis_line::reader::{Item, Payload};
use lis_ports::Station;

impl Carrier for Plain {
    type Item = Item;

    type Fault = PlainEnd;

    // It takes any items, on any station.
    ghost is_ready = { λ plain m more. Unit {0} };

    ghost has_done = { Tried };

    ghost has_stopped = { TriedInto };

    fn carry<T: Station>(
        &mut self,
        item: &Item,
        payload: &Payload,
        station: &mut T,
    ) -> Result<(), PlainEnd> {
        self.step(item, payload, station)
    }
}
