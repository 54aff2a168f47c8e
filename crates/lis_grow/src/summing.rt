//! A session whose replies are summed, and not shown.

ghost use Rattle.std.specs.Prelude.{◌≡◌};
ghost use Rattle.lis_grow.specs.Summing.{CanSum, Sums, SumsInto};

use crate::summary::Sum;
use lis_line::carrier::Carrier;
use lis_line::reader::{Item, Payload};
use lis_ports::{Failed, Station};
use lis_session::session::Session;

/// A session that is being run, and the sum of its replies.
#[derive(Drop)]
pub(crate) struct Summing<'a> {
    pub(crate) session: &'a mut Session,
    pub(crate) sum: Sum,
}

impl Carrier for Summing<'_> {
    type Item = Item;

    type Fault = Failed;

    ghost is_ready = { λ s m more. CanSum s.session.now s.sum m more };

    ghost has_done = { λ start entry first s m. Sums start.session.now entry first s.session.now s.sum m × (s.session.ghost_name ≡ start.session.ghost_name) };

    ghost has_stopped = { λ start entry first item fault s m. SumsInto start.session.now entry first item s.session.now m × (s.session.ghost_name ≡ start.session.ghost_name) };

    fn carry<T: Station>(
        &mut self,
        item: &Item,
        payload: &Payload,
        station: &mut T,
    ) -> Result<(), Failed> {
        let tally = self.session.tally(item, payload, station)?;
        self.sum.add(&tally);
        Ok(())
    }
}
