//! A session whose changes are held back, with the replies that wait for their commit.

ghost use Rattle.std.specs.Prelude.{◌≡◌, ◌<◌, List, [], ◌∷◌, ◌++◌, length, true, Ok, Err, IfOk};
ghost use Rattle.std.specs.List.{flat_map};
ghost use Rattle.lis_model.specs.Step.{Item as Asked};
ghost use Rattle.lis_model.specs.Step.Item.{Do};
ghost use Rattle.lis_session.specs.Parts.{Answers, is_change};
ghost use Rattle.lis_store.specs.Stored.{IsUsable};
ghost use Rattle.lis_load.specs.declared.loader.Loader.{Loader as Loading};
ghost use Rattle.lis_load.specs.Load.{lag};
ghost use Rattle.lis_load.specs.Loading.{answer, HasLoaded, HoldsNothing};

use arrayvec::ArrayVec;
use lis_line::holder::Holder;
use lis_line::reader::{Item, Payload};
use lis_model::command::Command;
use lis_model::refusal::Refusal;
use lis_ports::Station;
use lis_session::changes::is_change;
use lis_session::end::End;
use lis_session::replies::{answer_ok, answer_refusal};
use lis_session::session::Session;
use lis_store::ChangeFault;

/// A session whose changes are held back. For each of them in order it keeps why the change was refused, or `None` if it was made. These
/// replies are shown after the commit.
#[derive(Drop)]
pub struct Loader {
    session: Session,
    held: ArrayVec<Option<Refusal>, 256>,
}

// Shows the reply to a change.
fn show_answer<T: Station>(station: &mut T, refused: &Option<Refusal>) -> Result<(), End>
    ensures { Answers (T.meaning station.old) (T.meaning station.new) (answer refused.now) result }
{
    match refused {
        None => answer_ok(station),
        Some(refusal) => answer_refusal(station, refusal),
    }
}

// Shows the replies to changes, one after another.
fn show_answers<T: Station>(station: &mut T, held: &[Option<Refusal>]) -> Result<(), End>
    ensures { Answers (T.meaning station.old) (T.meaning station.new) (flat_map answer held.now) result }
{
    for refused in held {
        show_answer(station, refused)?;
    }
    Ok(())
}

impl Loader {
    /// The session, with nothing held back.
    pub fn new(session: Session) -> Loader
        ensures session { result.session ≡ session }
        ensures idle { result.held.items ≡ [] }
    {
        Loader {
            session,
            held: ArrayVec::new(),
        }
    }

    /// Frees its memory.
    pub fn close(self) {
        self.session.close();
    }

    // Settles, if as many replies wait as may.
    fn make_room<T: Station>(&mut self, station: &mut T) -> Result<(), End>
        requires ready { IsUsable self.old.session.store (T.meaning station.old) }
        ensures ready { IfOk result (λ _. IsUsable self.new.session.store (T.meaning station.new)) }
        ensures room { IfOk result (λ _. length self.new.held.items < lag) }
        ensures done { (start : Loading) (entry : T) (first : List Asked) → HasLoaded start (T.meaning entry) first self.old (T.meaning station.old) (Ok _)
            → HasLoaded start (T.meaning entry) first self.new (T.meaning station.new) result }
    {
        if self.held.is_full() {
            return self.settle(station);
        }
        Ok(())
    }

    // Makes a change and holds it back. Its reply waits.
    fn hold<T: Station>(
        &mut self,
        command: &Command,
        payload: &Payload,
        station: &mut T,
    ) -> Result<(), End>
        requires change { is_change command.now ≡ true }
        requires ready { IsUsable self.old.session.store (T.meaning station.old) }
        requires room { length self.old.held.items < lag }
        ensures ready { IfOk result (λ _. IsUsable self.new.session.store (T.meaning station.new)) }
        ensures held { (start : Loading) (entry : T) (first : List Asked) → HasLoaded start (T.meaning entry) first self.old (T.meaning station.old) (Ok _)
            → HasLoaded start (T.meaning entry) (first ++ Do command.now payload.now ∷ []) self.new (T.meaning station.new) result }
    {
        let refused = match self.session.hold(command, payload, station) {
            Ok(()) => None,
            Err(ChangeFault::Refused(refusal)) => Some(refusal),
            Err(ChangeFault::Disk) => return Err(End::DiskFault),
        };
        self.held.push(refused);
        Ok(())
    }
}

impl Holder for Loader {
    type Fault = End;

    ghost is_ready = { λ loader m more. IsUsable loader.session.store m };

    ghost is_settled = { HoldsNothing };

    ghost has_done = { λ start entry first now m. HasLoaded start entry first now m (Ok tt) };

    ghost has_stopped = { λ start entry first fault now m. HasLoaded start entry first now m (Err fault) };

    fn carry<T: Station>(
        &mut self,
        item: &Item,
        payload: &Payload,
        station: &mut T,
    ) -> Result<(), End> {
        match item {
            Item::Command(command) if is_change(command) => {
                self.make_room(station)?;
                self.hold(command, payload, station)
            }
            _ => {
                self.settle(station)?;
                self.session.step(item, payload, station)
            }
        }
    }

    fn settle<T: Station>(&mut self, station: &mut T) -> Result<(), End> {
        if self.session.commit(station).is_err() {
            return Err(End::DiskFault);
        }
        show_answers(station, self.held.as_slice())?;
        self.held.clear();
        Ok(())
    }
}
