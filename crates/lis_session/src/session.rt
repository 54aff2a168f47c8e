//! A session over an image: its store, a place, and one item after another.

ghost use Rattle.std.specs.Prelude.{◌≡◌, ◌+◌, ◌≤◌, [], false, true, IfOk, IfSome, IsSome};
ghost use Rattle.lis_ports.specs.Calls.{UsesDisk};
ghost use Rattle.lis_eval.specs.Room.{HasRoom};
ghost use Rattle.lis_line.specs.Reading.{asked_by};
ghost use Rattle.lis_model.specs.Step.{done, step};
ghost use Rattle.lis_model.specs.State.{State};
ghost use Rattle.lis_store.specs.Changes.{Commits, CommitLeft};
ghost use Rattle.lis_store.specs.Stored.{IsSound, StoreFits, StoreHolds, IsUsable};
ghost use Rattle.lis_session.specs.Item.{CarriesOut, Does, StoreLeft};
ghost use Rattle.lis_session.specs.Parts.{Ends, MakesHeld, is_change, kept_up};
ghost use Rattle.lis_session.specs.Served.{SessionKeeps};
ghost use Rattle.lis_session.specs.Settled.{StaysSettled};
ghost use Rattle.lis_session.specs.Tally.{TalliesItem};
ghost use Rattle.lis_journal.specs.Journal.{shape_of};

use crate::changes::write_of;
use crate::content::cat;
use crate::counting::stat;
use crate::description::props;
use crate::end::End;
use crate::listing::ls;
use crate::moving::go;
use crate::replies::{answer_place, answer_refusal, answer_result, conclude};
use crate::route::way;
use crate::tally::{Tally, no_listing, tally_command};
use lis_eval::Scratch;
use lis_line::reader::{Item, Payload};
use lis_model::command::Command;
use lis_place::Place;
use lis_ports::{Disk, Failed, Station};
use lis_store::{ChangeFault, Store};
use std::alloc::{AllocError, Global};
use std::marker::Model;

/// A session: the store on which it runs commands, the place of the next command, and the memory that commands work in.
#[derive(Drop)]
pub struct Session {
    store: Store,
    place: Place,
    scratch: Scratch,
}

impl Model for Session {
    ghost use Rattle.lis_session.specs.Session.{Situated, CanWork};
    ghost use Rattle.lis_session.specs.Codes.{situated_code};

    ghost Value = { Situated };

    ghost coded = { situated_code };

    ghost view = { λ s. record { store = s.store; place = s.place } };

    ghost invariant = { λ s. CanWork s.store s.scratch };
}

impl Session {
    /// A session at the root, over the store. No other call of it allocates memory.
    pub fn new(alloc: Global, store: Store) -> Result<Session, AllocError>
        ensures made { IfOk result (λ session. session ≡ record { store = store; place = [] }) }
        ensures sound { IsSound store }
    {
        match Scratch::new(alloc, &store.limits()) {
            Ok(scratch) => Ok(Session {
                store,
                place: Place::root(),
                scratch,
            }),
            Err(refused) => {
                store.close();
                Err(refused)
            }
        }
    }

    /// Frees its memory.
    pub fn close(self) {
        self.store.close();
    }

    /// The place of the next command.
    pub fn place(&self) -> &Place
        ensures { result.now ≡ self.now.place }
    {
        &self.place
    }

    /// The store, as the commands so far have left it.
    pub fn store(&self) -> &Store
        ensures value { result.now ≡ self.now.store }
        ensures sound { IsSound self.now.store }
    {
        &self.store
    }
}

// Runs a command.
fn carry_command<T: Station>(
    store: &mut Store,
    scratch: &mut Scratch,
    place: &mut Place,
    command: &Command,
    payload: &Payload,
    station: &mut T,
) -> Result<(), End>
    requires sound { IsSound store.old }
    requires scratch { HasRoom scratch.old store.old.metadata.limits }
    requires usable { IsUsable store.old (T.meaning station.old) }
    ensures sound { IsSound store.new }
    ensures scratch { HasRoom scratch.new store.old.metadata.limits }
    ensures carries { Does (λ now. done now command.now payload.now) (StoreFits store.old (T.meaning station.old)) place.old
        (T.meaning station.old) (T.meaning station.new) result (StoreFits store.new (T.meaning station.new)) place.new }
    ensures ends { Ends (T.meaning station.old) (T.meaning station.new) result }
    ensures left { StoreLeft store.old store.new result }
    ensures settled { StaysSettled store.old store.new }
{
    match command {
        Command::Cat(name) => cat(store, scratch, place, name, station),
        Command::Cd(text) => answer_result(station, go(store, place, text)),
        Command::Pwd => answer_place(station, place),
        Command::Ls => ls(store, scratch, place, station),
        Command::Props(name) => props(store, scratch, place, name, station),
        Command::Way(name) => way(store, scratch, place, name, station),
        Command::Stat => stat(store, station),
        Command::Mkdir(_)
        | Command::Rmdir(_)
        | Command::Axiom(..)
        | Command::Unaxiom(..)
        | Command::Create(..)
        | Command::Add(..)
        | Command::Write(_)
        | Command::Mv(..)
        | Command::Rename(..)
        | Command::Rm(_) => {
            let changed = store.apply(station, scratch, place, write_of(command, payload));
            conclude(station, changed)
        }
    }
}

/// Runs one item on a store, at a place, and shows its reply.
pub fn carry_out<T: Station>(
    store: &mut Store,
    scratch: &mut Scratch,
    place: &mut Place,
    item: &Item,
    payload: &Payload,
    station: &mut T,
) -> Result<(), End>
    requires asked { IsSome (asked_by item.now payload.now) }
    requires sound { IsSound store.old }
    requires scratch { HasRoom scratch.old store.old.metadata.limits }
    requires usable { IsUsable store.old (T.meaning station.old) }
    ensures carries { IfSome (asked_by item.now payload.now)
        (CarriesOut step (StoreFits store.old (T.meaning station.old)) place.old (T.meaning station.old) (T.meaning station.new) result
        (StoreFits store.new (T.meaning station.new)) place.new) }
    ensures ends { Ends (T.meaning station.old) (T.meaning station.new) result }
    ensures left { StoreLeft store.old store.new result }
    ensures settled { StaysSettled store.old store.new }
    ensures sound { IsSound store.new }
    ensures scratch { HasRoom scratch.new store.old.metadata.limits }
{
    match item {
        Item::Command(command) => carry_command(store, scratch, place, command, payload, station),
        Item::Bad(refusal) => answer_refusal(station, refusal),
        Item::End | Item::Limit => unreachable!(),
    }
}

impl Session {
    /// Runs one item, and shows its reply.
    pub fn step<T: Station>(
        &mut self,
        item: &Item,
        payload: &Payload,
        station: &mut T,
    ) -> Result<(), End>
        requires asked { IsSome (asked_by item.now payload.now) }
        requires usable { IsUsable self.old.store (T.meaning station.old) }
        ensures carries { IfSome (asked_by item.now payload.now)
            (CarriesOut step (StoreFits self.old.store (T.meaning station.old)) self.old.place (T.meaning station.old) (T.meaning station.new) result
            (StoreFits self.new.store (T.meaning station.new)) self.new.place) }
        ensures keeps { SessionKeeps self.old (T.meaning station.old) self.new (T.meaning station.new) result }
        ensures settled { StaysSettled self.old.store self.new.store }
    {
        carry_out(
            &mut self.store,
            &mut self.scratch,
            &mut self.place,
            item,
            payload,
            station,
        )
    }

    /// Runs one item. Its reply is tallied, and not shown.
    pub fn tally<D: Disk>(
        &mut self,
        item: &Item,
        payload: &Payload,
        disk: &mut D,
    ) -> Result<Tally, Failed>
        requires asked { IsSome (asked_by item.now payload.now) }
        requires usable { IsUsable self.old.store (D.meaning disk.old) }
        ensures tallies { IfSome (asked_by item.now payload.now)
            (TalliesItem (StoreFits self.old.store (D.meaning disk.old)) self.old.place (D.meaning disk.old) (D.meaning disk.new) result
            (StoreFits self.new.store (D.meaning disk.new)) self.new.place) }
        ensures disk { UsesDisk (D.meaning disk.old) (D.meaning disk.new) result }
        ensures limits { self.new.store.metadata.limits ≡ self.old.store.metadata.limits }
        ensures image { shape_of self.new.store.journal ≡ shape_of self.old.store.journal }
        ensures unbroken { IfOk result (λ _. self.new.store.is_broken ≡ false) }
        ensures settled { StaysSettled self.old.store self.new.store }
        ensures few { IfOk result (λ tally. tally.listed ≤ self.old.store.metadata.limits.props + self.old.store.metadata.limits.files) }
        ensures sound { IsSound self.new.store }
    {
        let store = &mut self.store;
        match item {
            Item::Command(command) => tally_command(
                store,
                &mut self.scratch,
                &mut self.place,
                command,
                payload,
                disk,
            ),
            Item::Bad(_) => Ok(no_listing(true)),
            Item::End | Item::Limit => unreachable!(),
        }
    }
}

impl Session {
    /// Makes the change that a command requests, and holds it back: it is in memory, and is committed with later ones. Nothing is shown.
    pub fn hold<D: Disk>(
        &mut self,
        command: &Command,
        payload: &Payload,
        disk: &mut D,
    ) -> Result<(), ChangeFault>
        requires change { is_change command.now ≡ true }
        requires usable { IsUsable self.old.store (D.meaning disk.old) }
        ensures holds { MakesHeld (λ now. done now command.now payload.now) self.old.place self.old.store self.new.store (D.meaning disk.old) (D.meaning disk.new) result }
        ensures place { self.new.place ≡ self.old.place }
        ensures keeps { SessionKeeps self.old (D.meaning disk.old) self.new (D.meaning disk.new) (kept_up result) }
    {
        let write = write_of(command, payload);
        self.store.hold(disk, &mut self.scratch, &self.place, write)
    }

    /// Commits all changes that are held back.
    pub fn commit<D: Disk>(&mut self, disk: &mut D) -> Result<(), ChangeFault>
        requires usable { IsUsable self.old.store (D.meaning disk.old) }
        ensures commits { (base state : State) → StoreHolds self.old.store (D.meaning disk.old) base state
            → Commits base state self.new.store (D.meaning disk.old) (D.meaning disk.new) result }
        ensures left { CommitLeft self.new.store result }
        ensures place { self.new.place ≡ self.old.place }
        ensures keeps { SessionKeeps self.old (D.meaning disk.old) self.new (D.meaning disk.new) (kept_up result) }
    {
        self.store.commit(disk)
    }
}
