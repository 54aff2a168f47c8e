//! The rooms over an image: a store, a place for each of them, and one tagged item after another.

ghost use Rattle.std.specs.Prelude.{◌≡◌, ◌<◌, [], slice_index_or, IfOk, IfSome, IsSome};
ghost use Rattle.lis_line.specs.Reading.{asked_by};
ghost use Rattle.lis_line.specs.Spoken.{tagged_by, IsTagged};
ghost use Rattle.lis_store.specs.Stored.{IsSound, StoreFits, IsUsable};
ghost use Rattle.lis_session.specs.Item.{CarriesOut};
ghost use Rattle.lis_session.specs.Parts.{Answers};
ghost use Rattle.lis_session.specs.Served.{SessionKeeps};
ghost use Rattle.lis_rooms.specs.Rooms.{all_at_root, tag_line, done_in, room_step};

use lis_eval::Scratch;
use lis_line::reader::{Item, Payload};
use lis_line::tagged::Tagged;
use lis_place::Place;
use lis_ports::Station;
use lis_session::end::End;
use lis_session::replies::{answer_bytes, answer_refusal};
use lis_session::session::carry_out;
use lis_store::Store;
use std::alloc::{AllocError, Global};
use std::marker::Model;

/// How many rooms there are.
pub const ROOMS: usize = 8;

/// Rooms: the store on which all of them run commands, the place of each, and the memory that commands work in, one at a time.
#[derive(Drop)]
pub struct Rooms {
    store: Store,
    places: Vec<Place>,
    scratch: Scratch,
}

impl Model for Rooms {
    ghost use Rattle.lis_rooms.specs.Rooms.{Places};
    ghost use Rattle.lis_rooms.specs.Served.{CanServe};
    ghost use Rattle.lis_rooms.specs.Codes.{rooms_code};
    ghost use Rattle.lis_session.specs.Session.{SituatedOf};

    ghost Value = { SituatedOf Places };

    ghost coded = { rooms_code };

    ghost view = { λ r. record { store = r.store; place = r.places.items } };

    ghost invariant = { λ r. CanServe r.store r.scratch r.places.items };
}

fn places_at_root(alloc: Global) -> Result<Vec<Place>, AllocError>
    ensures { IfOk result (λ places. places.items ≡ all_at_root) }
{
    let mut places = Vec::with_capacity(alloc, ROOMS)?;
    for _ in 0..ROOMS {
        places.push(Place::root())?;
    }
    Ok(places)
}

// Shows the line of a room, or the one of an item without a room.
fn answer_tag<T: Station>(station: &mut T, room: Option<u8>) -> Result<(), End>
    requires { IfSome room (λ r. r < 8) }
    ensures { Answers (T.meaning station.old) (T.meaning station.new) (tag_line room) result }
{
    match room {
        Some(room) => answer_bytes(station, &[b'@', b'0' + room, b'\n']),
        None => answer_bytes(station, b"@-\n"),
    }
}

impl Rooms {
    /// Eight rooms at the root, over the store. No other call of them allocates memory.
    pub fn new(alloc: Global, store: Store) -> Result<Rooms, AllocError>
        ensures made { IfOk result (λ rooms. rooms ≡ record { store = store; place = all_at_root }) }
        ensures sound { IsSound store }
    {
        let Ok(scratch) = Scratch::new(alloc, &store.limits()) else {
            store.close();
            return Err(AllocError);
        };
        let Ok(places) = places_at_root(alloc) else {
            store.close();
            return Err(AllocError);
        };
        Ok(Rooms {
            store,
            places,
            scratch,
        })
    }

    /// Frees their memory.
    pub fn close(self) {
        self.store.close();
    }

    /// The store, as the commands so far have left it.
    pub fn store(&self) -> &Store
        ensures value { result.now ≡ self.now.store }
        ensures sound { IsSound self.now.store }
    {
        &self.store
    }

    /// The place of a room.
    pub fn place(&self, room: u8) -> &Place
        requires { room < 8 }
        ensures { result.now ≡ slice_index_or self.now.place room [] }
    {
        &self.places[usize::from(room)]
    }

    // Runs an item in its room, at the place of that room. An item without a room is refused.
    fn carry_in<T: Station>(
        &mut self,
        tagged: &Tagged,
        payload: &Payload,
        station: &mut T,
    ) -> Result<(), End>
        requires asked { IsSome (tagged_by tagged.now payload.now) }
        requires said { IsTagged tagged.now }
        requires usable { IsUsable self.old.store (T.meaning station.old) }
        ensures carries { IfSome (asked_by tagged.now.item payload.now)
            (CarriesOut (λ now item. done_in now tagged.now.room item) (StoreFits self.old.store (T.meaning station.old)) self.old.place
            (T.meaning station.old) (T.meaning station.new) result (StoreFits self.new.store (T.meaning station.new)) self.new.place) }
        ensures keeps { SessionKeeps self.old (T.meaning station.old) self.new (T.meaning station.new) result }
    {
        match (tagged.room, &tagged.item) {
            (Some(room), item) => carry_out(
                &mut self.store,
                &mut self.scratch,
                &mut self.places[usize::from(room)],
                item,
                payload,
                station,
            ),
            (None, Item::Bad(refusal)) => answer_refusal(station, refusal),
            (None, Item::Command(_) | Item::End | Item::Limit) => unreachable!(),
        }
    }

    /// Runs one item, and shows its reply and then the line of its room. So that line comes after the change.
    pub fn step<T: Station>(
        &mut self,
        tagged: &Tagged,
        payload: &Payload,
        station: &mut T,
    ) -> Result<(), End>
        requires asked { IsSome (tagged_by tagged.now payload.now) }
        requires said { IsTagged tagged.now }
        requires usable { IsUsable self.old.store (T.meaning station.old) }
        ensures carries { IfSome (tagged_by tagged.now payload.now)
            (CarriesOut room_step (StoreFits self.old.store (T.meaning station.old)) self.old.place
            (T.meaning station.old) (T.meaning station.new) result (StoreFits self.new.store (T.meaning station.new)) self.new.place) }
        ensures keeps { SessionKeeps self.old (T.meaning station.old) self.new (T.meaning station.new) result }
    {
        self.carry_in(tagged, payload, station)?;
        answer_tag(station, tagged.room)
    }
}
