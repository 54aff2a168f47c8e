//! Running a command without showing its reply.

ghost use Rattle.std.specs.Prelude.{◌≡◌, ◌+◌, ◌≤◌, ◌<◌, ◌^◌, length, false, not, IfOk};
ghost use Rattle.lis_ports.specs.Calls.{UsesDisk};
ghost use Rattle.lis_eval.specs.Room.{HasRoom};
ghost use Rattle.lis_model.specs.Listing.{increments, locals};
ghost use Rattle.lis_model.specs.Step.{done};
ghost use Rattle.lis_store.specs.Seen.{table_of};
ghost use Rattle.lis_store.specs.Judging.{is_among};
ghost use Rattle.lis_store.specs.Stored.{IsSound, StoreFits, IsUsable};
ghost use Rattle.lis_session.specs.Settled.{StaysSettled};
ghost use Rattle.lis_session.specs.Tally.{lines_listed, Concluded, Tallies};
ghost use Rattle.lis_journal.specs.Journal.{shape_of};

use crate::changes::write_of;
use crate::moving::go;
use lis_eval::Scratch;
use lis_incr::{Listing, lines, make_listing};
use lis_line::reader::Payload;
use lis_model::command::Command;
use lis_place::Place;
use lis_ports::{Disk, Failed};
use lis_store::{ChangeFault, Store};
use lis_words::Name;

/// What is kept of a reply that is not shown.
#[derive(Clone, Copy, Debug, PartialEq, Eq)]
pub struct Tally {
    /// Whether it is a refusal.
    pub refused: bool,
    /// How many words and files it lists, if it is the reply to `ls`.
    pub listed: u64,
}

// A reply that lists nothing.
pub(crate) fn no_listing(refused: bool) -> Tally
    ensures { result ≡ record { refused = refused; listed = 0 } }
{
    Tally { refused, listed: 0 }
}

// The tally of a change of the store.
fn concluded(changed: Result<(), ChangeFault>) -> Result<Tally, Failed>
    ensures { Concluded changed result }
{
    match changed {
        Ok(()) => Ok(no_listing(false)),
        Err(ChangeFault::Refused(_)) => Ok(no_listing(true)),
        Err(ChangeFault::Disk) => Err(Failed),
    }
}

// How many lines are left.
fn count_lines(mut listing: Listing<'_, Store>) -> u64
    requires { length listing < 2 ^ 64 }
    ensures { result ≡ length listing.entry }
{
    let mut count = 0;
    while let Some(_line) = listing.next() {
        count += 1;
    }
    count
}

// How many lines the listing of the place has.
fn count_listing(store: &Store, scratch: &mut Scratch, place: &Place) -> u64
    requires sound { IsSound store.now }
    requires scratch { HasRoom scratch.old store.now.metadata.limits }
    ensures room { HasRoom scratch.new store.now.metadata.limits }
    ensures count { result ≡ length (increments (table_of store.now.metadata) place.now) + length (locals (table_of store.now.metadata) place.now) }
    ensures few { result ≤ store.now.metadata.limits.props + store.now.metadata.limits.files }
{
    make_listing(store, scratch, place);
    count_lines(lines(store, scratch))
}

// Whether there is the file of which something would be shown.
fn look(store: &Store, scratch: &mut Scratch, place: &Place, name: &Name) -> Tally
    requires { HasRoom scratch.old store.now.metadata.limits }
    ensures room { HasRoom scratch.new store.now.metadata.limits }
    ensures here { result ≡ record { refused = not (is_among store.now.metadata place.now name.now); listed = 0 } }
{
    no_listing(store.slot_here(scratch, place, name).is_none())
}

// Lists the place.
fn list(store: &Store, scratch: &mut Scratch, place: &Place) -> Tally
    requires sound { IsSound store.now }
    requires scratch { HasRoom scratch.old store.now.metadata.limits }
    ensures room { HasRoom scratch.new store.now.metadata.limits }
    ensures listed { result ≡ record {
      refused = false;
      listed = length (increments (table_of store.now.metadata) place.now) + length (locals (table_of store.now.metadata) place.now);
    } }
    ensures few { result.listed ≤ store.now.metadata.limits.props + store.now.metadata.limits.files }
{
    Tally {
        refused: false,
        listed: count_listing(store, scratch, place),
    }
}

/// Runs a command. Its reply is tallied, and not shown.
pub(crate) fn tally_command<D: Disk>(
    store: &mut Store,
    scratch: &mut Scratch,
    place: &mut Place,
    command: &Command,
    payload: &Payload,
    disk: &mut D,
) -> Result<Tally, Failed>
    requires sound { IsSound store.old }
    requires scratch { HasRoom scratch.old store.old.metadata.limits }
    requires usable { IsUsable store.old (D.meaning disk.old) }
    ensures sound { IsSound store.new }
    ensures scratch { HasRoom scratch.new store.old.metadata.limits }
    ensures tallies { Tallies (λ now. done now command.now payload.now) (λ now. lines_listed now command.now) (StoreFits store.old (D.meaning disk.old)) place.old
        (D.meaning disk.old) (D.meaning disk.new) result (StoreFits store.new (D.meaning disk.new)) place.new }
    ensures disk { UsesDisk (D.meaning disk.old) (D.meaning disk.new) result }
    ensures limits { store.new.metadata.limits ≡ store.old.metadata.limits }
    ensures image { shape_of store.new.journal ≡ shape_of store.old.journal }
    ensures unbroken { IfOk result (λ _. store.new.is_broken ≡ false) }
    ensures settled { StaysSettled store.old store.new }
    ensures few { IfOk result (λ tally. tally.listed ≤ store.old.metadata.limits.props + store.old.metadata.limits.files) }
{
    match command {
        Command::Cat(name) => Ok(look(store, scratch, place, name)),
        Command::Props(name) => Ok(look(store, scratch, place, name)),
        Command::Way(name) => Ok(look(store, scratch, place, name)),
        Command::Cd(text) => Ok(no_listing(go(store, place, text).is_err())),
        Command::Ls => Ok(list(store, scratch, place)),
        Command::Pwd => Ok(no_listing(false)),
        Command::Stat => Ok(no_listing(false)),
        Command::Mkdir(_)
        | Command::Rmdir(_)
        | Command::Axiom(..)
        | Command::Unaxiom(..)
        | Command::Create(..)
        | Command::Add(..)
        | Command::Write(_)
        | Command::Mv(..)
        | Command::Rename(..)
        | Command::Rm(_) => {
            let write = write_of(command, payload);
            concluded(store.apply(disk, scratch, place, write))
        }
    }
}
