//! A state and a place as plain lists, and how an item is run.

ghost use Rattle.std.specs.Prelude.{◌≡◌, Bool, List, IfOk, IfSome, IsSome, MatchOption};
ghost use Rattle.lis_ports.specs.Calls.{IsShowCall, StationFaultEnds};
ghost use Rattle.lis_ports.specs.Since.{IsShowRun};
ghost use Rattle.lis_model.specs.declared.refusal.Refusal.{Refusal};
ghost use Rattle.lis_model.specs.declared.refusal.Refusal.TheVariants.{NoFileHere};
ghost use Rattle.lis_model.specs.Step.{Situation, Outcome, start_of, step, done, judged, changed, refused};
ghost use Rattle.lis_line.specs.Reading.{asked_by};
ghost use Rattle.lis_plain.specs.Carries.{Carries, HasPlainCause, IsAnswered, Says, answer_line};

use crate::end::PlainEnd;
use crate::state::{State, empty_state};
use lis_line::reader::{Item, Payload};
use lis_model::command::Command;
use lis_model::limits::Limits;
use lis_model::refusal::Refusal;
use lis_place::Place;
use lis_ports::{Failed, Station};
use lis_reply::{show_all, show_ok, show_refusal};
use lis_table::closure::Axiom;
use lis_words::Word;
use std::alloc::{AllocError, Global};
use std::marker::Model;

/// A state and a place, as plain lists.
#[derive(Drop)]
pub struct Plain {
    pub(crate) alloc: Global,
    state: State,
    place: Place,
}

impl Model for Plain {
    ghost use Rattle.lis_model.specs.Step.{Situation};
    ghost use Rattle.lis_model.specs.Codes.{situation_code};

    ghost Value = { Situation };

    ghost coded = { situation_code };

    ghost view = { λ p. record { state = p.state; place = p.place } };
}

/// Whether the command was done, or why it was refused.
pub type Answer = Result<(), Refusal>;

impl Plain {
    /// The empty state of these limits, at the root.
    pub fn new(alloc: Global, limits: &Limits) -> Result<Plain, AllocError>
        ensures { IfOk result (λ plain. plain ≡ start_of limits.now) }
    {
        Ok(Plain {
            alloc,
            state: empty_state(alloc, limits),
            place: Place::root(),
        })
    }

    pub(crate) fn state(&self) -> &State
        ensures { result.now ≡ self.now.state }
    {
        &self.state
    }

    pub(crate) fn place(&self) -> &Place
        ensures { result.now ≡ self.now.place }
    {
        &self.place
    }

    // Goes to the place.
    pub(crate) fn go(&mut self, place: Place)
        ensures { self.new ≡ record { state = self.old.state; place = place } }
    {
        self.place = place;
    }

    // Keeps the state that a command made, unless the command's row refuses it.
    pub(crate) fn settle(&mut self, made: State, answer: Answer) -> Result<Answer, AllocError>
        ensures { (checks : List (Bool × Refusal)) → Says checks answer → IsAnswered (judged self.old checks (changed self.old made)) self.old self.new result }
    {
        match answer {
            Err(refusal) => Ok(Err(refusal)),
            Ok(()) => {
                self.state = made;
                Ok(Ok(()))
            }
        }
    }
}

fn show_answer<T: Station>(station: &mut T, answer: &Answer) -> Result<(), Failed>
    ensures { IsShowRun (T.meaning station.old) (T.meaning station.new) (answer_line answer.now) result }
{
    match answer {
        Ok(()) => show_ok(station),
        Err(refusal) => show_refusal(station, refusal),
    }
}

// Shows the reply to a command that shows only `ok` or its refusal.
fn end_answer<T: Station>(
    answer: Result<Answer, AllocError>,
    station: &mut T,
) -> Result<(), PlainEnd>
    ensures step { (outcome : Outcome) (before after : Situation) → IsAnswered outcome before after answer →
        Carries outcome before after (T.meaning station.old).shown (T.meaning station.new).shown result }
    ensures cause { HasPlainCause (T.meaning station.old).show_faults (T.meaning station.new).show_faults result }
    ensures first_fault { StationFaultEnds (T.meaning station.old) (T.meaning station.new) }
    ensures call { IsShowCall (T.meaning station.old) (T.meaning station.new) }
{
    let answer = answer?;
    show_answer(station, &answer)?;
    Ok(())
}

// Shows the whole reply of a command that changes nothing.
fn end_reply<T: Station>(
    reply: Result<Vec<u8>, AllocError>,
    station: &mut T,
) -> Result<(), PlainEnd>
    ensures step { (outcome : Outcome) → IfOk reply (λ bytes. bytes.items ≡ outcome.reply) →
        Carries outcome outcome.next outcome.next (T.meaning station.old).shown (T.meaning station.new).shown result }
    ensures cause { HasPlainCause (T.meaning station.old).show_faults (T.meaning station.new).show_faults result }
    ensures first_fault { StationFaultEnds (T.meaning station.old) (T.meaning station.new) }
    ensures call { IsShowCall (T.meaning station.old) (T.meaning station.new) }
{
    let reply = reply?;
    show_all(station, &reply)?;
    Ok(())
}

// Shows the whole reply of a command on a file, or that no file of its name is here.
fn end_found<T: Station>(
    found: Result<Option<Vec<u8>>, AllocError>,
    station: &mut T,
) -> Result<(), PlainEnd>
    ensures step { (outcome : Outcome) (now : Situation) → IfOk found (λ shown. MatchOption shown (outcome ≡ refused now NoFileHere) (λ bytes. outcome ≡ record { next = now; reply = bytes.items })) →
        Carries outcome now now (T.meaning station.old).shown (T.meaning station.new).shown result }
    ensures cause { HasPlainCause (T.meaning station.old).show_faults (T.meaning station.new).show_faults result }
    ensures first_fault { StationFaultEnds (T.meaning station.old) (T.meaning station.new) }
    ensures call { IsShowCall (T.meaning station.old) (T.meaning station.new) }
{
    match found? {
        None => {
            show_refusal(station, &Refusal::NoFileHere)?;
            Ok(())
        }
        Some(reply) => {
            show_all(station, &reply)?;
            Ok(())
        }
    }
}

fn pair_of(left: &Word, right: &Word) -> Axiom
    ensures { result ≡ (left.now, right.now) }
{
    Axiom {
        left: left.copied(),
        right: right.copied(),
    }
}

impl Plain {
    fn carry_out<T: Station>(
        &mut self,
        command: &Command,
        payload: &Payload,
        station: &mut T,
    ) -> Result<(), PlainEnd>
        ensures step { Carries (done self.old command.now payload.now) self.old self.new (T.meaning station.old).shown (T.meaning station.new).shown result }
        ensures cause { HasPlainCause (T.meaning station.old).show_faults (T.meaning station.new).show_faults result }
        ensures first_fault { StationFaultEnds (T.meaning station.old) (T.meaning station.new) }
        ensures call { IsShowCall (T.meaning station.old) (T.meaning station.new) }
    {
        match command {
            Command::Mkdir(word) => end_answer(self.mkdir(word), station),
            Command::Rmdir(word) => end_answer(self.rmdir(word), station),
            Command::Axiom(l, r) => end_answer(self.add_axiom(&pair_of(l, r)), station),
            Command::Unaxiom(l, r) => end_answer(self.unaxiom(&pair_of(l, r)), station),
            Command::Create(name, tags) => end_answer(self.create(name, tags), station),
            Command::Add(name, tags) => end_answer(self.add(name, tags, payload), station),
            Command::Write(name) => end_answer(self.write(name, payload), station),
            Command::Mv(name, text) => end_answer(self.mv(name, text), station),
            Command::Rename(name, other) => end_answer(self.rename(name, other), station),
            Command::Rm(name) => end_answer(self.rm(name), station),
            Command::Cd(text) => end_answer(self.cd(text), station),
            Command::Pwd => end_reply(self.placed(), station),
            Command::Ls => end_reply(self.listing(), station),
            Command::Stat => end_reply(self.counts(), station),
            Command::Cat(name) => end_found(self.content(name), station),
            Command::Props(name) => end_found(self.described(name), station),
            Command::Way(name) => end_found(self.led(name), station),
        }
    }

    fn refuse<T: Station>(&mut self, refusal: &Refusal, station: &mut T) -> Result<(), PlainEnd>
        ensures step { Carries (refused self.old refusal.now) self.old self.new (T.meaning station.old).shown (T.meaning station.new).shown result }
        ensures cause { HasPlainCause (T.meaning station.old).show_faults (T.meaning station.new).show_faults result }
        ensures first_fault { StationFaultEnds (T.meaning station.old) (T.meaning station.new) }
        ensures call { IsShowCall (T.meaning station.old) (T.meaning station.new) }
    {
        show_refusal(station, refusal)?;
        Ok(())
    }

    /// Runs one item and shows its reply.
    pub fn step<T: Station>(
        &mut self,
        item: &Item,
        payload: &Payload,
        station: &mut T,
    ) -> Result<(), PlainEnd>
        requires { IsSome (asked_by item.now payload.now) }
        ensures step { IfSome (asked_by item.now payload.now) (λ asked.
            Carries (step self.old asked) self.old self.new (T.meaning station.old).shown (T.meaning station.new).shown result) }
        ensures cause { HasPlainCause (T.meaning station.old).show_faults (T.meaning station.new).show_faults result }
        ensures first_fault { StationFaultEnds (T.meaning station.old) (T.meaning station.new) }
        ensures call { IsShowCall (T.meaning station.old) (T.meaning station.new) }
    {
        match item {
            Item::Command(command) => self.carry_out(command, payload, station),
            Item::Bad(refusal) => self.refuse(refusal, station),
            Item::End | Item::Limit => unreachable!(),
        }
    }
}
