//! An image that is opened, and the one work of a word on it.

ghost use Rattle.std.specs.Prelude.{◌≡◌, ℕ, ◌^◌, List, [], Some, false, IfOk, IfErr, IsTrue};
ghost use Rattle.lis_ports.specs.Calls.{StationFaultEnds, FaultEnds};
ghost use Rattle.lis_ports.specs.Runs.{Adds};
ghost use Rattle.lis_ports.specs.Since.{Since};
ghost use Rattle.lis_line.specs.Taking.{TakesFew};
ghost use Rattle.lis_model.specs.State.{State};
ghost use Rattle.lis_store.specs.Stands.{Stands};
ghost use Rattle.lis_store.specs.Stored.{IsSound, StoreFits, IsUsable};
ghost use Rattle.lis_session.specs.Item.{IsSameStation};
ghost use Rattle.lis_session.specs.Runs.{Goes};
ghost use Rattle.lis_session.specs.Showing.{DiskStays};
ghost use Rattle.lis_shell.specs.Causes.{counts, HasStatusCause};
ghost use Rattle.lis_shell.specs.declared.status.Status.TheVariants.{Ended};
ghost use Rattle.lis_shell.specs.Image.{Work, Told, halted, status_of, writes_nothing, NotBegun, ImageKeeps};

use crate::status::Status;
use lis_line::carrier::Halt;
use lis_line::reader::Payload;
use lis_open::{OpenFault, mount};
use lis_ports::{Source, Station};
use lis_session::end::End;
use lis_session::session::Session;
use lis_store::Store;
use std::alloc::{AllocError, Global};

/// The work of a word on an opened image.
pub trait ImageWork {
    /// What it states of its moments and of its end.
    ghost says: { Self → Work };

    /// Does the work. It allocates all memory first, and if memory runs out it does nothing. It takes at most one byte past the limit of an
    /// input.
    fn carry_on<S: Source, T: Station>(
        &self,
        alloc: Global,
        store: Store,
        input: &mut S,
        station: &mut T,
    ) -> Result<Halt<End>, AllocError>
        requires sound { IsSound store }
        requires usable { IsUsable store (T.meaning station.old) }
        ensures same { IsSameStation (T.meaning station.old) (T.meaning station.new) }
        ensures cause { HasStatusCause (counts (T.meaning station.old) (S.faults input.old)) (counts (T.meaning station.new) (S.faults input.new)) (status_of result) }
        ensures first_fault { StationFaultEnds (T.meaning station.old) (T.meaning station.new) }
        ensures input_first_fault { FaultEnds (S.faults input.old) (S.behind input.old) (S.behind input.new) }
        ensures few { TakesFew (2 ^ 40) (S.left input.old) (S.left input.new) }
        ensures untaken { (says self.now).takes_input ≡ false → input.new ≡ input.old }
        ensures refused { IfErr result (λ _. (input.new ≡ input.old) × (station.new ≡ station.old)) }
        ensures only { IfOk result (says self.now).may_end }
        ensures input { IfOk result (λ halt. (bytes : List ℕ) → S.left input.old ≡ Some bytes → (says self.now).input bytes (S.left input.new) halt) }
        ensures disk { IfOk result (λ halt. IsTrue (writes_nothing (says self.now) (Ended halt)) → IsTrue (T.meaning station.old).is_honest
            → DiskStays (T.meaning station.old) (T.meaning station.new)) }
        ensures undone { IfOk result (λ halt. IsTrue ((says self.now).undone (Ended halt)) → (state : State) (bytes : List ℕ)
            → StoreFits store (T.meaning station.old) state → Told (says self.now).takes_input (S.left input.old) bytes
            → Adds (T.meaning station.old) (T.meaning station.new) (Since (T.meaning station.old).shown (NotBegun state))) }
        ensures goes { IfOk result (λ halt. (state : State) (bytes : List ℕ) → StoreFits store (T.meaning station.old) state
            → Told (says self.now).takes_input (S.left input.old) bytes
            → Goes ((says self.now).moment state bytes) state.limits (T.meaning station.old) (T.meaning station.new)
            ((says self.now).ended state bytes (S.left input.new) (T.meaning station.old).shown (T.meaning station.new) halt)) };

    /// Before anything was shown the image may represent the initial state.
    ghost quiet: { (work : Self) (state : State) (bytes image : List ℕ) → Stands image state → (says work).moment state bytes image [] };
}

/// A session at the root over the store, and room for payloads. If memory runs out the store is dropped.
pub fn open_session(alloc: Global, store: Store) -> Result<(Session, Payload), AllocError>
    ensures { IfOk result (λ opened. opened.0 ≡ record { store = store; place = [] }) }
{
    let session = Session::new(alloc, store)?;
    match Payload::new(alloc) {
        Ok(payload) => Ok((session, payload)),
        Err(refused) => {
            session.close();
            Err(refused)
        }
    }
}

/// How a work that takes no input ended.
pub fn halted(done: Result<(), End>) -> Halt<End>
    ensures { result ≡ halted done }
{
    match done {
        Ok(()) => Halt::End,
        Err(end) => Halt::Stopped(end),
    }
}

/// Opens the image, and does the work on it. All memory is allocated before the work begins.
pub fn work_on_image<W: ImageWork, S: Source, T: Station>(
    alloc: Global,
    work: &W,
    input: &mut S,
    station: &mut T,
) -> Status
    ensures same { IsSameStation (T.meaning station.old) (T.meaning station.new) }
    ensures cause { HasStatusCause (counts (T.meaning station.old) (S.faults input.old)) (counts (T.meaning station.new) (S.faults input.new)) result }
    ensures first_fault { StationFaultEnds (T.meaning station.old) (T.meaning station.new) }
    ensures input_first_fault { FaultEnds (S.faults input.old) (S.behind input.old) (S.behind input.new) }
    ensures few { TakesFew (2 ^ 40) (S.left input.old) (S.left input.new) }
    ensures untaken { (W.says work.now).takes_input ≡ false → input.new ≡ input.old }
    ensures keeps { ImageKeeps (W.says work.now) (input.new ≡ input.old) (station.new ≡ station.old) (S.left input.old) (S.left input.new)
        (T.meaning station.old) (T.meaning station.new) result }
{
    match mount(alloc, station) {
        Ok(store) => match work.carry_on(alloc, store, input, station) {
            Ok(halt) => Status::Ended(halt),
            Err(_) => Status::Opening(OpenFault::NoMemory),
        },
        Err(fault) => Status::Opening(fault),
    }
}
