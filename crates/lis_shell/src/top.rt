//! The top call.

ghost use Rattle.std.specs.Prelude.{◌≡◌, ◌↔◌, ℕ, ◌^◌, List, map, None, Some, false, IsTrue};
ghost use Rattle.std.specs.String.{string_bytes};
ghost use Rattle.lis_ports.specs.Calls.{StationFaultEnds, FaultEnds};
ghost use Rattle.lis_line.specs.Tagged.{room_script};
ghost use Rattle.lis_line.specs.Taking.{TakesFew};
ghost use Rattle.lis_model.specs.declared.limits.Limits.{Limits as LimitsOf};
ghost use Rattle.lis_model.specs.Ranges.{are_in_range};
ghost use Rattle.lis_model.specs.Step.{step};
ghost use Rattle.lis_model.specs.Script.{script};
ghost use Rattle.lis_model.specs.State.{State};
ghost use Rattle.lis_session.specs.Item.{IsSameStation};
ghost use Rattle.lis_session.specs.Session.{root_of, Headline, FullHeadline};
ghost use Rattle.lis_load.specs.Load.{FullLoadHeadline};
ghost use Rattle.lis_rooms.specs.Rooms.{room_step, rooms_of};
ghost use Rattle.lis_shell.specs.Words.{task_of};
ghost use Rattle.lis_shell.specs.declared.words.Task.TheVariants.{Try, Make, Upgrade, OnImage};
ghost use Rattle.lis_shell.specs.declared.words.ImageTask.{ImageTask as WorkNamed};
ghost use Rattle.lis_shell.specs.declared.words.ImageTask.TheVariants.{Run, Load, Rooms};
ghost use Rattle.lis_shell.specs.Causes.{counts, HasStatusCause};
ghost use Rattle.lis_shell.specs.Runs.{AtEntry};
ghost use Rattle.lis_shell.specs.Image.{ImageKeeps, WorkHeadline, UndoneHeadline, WorkComplete};
ghost use Rattle.lis_shell.specs.Keeps.{TryKeeps, MakeKeeps, UpgradeKeeps, work_of, TaskKeeps};

use crate::dumping::Dumping;
use crate::growing::Growing;
use crate::image::work_on_image;
use crate::loading::Loading;
use crate::parting::{Putting, Viewing, part_in};
use crate::rooming::Rooming;
use crate::serving::{INPUT_LIMIT, Running};
use crate::session::try_session;
use crate::status::Status;
use crate::words::{ImageTask, Task, task_of};
use lis_line::carrier::Halt;
use lis_line::reader::Payload;
use lis_model::limits::Limits;
use lis_open::{MakeFault, OpenFault, make, upgrade};
use lis_plain::plain::Plain;
use lis_ports::{Source, Station};
use std::alloc::Global;

fn try_from_empty<S: Source, T: Station>(
    alloc: Global,
    limits: &Limits,
    input: &mut S,
    station: &mut T,
) -> Status
    ensures keeps { TryKeeps limits.now (S.left input.old) (S.left input.new) (T.meaning station.old) (T.meaning station.new) result }
    ensures cause { HasStatusCause (counts (T.meaning station.old) (S.faults input.old)) (counts (T.meaning station.new) (S.faults input.new)) result }
    ensures first_fault { StationFaultEnds (T.meaning station.old) (T.meaning station.new) }
    ensures input_first_fault { FaultEnds (S.faults input.old) (S.behind input.old) (S.behind input.new) }
    ensures few { TakesFew (2 ^ 40) (S.left input.old) (S.left input.new) }
{
    let Ok(mut plain) = Plain::new(alloc, limits) else {
        return Status::Opening(OpenFault::NoMemory);
    };
    let Ok(mut payload) = Payload::new(alloc) else {
        return Status::Opening(OpenFault::NoMemory);
    };
    try_session(&mut plain, &mut payload, input, station, INPUT_LIMIT)
}

fn make_image<T: Station>(limits: &Limits, station: &mut T) -> Status
    requires range { IsTrue (are_in_range limits.now) }
    ensures keeps { MakeKeeps limits.now (station.new ≡ station.old) (T.meaning station.old) (T.meaning station.new) result }
    ensures cause { (n : ℕ) → HasStatusCause (counts (T.meaning station.old) n) (counts (T.meaning station.new) n) result }
    ensures first_fault { StationFaultEnds (T.meaning station.old) (T.meaning station.new) }
{
    match make(station, limits) {
        Ok(()) => Status::Ended(Halt::End),
        Err(MakeFault::TooShort(len, need)) => Status::Opening(OpenFault::TooShort(len, need)),
        Err(MakeFault::DiskFault) => Status::Opening(OpenFault::DiskFault),
    }
}

// Makes the image one of version 2.
fn upgrade_image<T: Station>(alloc: Global, station: &mut T) -> Status
    ensures keeps { UpgradeKeeps (station.new ≡ station.old) (T.meaning station.old) (T.meaning station.new) result }
    ensures cause { (n : ℕ) → HasStatusCause (counts (T.meaning station.old) n) (counts (T.meaning station.new) n) result }
    ensures first_fault { StationFaultEnds (T.meaning station.old) (T.meaning station.new) }
{
    match upgrade(alloc, station) {
        Ok(()) => Status::Ended(Halt::End),
        Err(fault) => Status::Opening(fault),
    }
}

// Runs the task that the words request, if any.
fn carry_task<S: Source, T: Station>(
    alloc: Global,
    words: &[String],
    input: &mut S,
    station: &mut T,
) -> Status
    ensures same { IsSameStation (T.meaning station.old) (T.meaning station.new) }
    ensures cause { HasStatusCause (counts (T.meaning station.old) (S.faults input.old)) (counts (T.meaning station.new) (S.faults input.new)) result }
    ensures first_fault { StationFaultEnds (T.meaning station.old) (T.meaning station.new) }
    ensures input_first_fault { FaultEnds (S.faults input.old) (S.behind input.old) (S.behind input.new) }
    ensures few { TakesFew (2 ^ 40) (S.left input.old) (S.left input.new) }
    ensures keeps { TaskKeeps (map string_bytes words.now) (task_of (map string_bytes words.now)) (input.new ≡ input.old) (station.new ≡ station.old) (S.left input.old) (S.left input.new)
        (T.meaning station.old) (T.meaning station.new) result }
{
    match task_of(words) {
        None => Status::Usage,
        Some(Task::Try(limits)) => try_from_empty(alloc, &limits, input, station),
        Some(Task::Make(limits)) => make_image(&limits, station),
        Some(Task::Upgrade) => upgrade_image(alloc, station),
        Some(Task::OnImage(ImageTask::Run)) => work_on_image(alloc, &Running, input, station),
        Some(Task::OnImage(ImageTask::Load)) => work_on_image(alloc, &Loading, input, station),
        Some(Task::OnImage(ImageTask::Rooms)) => work_on_image(alloc, &Rooming, input, station),
        Some(Task::OnImage(ImageTask::Dump)) => work_on_image(alloc, &Dumping, input, station),
        Some(Task::OnImage(ImageTask::Grow(n))) => {
            work_on_image(alloc, &Growing(n), input, station)
        }
        Some(Task::OnImage(ImageTask::View)) => {
            work_on_image(alloc, &Viewing(part_in(words)), input, station)
        }
        Some(Task::OnImage(ImageTask::Put)) => {
            work_on_image(alloc, &Putting(part_in(words)), input, station)
        }
    }
}

/// Does what the words after the program's name request.
///
/// - `try FILES PROPS BLOCKS` runs the commands of the input on a state that begins empty, and shows the replies. What the disk reads as,
///   and what a crash leaves of it, stays.
/// - `make IMAGE FILES PROPS BLOCKS` makes an image of the empty state. It reads no input and shows nothing. With `v2` after the words of
///   `try` or `make` the state is of version 2, with `v3` of version 3, and otherwise of version 1.
/// - `run IMAGE` opens the image, runs the commands of the input on it and shows the replies.
/// - `load IMAGE` does the same with many changes in one commit. A reply is shown after the commit. Of the items whose changes the image
///   has, at most 256 have replies that were not shown whole.
/// - `rooms IMAGE` does what `run` does for up to eight sessions in one stream, each at its own place. The tag of a line, `@0` to `@7`,
///   says whose line it is, and follows the reply.
/// - `upgrade IMAGE` makes the image one of version 2, unless it is of version 2 or 3. It reads no input and shows nothing.
/// - `dump IMAGE` opens the image and shows the session that makes its state again. It reads no input.
/// - `grow IMAGE N` opens the image and runs the large session that is made from the number, below 2^31. It reads no input, and shows a
///   summary instead of the replies.
/// - `view IMAGE NAME F` opens the image and shows the lines of the file NAME of which the formula F holds, with marks instead of the
///   others. It reads no input. `dump` and `view` write nothing, except what opening writes if a gate of the journal is open.
/// - `put IMAGE NAME F` opens the image, reads an edited view of the file, of at most 8,388,608 bytes, and makes the file's new bytes from
///   it.
///
/// IMAGE is not used here: the station is the image. Any other words are `Usage`, which is judged before anything is read or allocated.
///
/// In a word that opens an image, memory can run out only at the opening, with nothing shown. In `try` it can also run out between two
/// commands.
pub fn lisfs<S: Source, T: Station>(
    alloc: Global,
    words: &[String],
    input: &mut S,
    station: &mut T,
) -> Status
    ensures usage { (result ≡ Status.Usage) ↔ (task_of (map string_bytes words.now) ≡ None) }
    ensures unused { result ≡ Status.Usage → (input.new ≡ input.old) × (station.new ≡ station.old) }
    ensures same { IsSameStation (T.meaning station.old) (T.meaning station.new) }
    ensures cause { HasStatusCause (counts (T.meaning station.old) (S.faults input.old)) (counts (T.meaning station.new) (S.faults input.new)) result }
    ensures first_fault { StationFaultEnds (T.meaning station.old) (T.meaning station.new) }
    ensures input_first_fault { FaultEnds (S.faults input.old) (S.behind input.old) (S.behind input.new) }
    ensures few { TakesFew (2 ^ 40) (S.left input.old) (S.left input.new) }

    // `run`: at any moment the image represents the model's state after some first items, and what was shown is a prefix of exactly their
    // replies. Or the image is one that a stop could have left at the start, with nothing shown since.
    ensures headline { task_of (map string_bytes words.now) ≡ Some (OnImage Run) → (state : State) (bytes : List ℕ)
        → AtEntry (T.meaning station.old) (S.left input.old) state bytes
        → Headline state (script bytes (2 ^ 40)) (T.meaning station.old) (T.meaning station.new) }
    ensures headline_settled { task_of (map string_bytes words.now) ≡ Some (OnImage Run) → (state : State) (bytes : List ℕ)
        → AtEntry (T.meaning station.old) (S.left input.old) state bytes
        → ((image : List ℕ) → (T.meaning station.old).images image → image ≡ (T.meaning station.old).bytes)
        → FullHeadline step (root_of state) (script bytes (2 ^ 40)) (T.meaning station.old) (T.meaning station.new) }

    // `load` and `rooms` on an image of which nothing is unsynced: each moment is one of the work, without an exception.
    ensures load_settled { task_of (map string_bytes words.now) ≡ Some (OnImage Load) → (state : State) (bytes : List ℕ)
        → AtEntry (T.meaning station.old) (S.left input.old) state bytes
        → ((image : List ℕ) → (T.meaning station.old).images image → image ≡ (T.meaning station.old).bytes)
        → FullLoadHeadline (root_of state) (script bytes (2 ^ 40)) (T.meaning station.old) (T.meaning station.new) }
    ensures rooms_settled { task_of (map string_bytes words.now) ≡ Some (OnImage Rooms) → (state : State) (bytes : List ℕ)
        → AtEntry (T.meaning station.old) (S.left input.old) state bytes
        → ((image : List ℕ) → (T.meaning station.old).images image → image ≡ (T.meaning station.old).bytes)
        → FullHeadline room_step (rooms_of state) (room_script bytes (2 ^ 40)) (T.meaning station.old) (T.meaning station.new) }

    // Each work on an image: each moment is a moment of the work; or the image is one that a stop could have left at the start, with
    // nothing shown since. If the image was not opened, or the input of `put` was not read to its end, the work was not begun at any
    // moment.
    ensures work_headline { (task : WorkNamed) → task_of (map string_bytes words.now) ≡ Some (OnImage task)
        → WorkHeadline (work_of (map string_bytes words.now) task) (S.left input.old) (T.meaning station.old) (T.meaning station.new) }
    ensures work_undone { (task : WorkNamed) → task_of (map string_bytes words.now) ≡ Some (OnImage task)
        → UndoneHeadline (work_of (map string_bytes words.now) task) (S.left input.old) (T.meaning station.old) (T.meaning station.new) result }
    ensures work_complete { (task : WorkNamed) → task_of (map string_bytes words.now) ≡ Some (OnImage task)
        → WorkComplete (work_of (map string_bytes words.now) task) (S.left input.old) (S.left input.new)
        (counts (T.meaning station.old) (S.faults input.old)) (counts (T.meaning station.new) (S.faults input.new)) (T.meaning station.old) (T.meaning station.new) result }

    // What each task keeps. `make` and `upgrade` leave the input alone, and so does each work on an image that takes none.
    ensures tries { (limits : LimitsOf) → task_of (map string_bytes words.now) ≡ Some (Try limits)
        → TryKeeps limits (S.left input.old) (S.left input.new) (T.meaning station.old) (T.meaning station.new) result }
    ensures makes { (limits : LimitsOf) → task_of (map string_bytes words.now) ≡ Some (Make limits)
        → MakeKeeps limits (station.new ≡ station.old) (T.meaning station.old) (T.meaning station.new) result × (input.new ≡ input.old) }
    ensures works { (task : WorkNamed) → task_of (map string_bytes words.now) ≡ Some (OnImage task)
        → ImageKeeps (work_of (map string_bytes words.now) task) (input.new ≡ input.old) (station.new ≡ station.old) (S.left input.old) (S.left input.new)
        (T.meaning station.old) (T.meaning station.new) result × ((work_of (map string_bytes words.now) task).takes_input ≡ false → input.new ≡ input.old) }
    ensures upgrades { task_of (map string_bytes words.now) ≡ Some Upgrade
        → UpgradeKeeps (station.new ≡ station.old) (T.meaning station.old) (T.meaning station.new) result × (input.new ≡ input.old) }
{
    carry_task(alloc, words, input, station)
}
