//! Putting an edited view of a file back.

ghost use Rattle.std.specs.Prelude.{◌≡◌, ◌≤◌, ℕ, List, [], Some, length, IfOk, IsTrue};
ghost use Rattle.lis_ports.specs.Calls.{FaultEnds, ReadsDisk};
ghost use Rattle.lis_line.specs.Endings.{HasHaltCause};
ghost use Rattle.lis_line.specs.Taking.{TakesFew};
ghost use Rattle.lis_eval.specs.Room.{HasRoom};
ghost use Rattle.lis_catalog.specs.Catalog.{slot_of};
ghost use Rattle.lis_model.specs.State.{State};
ghost use Rattle.lis_model.specs.Changes.{file_of};
ghost use Rattle.lis_model.specs.Step.{Situation};
ghost use Rattle.lis_views.specs.Edits.{Back, back_of};
ghost use Rattle.lis_cuts.specs.Returns.{Returns};
ghost use Rattle.lis_store.specs.Stored.{IsSound, StoreFits, IsUsable};
ghost use Rattle.lis_session.specs.Ending.{result_of, InputRead};
ghost use Rattle.lis_session.specs.Item.{Does, StoreLeft};
ghost use Rattle.lis_session.specs.Parts.{Ends};
ghost use Rattle.lis_parts.specs.Commands.{put_as, put};
ghost use Rattle.lis_parts.specs.Putting.{view_limit, is_untaken, put_by};

use crate::formula::read_place;
use crate::loading::load;
use crate::workspace::Workspace;
use lis_cuts::back::{Returned, put_back};
use lis_eval::{Scratch, View};
use lis_line::carrier::Halt;
use lis_line::reader::Payload;
use lis_model::refusal::Refusal;
use lis_place::Place;
use lis_ports::{Disk, Failed, Source, Station};
use lis_session::end::End;
use lis_session::replies::{answer_bytes, answer_refusal, conclude};
use lis_store::{Store, Write};
use lis_words::Name;

// Reads the file in the slot, and makes its new bytes by the edited view.
fn make_new<D: Disk>(
    store: &Store,
    file: &mut Payload,
    made: &mut Payload,
    disk: &mut D,
    slot: u32,
    place: &Place,
    edited: &[u8],
) -> Result<Returned, Failed>
    requires sound { IsSound store.now }
    requires named { (name : List ℕ) × (slot_of store.now.metadata.catalog name ≡ Some slot) }
    requires short { length edited.now ≤ view_limit }
    requires usable { IsUsable store.now (D.meaning disk.old) }
    ensures makes { IfOk result (λ returned. (s : State) (name : List ℕ) → StoreFits store.now (D.meaning disk.old) s
        → slot_of store.now.metadata.catalog name ≡ Some slot → Returns (back_of (file_of s.files name).bytes place.now edited.now) returned made.new) }
    ensures disk { ReadsDisk (D.meaning disk.old) (D.meaning disk.new) result }
    ensures fits { (s : State) → StoreFits store.now (D.meaning disk.old) s → StoreFits store.now (D.meaning disk.new) s }
{
    let size = store.file_size(slot);
    load(store, slot, size, file, disk)?;
    Ok(put_back(place, file.bytes(), edited, made))
}

// Writes what the edited view makes of the file, or shows why the view is refused.
fn carry_back<T: Station>(
    store: &mut Store,
    scratch: &mut Scratch,
    station: &mut T,
    name: &Name,
    returned: Returned,
    made: &Payload,
) -> Result<(), End>
    requires scratch { HasRoom scratch.old store.old.metadata.limits }
    requires sound { IsSound store.old }
    requires usable { IsUsable store.old (T.meaning station.old) }
    ensures puts { (back : Back) → Returns back returned made.now
        → Does (λ (now : Situation). put_as now name.now back) (StoreFits store.old (T.meaning station.old)) []
        (T.meaning station.old) (T.meaning station.new) result (StoreFits store.new (T.meaning station.new)) [] }
    ensures ends { Ends (T.meaning station.old) (T.meaning station.new) result }
    ensures left { StoreLeft store.old store.new result }
    ensures sound { IsSound store.new }
    ensures scratch { HasRoom scratch.new store.old.metadata.limits }
{
    match returned {
        Returned::NotInForm => answer_bytes(station, b"no 26 not a view\n"),
        Returned::OtherMarks => answer_bytes(station, b"no 27 marks\n"),
        Returned::Whole => {
            let root = Place::root();
            let write = Write::Write(name, made.bytes(), made.size());
            let written = store.apply(station, scratch, &root, write);
            conclude(station, written)
        }
    }
}

/// An edited view, which was read to its end, the name of its file and the text of its formula.
#[derive(Clone, Copy)]
struct Edit<'a> {
    name: &'a Name,
    text: &'a [u8],
    edited: &'a [u8],
}

// Puts the edited view back.
fn put_back_file<T: Station>(
    store: &mut Store,
    scratch: &mut Scratch,
    file: &mut Payload,
    made: &mut Payload,
    station: &mut T,
    edit: Edit,
) -> Result<(), End>
    requires scratch { HasRoom scratch.old store.old.metadata.limits }
    requires short { length edit.edited.now ≤ view_limit }
    requires sound { IsSound store.old }
    requires usable { IsUsable store.old (T.meaning station.old) }
    ensures puts { Does (λ (now : Situation). put now edit.entry.name.now edit.entry.text.now edit.entry.edited.now) (StoreFits store.old (T.meaning station.old)) []
        (T.meaning station.old) (T.meaning station.new) result (StoreFits store.new (T.meaning station.new)) [] }
    ensures ends { Ends (T.meaning station.old) (T.meaning station.new) result }
    ensures left { StoreLeft store.old store.new result }
    ensures sound { IsSound store.new }
    ensures scratch { HasRoom scratch.new store.old.metadata.limits }
{
    let place = match read_place(edit.text) {
        Ok(place) => place,
        Err(refusal) => return answer_refusal(station, &refusal),
    };
    let Some(slot) = store.slot_of(edit.name) else {
        return answer_refusal(station, &Refusal::NoFileHere);
    };
    let Ok(returned) = make_new(store, file, made, station, slot, &place, edit.edited) else {
        return Err(End::DiskFault);
    };
    carry_back(store, scratch, station, edit.name, returned, made)
}

/// Reads an edited view of the file of that name under the formula of the text, and writes what it makes of the file: the hidden lines are
/// at their marks, and the others are those of the view. It reads the input to its end before anything is judged, and at most one byte past
/// 8,388,608. A longer input changes and shows nothing.
///
/// It is refused if the text is no formula or too large, if the state has no such file, if the input is not a view, if its marks are not
/// those of the view, each once and in order, and then as a `write` of the new bytes is.
pub fn put_file<S: Source, T: Station>(
    store: &mut Store,
    workspace: &mut Workspace,
    input: &mut S,
    station: &mut T,
    name: &Name,
    text: &[u8],
) -> Halt<End>
    requires limits { workspace.old ≡ store.old.metadata.limits }
    requires sound { IsSound store.old }
    requires usable { IsUsable store.old (T.meaning station.old) }
    ensures puts { (bytes : List ℕ) → S.left input.old ≡ Some bytes
        → Does (λ (now : Situation). put_by result now name.now text.now bytes) (StoreFits store.old (T.meaning station.old)) []
        (T.meaning station.old) (T.meaning station.new) (result_of result) (StoreFits store.new (T.meaning station.new)) [] }
    ensures unbegun { IsTrue (is_untaken result) → (station.new ≡ station.old) × (store.new ≡ store.old) }
    ensures ends { Ends (T.meaning station.old) (T.meaning station.new) (result_of result) }
    ensures left { StoreLeft store.old store.new (result_of result) }
    ensures sound { IsSound store.new }
    ensures input { (bytes : List ℕ) → S.left input.old ≡ Some bytes → InputRead view_limit bytes (S.left input.new) result }
    ensures cause { HasHaltCause (S.faults input.old) (S.faults input.new) result }
    ensures input_first_fault { FaultEnds (S.faults input.old) (S.behind input.old) (S.behind input.new) }
    ensures few { TakesFew view_limit (S.left input.old) (S.left input.new) }
    ensures limits { workspace.new ≡ workspace.old }
{
    match workspace.edited.gather(input) {
        Ok(true) => {}
        Ok(false) => return Halt::Limit,
        Err(_) => return Halt::InputFault,
    }
    let edit = Edit {
        name,
        text,
        edited: workspace.edited.bytes(),
    };
    let put = put_back_file(
        store,
        &mut workspace.scratch,
        &mut workspace.file,
        &mut workspace.made,
        station,
        edit,
    );
    match put {
        Ok(()) => Halt::End,
        Err(end) => Halt::Stopped(end),
    }
}
