//! Rooms: sessions over one state, each at its own place, in one stream of items.
#![tactic(auto)]

ghost use Rattle.lis_rooms.specs.Laws.{RoomStepsAreRegular, RoomsOneForm, StatesAreTold, RoomsSeeOwn, QuietIsUnseen, QuietRoomsAreAbsent};

mod carrying;
pub mod rooms;
pub mod serving;

/// A step in a room has a reply that is not empty, and the limits stay, as with every step of a session.
pub fn room_steps_are_regular()
    ensures { RoomStepsAreRegular }
{}

/// A moment of the rooms can be stated by how many items were run, or by the replies that were shown whole. The two statements are the
/// same.
pub fn rooms_one_form()
    ensures { RoomsOneForm }
{}

/// The test of two states is true exactly if they are equal.
pub fn states_are_told()
    ensures { StatesAreTold }
{}

/// A room hears its own items and the changes of the state alone.
pub fn rooms_see_own()
    ensures { RoomsSeeOwn }
{}

/// The other rooms do not see an item that changes nothing.
pub fn quiet_is_unseen()
    ensures { QuietIsUnseen }
{}

/// A room does not notice other rooms that change no state, whatever places they go to.
pub fn quiet_rooms_are_absent()
    ensures { QuietRoomsAreAbsent }
{}
