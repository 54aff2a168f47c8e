//! The dump of a state: the session that makes the state again, as text.
#![tactic(auto)]

ghost use Rattle.lis_replay.specs.Law.{DumpsMake};

/// From the empty state of the same limits each item of the session gets the reply `ok` alone, and the session makes the state again.
pub fn dumps_make()
    ensures { DumpsMake }
{}
