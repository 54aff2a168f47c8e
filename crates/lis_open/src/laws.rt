//! A law on images whose checks fail. It is the contract of an empty function.

ghost use Rattle.lis_open.specs.Laws.{FailingStandsForNone};

/// An image of which a part fails its check represents no state.
pub fn failing_stands_for_none()
    ensures { FailingStandsForNone }
{}
