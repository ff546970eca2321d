//! What holds of a table at each moment, over all interleavings.

ghost use Rattle.shared_events.specs.Laws.{OnePlace, PendingWhileHeld};

/// A waiter is at each moment in one place: in a hand, on one pending handle, or caught by one end.
pub fn one_place()
    ensures { OnePlace }
{}

/// A handle is pending as long as somebody has the right to end it.
pub fn pending_while_held()
    ensures { PendingWhileHeld }
{}
