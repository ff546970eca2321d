//! The right to end an event, and what is left of it once it has ended.

ghost use Rattle.std.specs.Arc.{arc_value};
ghost use Rattle.std.specs.Prelude.{◌≡◌, IfSome, IfNone};
ghost use Rattle.shared_events.specs.Views.{lists, handle_of, number_of, ended_by, fate_of, IsPendingOf, IsReceiptOf, IsCaughtOf, IsWaiterOf};
ghost use Rattle.realm_events_c.specs.Calls.{Ends, Leaves, Gives, Empties};

use crate::place::Place;
use event_table::Fate;
use shared_events::{Caught, Pending, Receipt, Waiter};

/// The right to end a handle, with a place.
pub struct Owed {
    /// The place of who is to end it.
    pub place: Place,
    /// The right.
    pub pending: Pending,
    ghost at: { IsPendingOf (arc_value place.events) pending },
}

impl Drop for Owed {
    fn drop(self) {
        let _ = self.leave();
    }
}

/// The receipt of an end and the waiters that stood on the handle, with a place that knows of it.
#[derive(Drop)]
pub struct Ended {
    /// The place, which knows of the end.
    pub place: Place,
    /// The receipt of the end.
    pub receipt: Receipt,
    /// The waiters that stood on the handle.
    pub caught: Caught,
    ghost at: { IsReceiptOf (arc_value place.events) receipt × IsCaughtOf (arc_value place.events) caught },
}

impl Owed {
    /// Ends the event.
    pub fn end(self, fate: Fate) -> Ended
        ensures same { result.place.events ≡ self.place.events }
        ensures ended { Ends (arc_value self.place.events) (lists self.place.seat) (lists result.place.seat) (handle_of self.pending) fate
            result.receipt result.caught }
    {
        let Owed { place, pending } = self;
        let Place { events, mut seat } = place;
        let (receipt, caught) = events.end(&mut seat, pending, fate);
        Ended {
            place: Place { events, seat },
            receipt,
            caught,
        }
    }

    /// Gives the right up: the event stays pending for good.
    pub fn leave(self) -> Place
        ensures same { result.events ≡ self.place.events }
        ensures left { Leaves (lists self.place.seat) (lists result.seat) (handle_of self.pending) }
    {
        let Owed { place, pending } = self;
        let Place { events, mut seat } = place;
        events.leave(&mut seat, pending);
        Place { events, seat }
    }
}

impl Ended {
    /// A waiter that stood on the handle, each once.
    pub fn next(&mut self) -> Option<Waiter>
        ensures same { (self.new.place.events ≡ self.old.place.events) × (self.new.receipt ≡ self.old.receipt) }
        ensures some { IfSome result (λ w. IsWaiterOf (arc_value self.old.place.events) w
            × Gives (lists self.old.place.seat) (lists self.new.place.seat) self.old.caught self.new.caught (number_of w)) }
        ensures none { IfNone result (Empties (lists self.old.place.seat) (lists self.new.place.seat) self.old.caught) }
    {
        self.caught.next(&self.place.events, &mut self.place.seat)
    }

    /// One more receipt of the end.
    pub fn receipt(&mut self) -> Receipt
        ensures same { (self.new.place.events ≡ self.old.place.events) × (self.new.place.seat ≡ self.old.place.seat) × (self.new.caught ≡ self.old.caught)
            × (ended_by self.new.receipt ≡ ended_by self.old.receipt) × (fate_of self.new.receipt ≡ fate_of self.old.receipt) }
        ensures receipt { IsReceiptOf (arc_value self.old.place.events) result
            × (ended_by result ≡ ended_by self.old.receipt) × (fate_of result ≡ fate_of self.old.receipt) }
    {
        self.receipt.again(&self.place.events)
    }
}
