//! A seat, with the table that it is at.

ghost use Rattle.std.specs.Arc.{arc_value};
ghost use Rattle.std.specs.Prelude.{◌≡◌};
ghost use Rattle.shared_events.specs.Seats.{HasSeen};
ghost use Rattle.shared_events.specs.Views.{lists, ended_by, fate_of, IsAt, IsReceiptOf, IsWaiterOf};
ghost use Rattle.realm_events_c.specs.Calls.{Splits, Joins, Looks, Watches, Learns};

use event_table::{Answer, Handle};
use shared_events::{Events, Receipt, Seat, Waiter, Watch};
use std::alloc::Global;
use std::sync::Arc;

/// A thread's place at a table: what it has seen and knows.
#[derive(Drop)]
pub struct Place {
    /// The table.
    pub events: Arc<Events, Global>,
    /// What the thread has seen and knows.
    pub seat: Seat,
    ghost at: { IsAt (arc_value events) seat },
}

impl Place {
    /// A second place at the table, which has seen what this one has. It takes another owner of the table.
    pub fn split(&mut self, events: Arc<Events, Global>) -> Place
        requires table { arc_value events ≡ arc_value self.old.events }
        ensures same { self.new.events ≡ self.old.events }
        ensures table { result.events ≡ events }
        ensures place { Splits (lists self.old.seat) (lists self.new.seat) (lists result.seat) }
    {
        let seat = self.events.split(&mut self.seat);
        Place { events, seat }
    }

    /// Gives this place all that the other has, and uses the other up.
    pub fn join(&mut self, other: Place)
        requires table { arc_value other.events ≡ arc_value self.old.events }
        ensures same { self.new.events ≡ self.old.events }
        ensures joined { Joins (lists self.old.seat) (lists other.seat) (lists self.new.seat) }
    {
        let Place { events: _, seat } = other;
        self.events.join(&mut self.seat, seat);
    }

    /// What becomes of a handle that the place has seen.
    pub fn look(&mut self, handle: Handle) -> Answer
        requires seen { HasSeen (lists self.old.seat) handle }
        ensures same { self.new.events ≡ self.old.events }
        ensures looked { Looks (lists self.old.seat) (lists self.new.seat) handle result }
    {
        self.events.look(&mut self.seat, handle)
    }

    /// Places the waiter on a handle that the place has seen.
    pub fn watch(&mut self, handle: Handle, waiter: Waiter) -> Watch
        requires seen { HasSeen (lists self.old.seat) handle }
        requires waiter { IsWaiterOf (arc_value self.old.events) waiter }
        ensures same { self.new.events ≡ self.old.events }
        ensures watched { Watches (arc_value self.old.events) (lists self.old.seat) (lists self.new.seat) handle waiter result }
    {
        self.events.watch(&mut self.seat, handle, waiter)
    }

    /// Learns of the end that the receipt tells.
    pub fn learn(&mut self, receipt: Receipt)
        requires receipt { IsReceiptOf (arc_value self.old.events) receipt }
        ensures same { self.new.events ≡ self.old.events }
        ensures learned { Learns (lists self.old.seat) (lists self.new.seat) (ended_by receipt) (fate_of receipt) }
    {
        self.events.learn(&mut self.seat, receipt);
    }
}
