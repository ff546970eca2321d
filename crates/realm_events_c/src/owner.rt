//! Who creates events.

ghost use Rattle.std.specs.Arc.{arc_value};
ghost use Rattle.std.specs.Prelude.{◌≡◌, ◌+◌, ◌<◌, IfOk, IfErr, IfSome, IfNone};
ghost use Rattle.shared_events.specs.Views.{lists, made_by, handle_of, number_of, shape_of, taken_of, size_of, IsMakerOf, IsPendingOf, IsSetOf, IsWaiterOf};
ghost use Rattle.realm_events_c.specs.Calls.{Creates, FindsFull, Splits, Closes};

use crate::owed::Owed;
use crate::place::Place;
use event_table::Left;
use shared_events::{Events, Maker, Pending, Waiter, WaiterSet};
use std::alloc::Global;
use std::sync::Arc;

/// The right to create, with all waiters that were not given out yet, and a place.
#[derive(Drop)]
pub struct Owner {
    /// The place of the owner.
    pub place: Place,
    /// The right to create.
    pub maker: Maker,
    /// The waiters that were not given out.
    pub waiters: WaiterSet,
    ghost at: { IsMakerOf (arc_value place.events) maker × IsSetOf (arc_value place.events) waiters },
}

impl Owner {
    /// A new event. None comes where each slot was found pending or retired.
    pub fn pending(&mut self) -> Option<Pending>
        ensures same { (self.new.place.events ≡ self.old.place.events) × (self.new.waiters ≡ self.old.waiters) }
        ensures pending { IfSome result (IsPendingOf (arc_value self.old.place.events)) }
        ensures created { IfSome result (λ p. Creates (shape_of (arc_value self.old.place.events)) (made_by self.old.maker) (made_by self.new.maker)
            (lists self.old.place.seat) (lists self.new.place.seat) (handle_of p)) }
        ensures full { IfNone result (FindsFull (shape_of (arc_value self.old.place.events)) (made_by self.old.maker) (made_by self.new.maker)
            (lists self.old.place.seat) (lists self.new.place.seat)) }
    {
        let here = &mut self.place;
        here.events.create(&mut self.maker, &mut here.seat)
    }

    /// A new event, with a second place for who is to end it, which takes another owner of the table.
    pub fn create(&mut self, events: Arc<Events, Global>) -> Option<Owed>
        requires table { arc_value events ≡ arc_value self.old.place.events }
        ensures same { (self.new.place.events ≡ self.old.place.events) × (self.new.waiters ≡ self.old.waiters) }
        ensures created { IfSome result (λ p. Creates (shape_of (arc_value self.old.place.events)) (made_by self.old.maker) (made_by self.new.maker)
            (lists self.old.place.seat) (lists self.new.place.seat) (handle_of p.pending)) }
        ensures place { IfSome result (λ p. (arc_value p.place.events ≡ arc_value self.old.place.events)
            × Splits (lists self.new.place.seat) (lists self.new.place.seat) (lists p.place.seat)) }
        ensures full { IfNone result (FindsFull (shape_of (arc_value self.old.place.events)) (made_by self.old.maker) (made_by self.new.maker)
            (lists self.old.place.seat) (lists self.new.place.seat)) }
    {
        let Some(pending) = self.pending() else {
            return None;
        };
        let place = self.place.split(events);
        Some(Owed { place, pending })
    }

    /// The next waiter, numbered from 0. None comes where all were taken.
    pub fn waiter(&mut self) -> Option<Waiter>
        ensures same { (self.new.place.events ≡ self.old.place.events) × (self.new.place.seat ≡ self.old.place.seat) × (self.new.maker ≡ self.old.maker) × (size_of self.new.waiters ≡ size_of self.old.waiters) }
        ensures some { IfSome result (λ w. (number_of w ≡ taken_of self.old.waiters) × (taken_of self.new.waiters ≡ taken_of self.old.waiters + 1)
            × (number_of w < size_of self.old.waiters) × IsWaiterOf (arc_value self.old.place.events) w) }
        ensures none { IfNone result ((taken_of self.old.waiters ≡ size_of self.old.waiters) × (taken_of self.new.waiters ≡ taken_of self.old.waiters)) }
    {
        self.waiters.take(&self.place.events)
    }

    /// The map of the table at its end. The owner comes back where another handle is at the table.
    pub fn close(self) -> Result<Left, Owner>
        ensures closed { IfOk result (λ m. Closes (shape_of (arc_value self.place.events)) (made_by self.maker) (lists self.place.seat) m) }
        ensures shared { IfErr result (λ o. o ≡ self) }
    {
        let Owner {
            place,
            maker,
            waiters,
        } = self;
        let Place { events, seat } = place;
        match Arc::try_unwrap(events) {
            Ok(events) => Ok(events.close(maker, seat)),
            Err(events) => Err(Owner {
                place: Place { events, seat },
                maker,
                waiters,
            }),
        }
    }
}
