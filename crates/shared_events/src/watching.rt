//! Watching events.

ghost use Rattle.event_table.specs.Words.{turns_of};
ghost use Rattle.shared_events.specs.Seats.{HasSeen, IsPast, Knows, Grows, Keeps, SameGiven, no_event};
ghost use Rattle.shared_events.specs.Views.{lists, shape_of, IsAt, IsWaiterOf, IsOver, Watched, Attached};
ghost use Rattle.std.specs.Prelude.{◌≡◌, ◌≢◌, ◌+◌, ◌*◌, ◌<◌, ◌≤◌, Contains};

use crate::events::Events;
use crate::plays::{Both, Deals, Link, Look, Put};
use crate::tokens::{Seat, Waiter, Watch};
use event_table::word::{is_no_event, turns};
use event_table::{Fate, Handle};

impl Events {
    /// Places the waiter on a handle that the seat has seen. Over comes where the handle has ended,
    /// with its fate, which the seat then knows; Moved where the handle is pending and its slot's
    /// word changed after this call loaded it.
    pub fn watch(&self, seat: &mut Seat, handle: Handle, waiter: Waiter) -> Watch
        requires at { IsAt self.now seat.old }
        requires waiter { IsWaiterOf self.now waiter }
        requires seen { HasSeen (lists seat.old) handle }
        ensures at { IsAt self.now seat.new }
        ensures grows { Grows (lists seat.old) (lists seat.new) }
        ensures kept { Keeps (lists seat.old) (lists seat.new) }
        ensures told { Watched self.now (lists seat.old) (lists seat.new) handle waiter result }
        ensures none { handle ≡ no_event → result ≡ Watch.Over Fate.Ok waiter }
        ensures still { handle ≡ no_event → lists seat.new ≡ lists seat.old }
        ensures known { (f : Fate) → handle ≢ no_event → Knows (lists seat.old) handle f → IsOver f result }
        ensures past { handle ≢ no_event → IsPast (lists seat.old) handle → (f : Fate) × IsOver f result }
        ensures emptied { handle ≢ no_event → Contains (lists seat.old).emptied handle → (f : Fate) × IsOver f result }
        ensures left { (f : Fate) → handle ≢ no_event → Contains (lists seat.old).left handle → IsOver f result → ⊥ }
        ensures same_seen { (lists seat.new).seen ≡ (lists seat.old).seen }
        ensures same_given { SameGiven (lists seat.old) (lists seat.new) }
    {
        if is_no_event(handle) {
            return Watch::Over(Fate::Ok, waiter);
        }
        let at = self.word_of(handle);
        let found = self.table.shared.load::<Look>(&mut seat.inner, at);
        if turns(found) >= 2 * handle.gen_ as u64 + 2 {
            let fate = self.fate_of(seat, handle);
            return Watch::Over(fate, waiter);
        }
        self.attach(seat, handle, found, waiter)
    }

    // The handle was found pending under this word.
    fn attach(&self, seat: &mut Seat, handle: Handle, found: u64, waiter: Waiter) -> Watch
        requires at { IsAt self.now seat.old }
        requires waiter { IsWaiterOf self.now waiter }
        requires seen { Contains (lists seat.old).seen handle }
        requires slot { (handle.slot < (shape_of self.now).slots) × (handle.gen_ ≤ (shape_of self.now).last_gen) }
        requires found { turns_of found ≡ 2 * handle.gen_ + 1 }
        ensures at { IsAt self.now seat.new }
        ensures grows { Grows (lists seat.old) (lists seat.new) }
        ensures told { Attached self.now (lists seat.old) (lists seat.new) handle found waiter result }
        ensures left { (f : Fate) → Contains (lists seat.old).left handle → IsOver f result → ⊥ }
        ensures same_seen { (lists seat.new).seen ≡ (lists seat.old).seen }
        ensures same_given { SameGiven (lists seat.old) (lists seat.new) }
    {
        let at = handle.slot as usize;
        let low = found % 4294967296;
        let Waiter { number, inner } = waiter;
        let new = found - low + (number as u64 + 2);
        self.table.shared.join_seat::<Both>(&mut seat.inner, inner);
        self.table.shared.store::<Link>(
            &mut seat.inner,
            self.shape.slots as usize + number as usize,
            low - 1,
        );
        let again = self
            .table
            .shared
            .compare_exchange::<Put>(&mut seat.inner, at, found, new);
        if again == found {
            return Watch::Placed;
        }
        let back = self.table.shared.split_seat::<Deals>(&mut seat.inner);
        let waiter = Waiter {
            number,
            inner: back,
        };
        if turns(again) >= 2 * handle.gen_ as u64 + 2 {
            let fate = self.fate_of(seat, handle);
            Watch::Over(fate, waiter)
        } else {
            Watch::Moved(waiter)
        }
    }
}
