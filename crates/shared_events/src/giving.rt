//! Giving out waiters and receipts.

ghost use Rattle.shared_events.specs.Plays.{Coherent};
ghost use Rattle.shared_events.specs.Seats.{Grows, Keeps};
ghost use Rattle.shared_events.specs.Views.{lists, IsAt, IsWaiterOf, IsReceiptOf, IsCaughtOf, IsSetOf, rest_of, given_by, caught_lists, number_of, ended_by, fate_of, caught_on, taken_of, size_of};
ghost use Rattle.std.specs.Prelude.{◌≡◌, ◌+◌, ◌<◌, ◌∷◌, ◌++◌, [], Contains, IfSome, IfNone};

use crate::events::Events;
use crate::plays::{Both, Copies, Deals, Empties, Heed, Walk};
use crate::tokens::{Caught, Receipt, Seat, Waiter, WaiterSet};

impl Caught {
    /// A waiter that stood on the handle, each once.
    pub fn next(&mut self, events: &Events, seat: &mut Seat) -> Option<Waiter>
        requires chain { IsCaughtOf events.now self.old }
        requires at { IsAt events.now seat.old }
        ensures chain { IsCaughtOf events.now self.new × (caught_on self.new ≡ caught_on self.old) }
        ensures at { IsAt events.now seat.new }
        ensures grows { Grows (lists seat.old) (lists seat.new) }
        ensures kept { Keeps (lists seat.old) (lists seat.new) }
        ensures some { IfSome result (λ w. (rest_of self.old ≡ number_of w ∷ rest_of self.new) × IsWaiterOf events.now w) }
        ensures given { IfSome result (λ w. given_by self.new ≡ given_by self.old ++ (number_of w, caught_on self.old) ∷ []) }
        ensures still { IfSome result (λ _. lists seat.new ≡ lists seat.old) }
        ensures same_seen { (caught_lists self.new).seen ≡ (caught_lists self.old).seen }
        ensures same_known { (caught_lists self.new).known ≡ (caught_lists self.old).known }
        ensures none { IfNone result ((rest_of self.old ≡ []) × Contains (lists seat.new).emptied (caught_on self.old)
            × Coherent (lists seat.new)) }
        ensures same { IfNone result (caught_lists self.new ≡ caught_lists self.old) }
        ensures more_given { IfNone result ((lists seat.new).given ≡ (lists seat.old).given ++ given_by self.old) }
        ensures more_emptied { IfNone result ((lists seat.new).emptied ≡ (lists seat.old).emptied ++ caught_on self.old ∷ []) }
        ensures more_seen { IfNone result ((lists seat.new).seen ≡ (lists seat.old).seen ++ (caught_lists self.old).seen) }
        ensures more_known { IfNone result ((lists seat.new).known ≡ (lists seat.old).known ++ (caught_lists self.old).known) }
        ensures same_placed { (lists seat.new).placed ≡ (lists seat.old).placed }
        ensures same_left { (lists seat.new).left ≡ (lists seat.old).left }
        ensures same_saw { (lists seat.new).saw ≡ (lists seat.old).saw }
    {
        if self.next == 0 {
            let news = events.table.shared.split_seat::<Empties>(&mut self.inner);
            events.table.shared.join_seat::<Both>(&mut seat.inner, news);
            events.table.shared.load::<Heed>(&mut seat.inner, 0);
            return None;
        }
        let number = self.next - 1;
        let at = events.shape.slots as usize + number as usize;
        let link = events.table.shared.load::<Walk>(&mut self.inner, at);
        let inner = events.table.shared.split_seat::<Deals>(&mut self.inner);
        self.next = link;
        Some(Waiter {
            number: number as u32,
            inner,
        })
    }
}

impl WaiterSet {
    /// The next waiter, numbered from 0.
    pub fn take(&mut self, events: &Events) -> Option<Waiter>
        requires { IsSetOf events.now self.old }
        ensures set { IsSetOf events.now self.new × (size_of self.new ≡ size_of self.old) }
        ensures some { IfSome result (λ w. (number_of w ≡ taken_of self.old) × (taken_of self.new ≡ taken_of self.old + 1)
            × IsWaiterOf events.now w) }
        ensures within { IfSome result (λ w. number_of w < size_of self.old) }
        ensures none { IfNone result ((taken_of self.old ≡ size_of self.old) × (taken_of self.new ≡ taken_of self.old)) }
    {
        if self.next == self.count {
            return None;
        }
        let number = self.next;
        let inner = events.table.shared.split_seat::<Deals>(&mut self.inner);
        self.next += 1;
        Some(Waiter { number, inner })
    }
}

impl Receipt {
    /// A second receipt of the same handle and fate.
    pub fn again(&mut self, events: &Events) -> Receipt
        requires { IsReceiptOf events.now self.old }
        ensures first { IsReceiptOf events.now self.new × (ended_by self.new ≡ ended_by self.old) × (fate_of self.new ≡ fate_of self.old) }
        ensures second { IsReceiptOf events.now result × (ended_by result ≡ ended_by self.old) × (fate_of result ≡ fate_of self.old) }
    {
        let inner = events.table.shared.split_seat::<Copies>(&mut self.inner);
        Receipt {
            handle: self.handle,
            fate: self.fate,
            inner,
        }
    }
}
