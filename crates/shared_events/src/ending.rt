//! Ending events.

ghost use Rattle.shared_events.specs.Plays.{marking};
ghost use Rattle.basics.specs.Sums.{total, below};
ghost use Rattle.shared_events.specs.Seats.{HasSeen, Knows, Grows, Keeps, SamePlacings};
ghost use Rattle.shared_events.specs.Views.{lists, IsOf, IsAt, IsPendingOf, IsReceiptOf, IsCaughtOf, shape_of, handle_of, ended_by, fate_of, caught_on, caught_lists, given_by, rest_of};
ghost use Rattle.std.specs.Prelude.{◌≡◌, ℕ, ◌<◌, ◌≤◌, ◌++◌, ◌∷◌, [], Contains};

use crate::events::Events;
use crate::plays::{Both, Chases, End, Mark, Receipts};
use crate::tokens::{Caught, Pending, Receipt, Seat};
use crate::view::View;
use event_table::word::next_word;
use event_table::{Fate, Handle};

impl Events {
    /// Ends the handle with this fate, and takes its waiters, which the second of the answer gives
    /// one by one. The first is a receipt, by which others learn the fate.
    pub fn end(&self, seat: &mut Seat, pending: Pending, fate: Fate) -> (Receipt, Caught)
        requires at { IsAt self.now seat.old }
        requires pending { IsPendingOf self.now pending }
        ensures at { IsAt self.now seat.new }
        ensures grows { Grows (lists seat.old) (lists seat.new) }
        ensures kept { Keeps (lists seat.old) (lists seat.new) }
        ensures seen { HasSeen (lists seat.new) (handle_of pending) }
        ensures known { Knows (lists seat.new) (handle_of pending) fate }
        ensures receipt { IsReceiptOf self.now result.0 × (ended_by result.0 ≡ handle_of pending) × (fate_of result.0 ≡ fate) }
        ensures caught { IsCaughtOf self.now result.1 × (caught_on result.1 ≡ handle_of pending) }
        ensures waiters { (k : ℕ) → Contains (lists seat.new).placed (k, handle_of pending) → Contains (rest_of result.1) k }
        ensures once { (f : ℕ → ℕ) → total f (rest_of result.1) ≤ below f (shape_of self.now).waiters }
        ensures given { given_by result.1 ≡ (lists seat.old).given }
        ensures caught_seen { (caught_lists result.1).seen ≡ (lists seat.new).seen }
        ensures caught_known { (caught_lists result.1).known ≡ (lists seat.new).known }
        ensures more_seen { (lists seat.new).seen ≡ (lists seat.old).seen ++ handle_of pending ∷ [] }
        ensures more_known { (lists seat.new).known ≡ (lists seat.old).known ++ (handle_of pending, fate) ∷ [] }
        ensures same_placings { SamePlacings (lists seat.old) (lists seat.new) }
        ensures same_left { (lists seat.new).left ≡ (lists seat.old).left }
        ensures same_saw { (lists seat.new).saw ≡ (lists seat.old).saw }
    {
        let Pending { handle, inner } = pending;
        self.table.shared.join_seat::<Both>(&mut seat.inner, inner);
        self.mark(&mut seat.inner, handle, fate);
        let at = self.word_of(handle);
        let next = next_word(self.shape.last_gen, handle.gen_);
        let found = self.table.shared.swap::<End>(&mut seat.inner, at, next);
        let told = self.table.shared.split_seat::<Receipts>(&mut seat.inner);
        let chain = self.table.shared.split_seat::<Chases>(&mut seat.inner);
        let receipt = Receipt {
            handle,
            fate,
            inner: told,
        };
        let caught = Caught {
            handle,
            next: found % 4294967296 - 1,
            inner: chain,
        };
        (receipt, caught)
    }

    // Marks the handle where it will end with Poison.
    fn mark(&self, inner: &mut atomic_table::Seat<(), View>, handle: Handle, fate: Fate)
        requires at { IsOf self.now inner.old }
        requires made { (handle.slot < (shape_of self.now).slots) × (handle.gen_ ≤ (shape_of self.now).last_gen) }
        requires right { inner.old.me.0.rights ≡ handle ∷ [] }
        ensures at { inner.new.table_id ≡ inner.old.table_id }
        ensures marked { inner.new.me ≡ (marking fate inner.old.me.0, inner.old.me.1) }
    {
        if let Fate::Poison = fate {
            let at = self.shape.mark_at(handle);
            let bit = self.shape.place(handle) % 64;
            self.table.shared.fetch_or::<Mark>(inner, at, 1 << bit);
        }
    }
}
