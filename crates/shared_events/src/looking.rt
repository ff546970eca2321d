//! Looking at events.

ghost use Rattle.shared_events.specs.Plays.{Coherent};
ghost use Rattle.shared_events.specs.Seats.{HasSeen, IsPast, Knows, Grows, Keeps, SamePlacings, FoundPending, no_event};
ghost use Rattle.shared_events.specs.Views.{lists, shape_of, handle_of, IsAt, IsPendingOf, answer_of};
ghost use Rattle.std.specs.Prelude.{◌≡◌, ◌≢◌, ◌<◌, ◌≤◌, ◌⊎◌, ◌++◌, ◌∷◌, [], Contains};

use crate::events::Events;
use crate::plays::{Both, Grants, Look, Read};
use crate::tokens::{Pending, Seat};
use event_table::word::{fate_shown, is_no_event, turns};
use event_table::{Answer, Fate, Handle};

impl Events {
    /// What becomes of a handle that the seat has seen: Pending only where its slot's word, loaded
    /// in this call, showed it pending; otherwise its fate, which the seat then knows.
    pub fn look(&self, seat: &mut Seat, handle: Handle) -> Answer
        requires at { IsAt self.now seat.old }
        requires seen { HasSeen (lists seat.old) handle }
        ensures at { IsAt self.now seat.new }
        ensures grows { Grows (lists seat.old) (lists seat.new) }
        ensures kept { Keeps (lists seat.old) (lists seat.new) }
        ensures pending { result ≡ Answer.Pending → FoundPending (lists seat.old) (lists seat.new) handle
            × ((f : Fate) → Knows (lists seat.old) handle f → ⊥) }
        ensures triggered { result ≡ Answer.Triggered → (handle ≡ no_event) ⊎ Knows (lists seat.new) handle Fate.Ok }
        ensures poisoned { result ≡ Answer.Poisoned → Knows (lists seat.new) handle Fate.Poison }
        ensures left { handle ≢ no_event → Contains (lists seat.old).left handle → result ≡ Answer.Pending }
        ensures none { handle ≡ no_event → result ≡ Answer.Triggered }
        ensures known { (f : Fate) → handle ≢ no_event → Knows (lists seat.old) handle f → result ≡ answer_of f }
        ensures past { handle ≢ no_event → IsPast (lists seat.old) handle → result ≢ Answer.Pending }
        ensures emptied { handle ≢ no_event → Contains (lists seat.old).emptied handle → result ≢ Answer.Pending }
        ensures coherent { handle ≢ no_event → Coherent (lists seat.new) }
        ensures still { handle ≡ no_event → lists seat.new ≡ lists seat.old }
        ensures same_seen { (lists seat.new).seen ≡ (lists seat.old).seen }
        ensures same_placings { SamePlacings (lists seat.old) (lists seat.new) }
        ensures same_left { (lists seat.new).left ≡ (lists seat.old).left }
    {
        if is_no_event(handle) {
            return Answer::Triggered;
        }
        let at = self.word_of(handle);
        let found = self.table.shared.load::<Look>(&mut seat.inner, at);
        if turns(found) < 2 * handle.gen_ as u64 + 2 {
            return Answer::Pending;
        }
        match self.fate_of(seat, handle) {
            Fate::Ok => Answer::Triggered,
            Fate::Poison => Answer::Poisoned,
        }
    }

    /// The handle of a Pending, which the seat has then seen. Its slot's word, loaded in this call,
    /// showed it pending: as long as a Pending is there no seat knows an end of its handle.
    pub fn see(&self, seat: &mut Seat, pending: &mut Pending) -> Handle
        requires at { IsAt self.now seat.old }
        requires pending { IsPendingOf self.now pending.old }
        ensures at { IsAt self.now seat.new }
        ensures pending { IsPendingOf self.now pending.new × (handle_of pending.new ≡ handle_of pending.old) }
        ensures handle { result ≡ handle_of pending.old }
        ensures grows { Grows (lists seat.old) (lists seat.new) }
        ensures kept { Keeps (lists seat.old) (lists seat.new) }
        ensures found { FoundPending (lists seat.old) (lists seat.new) result }
        ensures unknown { (f : Fate) → Knows (lists seat.new) result f → ⊥ }
        ensures not_past { IsPast (lists seat.old) result → ⊥ }
        ensures unleft { Contains (lists seat.new).left result → ⊥ }
        ensures more_seen { (lists seat.new).seen ≡ (lists seat.old).seen ++ result ∷ [] }
        ensures same_known { (lists seat.new).known ≡ (lists seat.old).known }
        ensures same_placings { SamePlacings (lists seat.old) (lists seat.new) }
        ensures same_left { (lists seat.new).left ≡ (lists seat.old).left }
    {
        let handle = pending.handle;
        let right = self.table.shared.split_seat::<Grants>(&mut pending.inner);
        self.table.shared.join_seat::<Both>(&mut seat.inner, right);
        let at = self.word_of(handle);
        self.table.shared.load::<Look>(&mut seat.inner, at);
        pending.inner = self.table.shared.split_seat::<Grants>(&mut seat.inner);
        handle
    }

    // The fate of a handle that was found to have ended.
    pub(crate) fn fate_of(&self, seat: &mut Seat, handle: Handle) -> Fate
        requires at { IsAt self.now seat.old }
        requires made { (handle.slot < (shape_of self.now).slots) × (handle.gen_ ≤ (shape_of self.now).last_gen) }
        requires past { IsPast (lists seat.old) handle }
        ensures at { IsAt self.now seat.new }
        ensures known { Knows (lists seat.new) handle result }
        ensures grows { Grows (lists seat.old) (lists seat.new) }
        ensures kept { Keeps (lists seat.old) (lists seat.new) }
        ensures coherent { Coherent (lists seat.new) }
        ensures same { ((lists seat.new).saw ≡ (lists seat.old).saw) × ((lists seat.new).placed ≡ (lists seat.old).placed)
            × ((lists seat.new).left ≡ (lists seat.old).left) }
        ensures same_seen { (lists seat.new).seen ≡ (lists seat.old).seen }
        ensures same_placings { SamePlacings (lists seat.old) (lists seat.new) }
    {
        let at = self.shape.mark_at(handle);
        let bit = self.shape.place(handle) % 64;
        let found = self.table.shared.load::<Read>(&mut seat.inner, at);
        fate_shown(found, bit)
    }
}
