//! The table of events that threads share.

ghost use Rattle.event_table.specs.Words.{mark_words};
ghost use Rattle.event_table.specs.declared.handle.Handle.{Handle as TheHandle};
ghost use Rattle.event_table.specs.declared.limits.TheConstants.{MAX_HANDLES, MAX_SLOTS, MAX_WAITERS};
ghost use Rattle.std.specs.Prelude.{◌≡◌, ℕ, ◌+◌, ◌*◌, ◌<◌, ◌≤◌, ◌++◌, ◌∷◌, [], Contains, IfOk};

use crate::plays::{Appoints, Both, Copies, DealsAll, Forsakes, Gathers, Heed, Order};
use crate::tokens::{Maker, Pending, Receipt, Seat, WaiterSet};
use crate::view::View;
use atomic_table::Table;
use event_table::limits::{MAX_HANDLES, MAX_SLOTS, MAX_WAITERS};
use event_table::{Answer, Fate, Handle, Left, NoMemory, Shape};
use std::alloc::{AllocError, Global};

/// A table of events that threads share. Each call but `new` is a few single steps on words, of
/// which none waits for another thread.
#[derive(Drop)]
pub struct Events {
    pub(crate) table: Table<(), View, Shape, Order, Global>,
    pub(crate) shape: Shape,
    ghost sized: { (table.shared.key ≡ shape) × (table.shared.table_id.words ≡ shape.slots + shape.waiters + mark_words shape)
        × (0 < shape.slots) × (shape.waiters ≤ MAX_WAITERS) × (shape.slots ≤ MAX_SLOTS) × (table.shared.table_id.slots ≡ 0)
        × (shape.slots * (shape.last_gen + 1) ≤ MAX_HANDLES) },
}

impl Events {
    ghost use Rattle.std.specs.Prelude.{◌⊎◌, Some, length};
    ghost use Rattle.event_table.specs.EventMap.{answer, answer_of, IsEventMap, IsCreated, IsPlaced, HasEnded};
    ghost use Rattle.shared_events.specs.Plays.{Coherent};
    ghost use Rattle.shared_events.specs.Seats.{HasSeen, Knows, IsPast, Grows, Keeps, IsBare, HasNothing, SamePlacings};
    ghost use Rattle.shared_events.specs.Views.{lists, IsAt, IsMakerOf, IsPendingOf, IsReceiptOf, IsSetOf, made_by, shape_of, handle_of, ended_by, fate_of, taken_of, size_of};

    /// A table in which nothing was created, with the right to create, a seat that has seen
    /// nothing, and all waiters. `NoMemory` comes where memory ran out.
    pub fn new(
        alloc: Global,
        slots: u32,
        waiters: u32,
        last_gen: u32,
    ) -> Result<(Events, Maker, Seat, WaiterSet), NoMemory>
        requires slots { (0 < slots) × (slots ≤ MAX_SLOTS) }
        requires waiters { waiters ≤ MAX_WAITERS }
        requires gens { slots * (last_gen + 1) ≤ MAX_HANDLES }
        ensures shape { IfOk result (λ r. ((shape_of r.0).slots ≡ slots) × ((shape_of r.0).waiters ≡ waiters)
            × ((shape_of r.0).last_gen ≡ last_gen)) }
        ensures at { IfOk result (λ r. IsMakerOf r.0 r.1 × IsAt r.0 r.2 × IsSetOf r.0 r.3) }
        ensures none { IfOk result (λ r. (made_by r.1 ≡ []) × (taken_of r.3 ≡ 0) × (size_of r.3 ≡ waiters)) }
        ensures seat { IfOk result (λ r. HasNothing (lists r.2)) }
    {
        let shape = Shape {
            slots,
            waiters,
            last_gen,
        };
        Events::of_shape(alloc, shape).map_err(|_| NoMemory)
    }

    fn of_shape(alloc: Global, shape: Shape) -> Result<(Events, Maker, Seat, WaiterSet), AllocError>
        requires slots { (0 < shape.slots) × (shape.slots ≤ MAX_SLOTS) }
        requires waiters { shape.waiters ≤ MAX_WAITERS }
        requires gens { shape.slots * (shape.last_gen + 1) ≤ MAX_HANDLES }
        ensures shape { IfOk result (λ r. shape_of r.0 ≡ shape) }
        ensures at { IfOk result (λ r. IsMakerOf r.0 r.1 × IsAt r.0 r.2 × IsSetOf r.0 r.3) }
        ensures none { IfOk result (λ r. (made_by r.1 ≡ []) × (taken_of r.3 ≡ 0) × (size_of r.3 ≡ shape.waiters)) }
        ensures seat { IfOk result (λ r. HasNothing (lists r.2)) }
    {
        let marks = (shape.slots as usize * (shape.last_gen as usize + 1) + 63) / 64;
        let words = vec![in alloc; 0u64; shape.slots as usize + shape.waiters as usize + marks]?;
        let (table, mut first) = Table::of_words(alloc, words.as_slice(), &shape)?;
        let maker = table.shared.split_seat::<Appoints>(&mut first);
        let set = table.shared.split_seat::<DealsAll>(&mut first);
        let events = Events { table, shape };
        let maker = Maker {
            next: 0,
            inner: maker,
        };
        let seat = Seat { inner: first };
        let set = WaiterSet {
            next: 0,
            count: shape.waiters,
            inner: set,
        };
        Ok((events, maker, seat, set))
    }

    /// A second seat, which has seen, knows and has left what the first has.
    pub fn split(&self, seat: &mut Seat) -> Seat
        requires at { IsAt self.now seat.old }
        ensures at { IsAt self.now seat.new × IsAt self.now result }
        ensures kept { Keeps (lists seat.old) (lists seat.new) × Keeps (lists seat.old) (lists result) }
        ensures same { lists seat.new ≡ lists seat.old }
        ensures copied { ((lists result).seen ≡ (lists seat.old).seen) × ((lists result).known ≡ (lists seat.old).known)
            × ((lists result).left ≡ (lists seat.old).left) }
        ensures past { (lists result).past ≡ (lists seat.old).past }
        ensures bare { IsBare (lists result) }
    {
        let inner = self.table.shared.split_seat::<Copies>(&mut seat.inner);
        Seat { inner }
    }

    /// Gives the first seat all that both have, and uses up the other.
    pub fn join(&self, seat: &mut Seat, other: Seat)
        requires at { IsAt self.now seat.old }
        requires other { IsAt self.now other }
        ensures at { IsAt self.now seat.new }
        ensures coherent { Coherent (lists seat.new) }
        ensures kept { Keeps (lists seat.old) (lists seat.new) × Keeps (lists other) (lists seat.new) }
        ensures seen { (lists seat.new).seen ≡ (lists seat.old).seen ++ (lists other).seen }
        ensures known { (lists seat.new).known ≡ (lists seat.old).known ++ (lists other).known }
        ensures placed { (lists seat.new).placed ≡ (lists seat.old).placed ++ (lists other).placed }
        ensures given { (lists seat.new).given ≡ (lists seat.old).given ++ (lists other).given }
        ensures emptied { (lists seat.new).emptied ≡ (lists seat.old).emptied ++ (lists other).emptied }
        ensures left { (lists seat.new).left ≡ (lists seat.old).left ++ (lists other).left }
        ensures past { (lists seat.new).past ≡ (lists seat.old).past ++ (lists other).past }
        ensures saw { (lists seat.new).saw ≡ (lists seat.old).saw ++ (lists other).saw }
    {
        let Seat { inner } = other;
        self.table.shared.join_seat::<Both>(&mut seat.inner, inner);
        self.table.shared.load::<Heed>(&mut seat.inner, 0);
    }

    /// From then on the seat has seen the handle of the receipt and knows its fate, for good.
    pub fn learn(&self, seat: &mut Seat, receipt: Receipt)
        requires at { IsAt self.now seat.old }
        requires receipt { IsReceiptOf self.now receipt }
        ensures at { IsAt self.now seat.new }
        ensures grows { Grows (lists seat.old) (lists seat.new) }
        ensures kept { Keeps (lists seat.old) (lists seat.new) }
        ensures seen { HasSeen (lists seat.new) (ended_by receipt) }
        ensures known { Knows (lists seat.new) (ended_by receipt) (fate_of receipt) }
        ensures more_seen { (lists seat.new).seen ≡ (lists seat.old).seen ++ ended_by receipt ∷ [] }
        ensures more_known { (lists seat.new).known ≡ (lists seat.old).known ++ (ended_by receipt, fate_of receipt) ∷ [] }
        ensures same_placings { SamePlacings (lists seat.old) (lists seat.new) }
        ensures same_left { (lists seat.new).left ≡ (lists seat.old).left }
        ensures same_saw { (lists seat.new).saw ≡ (lists seat.old).saw }
    {
        let Receipt {
            handle: _,
            fate: _,
            inner,
        } = receipt;
        self.table.shared.join_seat::<Both>(&mut seat.inner, inner);
    }

    /// Gives up the right to end the handle, which stays pending for good.
    pub fn leave(&self, seat: &mut Seat, pending: Pending) -> Handle
        requires at { IsAt self.now seat.old }
        requires pending { IsPendingOf self.now pending }
        ensures at { IsAt self.now seat.new }
        ensures grows { Grows (lists seat.old) (lists seat.new) }
        ensures kept { Keeps (lists seat.old) (lists seat.new) }
        ensures handle { result ≡ handle_of pending }
        ensures seen { HasSeen (lists seat.new) result }
        ensures left { Contains (lists seat.new).left result }
        ensures more_seen { (lists seat.new).seen ≡ (lists seat.old).seen ++ result ∷ [] }
        ensures more_left { (lists seat.new).left ≡ (lists seat.old).left ++ result ∷ [] }
        ensures same_known { (lists seat.new).known ≡ (lists seat.old).known }
        ensures same_placings { SamePlacings (lists seat.old) (lists seat.new) }
        ensures same_saw { (lists seat.new).saw ≡ (lists seat.old).saw }
    {
        let Pending { handle, inner } = pending;
        self.table
            .shared
            .join_seat::<Forsakes>(&mut seat.inner, inner);
        handle
    }

    /// The map of the table at the end, whose handles are those of the Maker's list. No other seat
    /// can step any more.
    pub fn close(self, maker: Maker, seat: Seat) -> Left
        requires maker { IsMakerOf self maker }
        requires at { IsAt self seat }
        ensures map { IsEventMap result × (result.caught ≡ []) }
        ensures shape { (length result.slots ≡ (shape_of self).slots) × (result.waiters ≡ (shape_of self).waiters)
            × (result.last_gen ≡ (shape_of self).last_gen) }
        ensures made { (h : TheHandle) → Contains (made_by maker) h → (a : Answer) × (answer result h ≡ Some a) }
        ensures only { (h : TheHandle) (a : Answer) → answer result h ≡ Some a → Contains (made_by maker) h }
        ensures seen { (h : TheHandle) → HasSeen (lists seat) h → IsCreated result h }
        ensures known { (h : TheHandle) (f : Fate) → Knows (lists seat) h f → answer result h ≡ Some (answer_of f) }
        ensures placed { (k : ℕ) (h : TheHandle) → Contains (lists seat).placed (k, h) → IsPlaced result k h
            ⊎ ((f : Fate) × (answer result h ≡ Some (answer_of f))) }
        ensures given { (k : ℕ) (h : TheHandle) → Contains (lists seat).given (k, h) → HasEnded result h }
        ensures emptied { (h : TheHandle) → Contains (lists seat).emptied h → HasEnded result h }
        ensures past { (h : TheHandle) → IsPast (lists seat) h → HasEnded result h }
        ensures left { (h : TheHandle) → Contains (lists seat).left h → answer result h ≡ Some Answer.Pending }
    {
        let Maker { inner: mut all, .. } = maker;
        let Seat { inner } = seat;
        self.table.shared.join_seat::<Gathers>(&mut all, inner);
        let Events { table, shape } = self;
        let closed = table.close_with(all);
        Left::of_words(closed, shape)
    }

    // The number of the word of the handle's slot; 0 for a handle that no table has.
    pub(crate) fn word_of(&self, handle: Handle) -> usize
        ensures slot { result < (shape_of self.now).slots }
        ensures same { handle.slot < (shape_of self.now).slots → result ≡ handle.slot }
    {
        if handle.slot < self.shape.slots {
            handle.slot as usize
        } else {
            0
        }
    }
}
