//! What C calls.

ghost use Rattle.std.specs.Prelude.{◌≡◌, ◌≢◌, ◌+◌, ◌<◌, ◌⊎◌, Some, None, []};
ghost use Rattle.std.specs.Arc.{arc_value};
ghost use Rattle.event_table.specs.EventMap.{IsCreated, IsPlaced, answer};
ghost use Rattle.shared_events.specs.Seats.{HasSeen, HasNothing, no_event};
ghost use Rattle.shared_events.specs.Views.{lists, made_by, handle_of, number_of, ended_by, fate_of, shape_of, taken_of, size_of, IsReceiptOf, IsWaiterOf};
ghost use Rattle.event_table.specs.declared.handle.Answer.{Answer as TheAnswer};
ghost use Rattle.event_table.specs.declared.handle.Handle.{Handle as TheHandle};
ghost use Rattle.realm_events_c.specs.Calls.{Splits, Joins, Looks, Learns, Leaves, Creates, FindsFull, Ends, Gives, Empties, Closes};
ghost use Rattle.realm_events_c.specs.Watching.{WatchedBy};
ghost use Rattle.realm_events_c.specs.Kinds.{HasPlace, SameButSeat, HoldsAny, HoldsPlace, HoldsOwner, HoldsPending, HoldsWaiter, HoldsReceipt, HoldsEnded, HoldsClosed, IsTableSize, event, answer_number, fate_by, fate_number};

use crate::held::{Held, room};
use crate::inside::{
    close_in, create_in, end_in, join_in, learn_in, leave_in, look_closed_in, look_in, next_in,
    place_closed_in, receipt_in, split_in, waiter_in, watch_in,
};
use crate::making::{is_table_size, new_owner};
use crate::status::{DONE, NO_MEMORY, REFUSED, fate_by};
use event_table::Handle;
use std::alloc::Global;

/// The handle of an event: plain data, which may be copied and kept for any time.
#[repr(C)]
#[derive(Clone, Copy, Drop)]
pub struct RealmHandle {
    /// The slot of the table.
    pub slot: u32,
    /// The generation of the slot.
    pub gen_: u32,
}

impl RealmHandle {
    pub(crate) fn of(handle: Handle) -> RealmHandle
        ensures { event result ≡ handle }
    {
        let Handle { slot, gen_ } = handle;
        RealmHandle { slot, gen_ }
    }

    fn event(self) -> Handle
        ensures { result ≡ event self }
    {
        Handle {
            slot: self.slot,
            gen_: self.gen_,
        }
    }
}

/// Makes a table in which nothing was created: 0, or 7, or 8 exactly where it may not have this size.
#[unsafe(no_mangle)]
pub extern "C" fn realm_events_new(
    alloc: Global,
    slots: u32,
    waiters: u32,
    last_gen: u32,
    owner: &mut Held,
) -> u32
    requires empty { owner.old.value ≡ None }
    ensures answers { (result ≡ 0) ⊎ ((result ≡ 7) ⊎ (result ≡ 8)) }
    ensures done { result ≡ 0 → HoldsOwner owner.new.value (λ o. ((shape_of (arc_value o.place.events)).slots ≡ slots)
        × ((shape_of (arc_value o.place.events)).waiters ≡ waiters) × ((shape_of (arc_value o.place.events)).last_gen ≡ last_gen)
        × (made_by o.maker ≡ []) × (taken_of o.waiters ≡ 0) × (size_of o.waiters ≡ waiters) × HasNothing (lists o.place.seat)) }
    ensures refused { result ≡ 8 → IsTableSize slots waiters last_gen → ⊥ }
    ensures fits { result ≢ 8 → IsTableSize slots waiters last_gen }
    ensures none { result ≢ 0 → owner.new.value ≡ None }
{
    if !is_table_size(slots, waiters, last_gen) {
        return REFUSED;
    }
    match new_owner(alloc, slots, waiters, last_gen) {
        Some(token) => {
            owner.put(token);
            DONE
        }
        None => NO_MEMORY,
    }
}

/// Gives a second place at the table, which has seen what this one has: 0 or 7.
#[unsafe(no_mangle)]
pub extern "C" fn realm_events_split(alloc: Global, place: &mut Held, out: &mut Held) -> u32
    requires place { HasPlace place.old.value (λ _. Unit {0}) }
    requires empty { out.old.value ≡ None }
    ensures answers { (result ≡ 0) ⊎ (result ≡ 7) }
    ensures same { SameButSeat place.old.value place.new.value }
    ensures done { result ≡ 0 → HasPlace place.old.value (λ p. HasPlace place.new.value (λ q. HoldsPlace out.new.value (λ x.
        (arc_value x.events ≡ arc_value p.events) × Splits (lists p.seat) (lists q.seat) (lists x.seat)))) }
    ensures no_memory { result ≡ 7 → (place.new.value ≡ place.old.value) × (out.new.value ≡ None) }
{
    let Some(mut made) = room(alloc) else {
        return NO_MEMORY;
    };
    let mut token = place.take(alloc);
    let status = split_in(&mut token, &mut made);
    place.put(token);
    out.fill(made);
    status
}

/// Gives a place all that another at its table has, and uses the other up.
#[unsafe(no_mangle)]
pub extern "C" fn realm_events_join(alloc: Global, place: &mut Held, other: &mut Held) -> u32
    requires { HasPlace place.old.value (λ p. HoldsPlace other.old.value (λ x. arc_value x.events ≡ arc_value p.events)) }
    ensures done { result ≡ 0 }
    ensures same { SameButSeat place.old.value place.new.value }
    ensures joined { HasPlace place.old.value (λ p. HoldsPlace other.old.value (λ x. HasPlace place.new.value (λ q.
        Joins (lists p.seat) (lists x.seat) (lists q.seat)))) }
    ensures used { other.new.value ≡ None }
{
    let mut token = place.take(alloc);
    let status = join_in(&mut token, Box::into_inner(other.take(alloc)));
    place.put(token);
    status
}

/// Creates an event, gives the right to end it with its handle, which the owner has then seen: 0; 5 where each slot
/// is pending or retired; 7.
#[unsafe(no_mangle)]
pub extern "C" fn realm_events_create(
    alloc: Global,
    owner: &mut Held,
    pending: &mut Held,
    handle: &mut RealmHandle,
) -> u32
    requires owner { HoldsOwner owner.old.value (λ _. Unit {0}) }
    requires empty { pending.old.value ≡ None }
    ensures answers { (result ≡ 0) ⊎ ((result ≡ 5) ⊎ (result ≡ 7)) }
    ensures same { HoldsOwner owner.old.value (λ o. HoldsOwner owner.new.value (λ p.
        (p.place.events ≡ o.place.events) × (p.waiters ≡ o.waiters))) }
    ensures done { result ≡ 0 → HoldsOwner owner.old.value (λ o. HoldsOwner owner.new.value (λ p. HoldsPending pending.new.value (λ x.
        (arc_value x.place.events ≡ arc_value o.place.events) × (handle_of x.pending ≡ event handle.new)
        × Splits (lists p.place.seat) (lists p.place.seat) (lists x.place.seat)
        × Creates (shape_of (arc_value o.place.events)) (made_by o.maker) (made_by p.maker) (lists o.place.seat) (lists p.place.seat) (event handle.new)))) }
    ensures full { result ≡ 5 → HoldsOwner owner.old.value (λ o. HoldsOwner owner.new.value (λ p.
        FindsFull (shape_of (arc_value o.place.events)) (made_by o.maker) (made_by p.maker) (lists o.place.seat) (lists p.place.seat))) }
    ensures no_memory { result ≡ 7 → owner.new.value ≡ owner.old.value }
    ensures none { result ≢ 0 → (pending.new.value ≡ None) × (handle.new ≡ handle.old) }
{
    let Some(mut made) = room(alloc) else {
        return NO_MEMORY;
    };
    let mut token = owner.take(alloc);
    let status = create_in(&mut token, &mut made, handle);
    owner.put(token);
    pending.fill(made);
    status
}

/// Gives the next waiter with its number, from 0: 0; 4 where all were given; 7.
#[unsafe(no_mangle)]
pub extern "C" fn realm_events_waiter(
    alloc: Global,
    owner: &mut Held,
    waiter: &mut Held,
    number: &mut u32,
) -> u32
    requires owner { HoldsOwner owner.old.value (λ _. Unit {0}) }
    requires empty { waiter.old.value ≡ None }
    ensures answers { (result ≡ 0) ⊎ ((result ≡ 4) ⊎ (result ≡ 7)) }
    ensures same { HoldsOwner owner.old.value (λ o. HoldsOwner owner.new.value (λ p.
        (p.place.events ≡ o.place.events) × (p.place.seat ≡ o.place.seat) × (p.maker ≡ o.maker) × (size_of p.waiters ≡ size_of o.waiters))) }
    ensures done { result ≡ 0 → HoldsOwner owner.old.value (λ o. HoldsOwner owner.new.value (λ p.
        (number.new ≡ taken_of o.waiters) × (taken_of p.waiters ≡ taken_of o.waiters + 1) × (number.new < size_of o.waiters)
        × HoldsWaiter waiter.new.value (λ w. IsWaiterOf (arc_value o.place.events) w × (number_of w ≡ number.new)))) }
    ensures all_taken { result ≡ 4 → HoldsOwner owner.old.value (λ o. HoldsOwner owner.new.value (λ p.
        (taken_of o.waiters ≡ size_of o.waiters) × (taken_of p.waiters ≡ taken_of o.waiters))) }
    ensures no_memory { result ≡ 7 → owner.new.value ≡ owner.old.value }
    ensures none { result ≢ 0 → (waiter.new.value ≡ None) × (number.new ≡ number.old) }
{
    let Some(mut made) = room(alloc) else {
        return NO_MEMORY;
    };
    let mut token = owner.take(alloc);
    let status = waiter_in(&mut token, &mut made, number);
    owner.put(token);
    waiter.fill(made);
    status
}

/// Places a waiter on a handle that the place has seen: 0 where it stands there; 1 and 2 where the handle has ended,
/// with Ok and with Poison; 3 where its slot changed meanwhile. The waiter is used up by 0 alone.
#[unsafe(no_mangle)]
pub extern "C" fn realm_events_watch(
    alloc: Global,
    place: &mut Held,
    handle: RealmHandle,
    waiter: &mut Held,
) -> u32
    requires { HasPlace place.old.value (λ p. HasSeen (lists p.seat) (event handle) × HoldsWaiter waiter.old.value (IsWaiterOf (arc_value p.events))) }
    ensures same { SameButSeat place.old.value place.new.value }
    ensures watched { HasPlace place.old.value (λ p. HoldsWaiter waiter.old.value (λ k. HasPlace place.new.value (λ q.
        WatchedBy (arc_value p.events) (lists p.seat) (lists q.seat) (event handle) k result waiter.new.value))) }
{
    let mut token = place.take(alloc);
    let mut placed = waiter.take(alloc);
    let status = watch_in(&mut token, handle.event(), &mut placed);
    place.put(token);
    waiter.fill(placed);
    status
}

/// Ends the event: with Poison where `fate` is 1 and else with Ok. The handle then holds what is left of the event.
#[unsafe(no_mangle)]
pub extern "C" fn realm_events_end(alloc: Global, pending: &mut Held, fate: u32) -> u32
    requires { HoldsPending pending.old.value (λ _. Unit {0}) }
    ensures done { result ≡ 0 }
    ensures ended { HoldsPending pending.old.value (λ p. HoldsEnded pending.new.value (λ e. (e.place.events ≡ p.place.events)
        × Ends (arc_value p.place.events) (lists p.place.seat) (lists e.place.seat) (handle_of p.pending) (fate_by fate) e.receipt e.caught)) }
{
    let mut token = pending.take(alloc);
    let status = end_in(&mut token, fate_by(fate));
    pending.put(token);
    status
}

/// Gives the right to end the event up, which stays pending for good. The handle then holds a place.
#[unsafe(no_mangle)]
pub extern "C" fn realm_events_leave(alloc: Global, pending: &mut Held) -> u32
    requires { HoldsPending pending.old.value (λ _. Unit {0}) }
    ensures done { result ≡ 0 }
    ensures left { HoldsPending pending.old.value (λ p. HoldsPlace pending.new.value (λ q. (q.events ≡ p.place.events)
        × Leaves (lists p.place.seat) (lists q.seat) (handle_of p.pending))) }
{
    let mut token = pending.take(alloc);
    let status = leave_in(&mut token);
    pending.put(token);
    status
}

/// Gives a waiter that stood on the ended event, with its number, each once: 0; 4 where all were given, and the
/// handle then holds a place; 7.
#[unsafe(no_mangle)]
pub extern "C" fn realm_events_next(
    alloc: Global,
    ended: &mut Held,
    waiter: &mut Held,
    number: &mut u32,
) -> u32
    requires ended { HoldsEnded ended.old.value (λ _. Unit {0}) }
    requires empty { waiter.old.value ≡ None }
    ensures answers { (result ≡ 0) ⊎ ((result ≡ 4) ⊎ (result ≡ 7)) }
    ensures done { result ≡ 0 → HoldsEnded ended.old.value (λ e. HoldsEnded ended.new.value (λ f.
        (f.place.events ≡ e.place.events) × (f.receipt ≡ e.receipt)
        × HoldsWaiter waiter.new.value (λ w. IsWaiterOf (arc_value e.place.events) w × (number_of w ≡ number.new))
        × Gives (lists e.place.seat) (lists f.place.seat) e.caught f.caught number.new)) }
    ensures all_given { result ≡ 4 → HoldsEnded ended.old.value (λ e. HoldsPlace ended.new.value (λ p.
        (p.events ≡ e.place.events) × Empties (lists e.place.seat) (lists p.seat) e.caught)) }
    ensures no_memory { result ≡ 7 → ended.new.value ≡ ended.old.value }
    ensures none { result ≢ 0 → (waiter.new.value ≡ None) × (number.new ≡ number.old) }
{
    let Some(mut made) = room(alloc) else {
        return NO_MEMORY;
    };
    let mut token = ended.take(alloc);
    let status = next_in(&mut token, &mut made, number);
    ended.put(token);
    waiter.fill(made);
    status
}

/// Gives a receipt of an ended event, of which there may be any number: 0 or 7.
#[unsafe(no_mangle)]
pub extern "C" fn realm_events_receipt(alloc: Global, ended: &mut Held, receipt: &mut Held) -> u32
    requires ended { HoldsEnded ended.old.value (λ _. Unit {0}) }
    requires empty { receipt.old.value ≡ None }
    ensures answers { (result ≡ 0) ⊎ (result ≡ 7) }
    ensures same { HoldsEnded ended.old.value (λ e. HoldsEnded ended.new.value (λ f. (f.place.events ≡ e.place.events) × (f.place.seat ≡ e.place.seat) × (f.caught ≡ e.caught)
        × (ended_by f.receipt ≡ ended_by e.receipt) × (fate_of f.receipt ≡ fate_of e.receipt))) }
    ensures done { result ≡ 0 → HoldsEnded ended.old.value (λ e. HoldsReceipt receipt.new.value (λ r. IsReceiptOf (arc_value e.place.events) r
        × (ended_by r ≡ ended_by e.receipt) × (fate_of r ≡ fate_of e.receipt))) }
    ensures no_memory { result ≡ 7 → (ended.new.value ≡ ended.old.value) × (receipt.new.value ≡ None) }
{
    let Some(mut made) = room(alloc) else {
        return NO_MEMORY;
    };
    let mut token = ended.take(alloc);
    let status = receipt_in(&mut token, &mut made);
    ended.put(token);
    receipt.fill(made);
    status
}

/// Has a place learn of the end that a receipt of its table tells, with the handle of the event: 0 for Ok, 1 for
/// Poison. The receipt is used up, and the place has then seen the handle.
#[unsafe(no_mangle)]
pub extern "C" fn realm_events_learn(
    alloc: Global,
    place: &mut Held,
    receipt: &mut Held,
    handle: &mut RealmHandle,
) -> u32
    requires { HasPlace place.old.value (λ p. HoldsReceipt receipt.old.value (IsReceiptOf (arc_value p.events))) }
    ensures same { SameButSeat place.old.value place.new.value }
    ensures learned { HasPlace place.old.value (λ p. HoldsReceipt receipt.old.value (λ r. HasPlace place.new.value (λ q.
        (result ≡ fate_number (fate_of r)) × (event handle.new ≡ ended_by r)
        × Learns (lists p.seat) (lists q.seat) (ended_by r) (fate_of r)))) }
    ensures used { receipt.new.value ≡ None }
{
    let mut token = place.take(alloc);
    let status = learn_in(&mut token, Box::into_inner(receipt.take(alloc)), handle);
    place.put(token);
    status
}

/// What becomes of a handle that the place has seen: 0 where it ended with Ok, 1 with Poison, 2 where it is pending.
#[unsafe(no_mangle)]
pub extern "C" fn realm_events_look(alloc: Global, place: &mut Held, handle: RealmHandle) -> u32
    requires { HasPlace place.old.value (λ p. HasSeen (lists p.seat) (event handle)) }
    ensures same { SameButSeat place.old.value place.new.value }
    ensures looked { HasPlace place.old.value (λ p. HasPlace place.new.value (λ q.
        (a : TheAnswer) × (result ≡ answer_number a) × Looks (lists p.seat) (lists q.seat) (event handle) a)) }
{
    let mut token = place.take(alloc);
    let status = look_in(&mut token, handle.event());
    place.put(token);
    status
}

/// Closes the table: 0, and the handle then holds the map that it leaves; 8 where another handle is at the table, and
/// nothing changed. It takes no memory.
#[unsafe(no_mangle)]
pub extern "C" fn realm_events_close(alloc: Global, owner: &mut Held) -> u32
    requires { HoldsOwner owner.old.value (λ _. Unit {0}) }
    ensures answers { (result ≡ 0) ⊎ (result ≡ 8) }
    ensures closed { result ≡ 0 → HoldsOwner owner.old.value (λ o. HoldsClosed owner.new.value (λ m.
        Closes (shape_of (arc_value o.place.events)) (made_by o.maker) (lists o.place.seat) m)) }
    ensures shared { result ≡ 8 → owner.new.value ≡ owner.old.value }
{
    let mut token = owner.take(alloc);
    let status = close_in(&mut token);
    owner.put(token);
    status
}

/// What became of a handle by the time that its table was closed: 0, 1 or 2 as of a look. It is one that was created.
#[unsafe(no_mangle)]
pub extern "C" fn realm_events_closed_look(
    alloc: Global,
    closed: &mut Held,
    handle: RealmHandle,
) -> u32
    requires { HoldsClosed closed.old.value (λ m. IsCreated m (event handle)) }
    ensures looked { HoldsClosed closed.old.value (λ m. (a : TheAnswer) × (result ≡ answer_number a)
        × (event handle ≢ no_event → answer m (event handle) ≡ Some a) × (event handle ≡ no_event → a ≡ TheAnswer.Triggered)) }
    ensures same { closed.new.value ≡ closed.old.value }
{
    let token = closed.take(alloc);
    let status = look_closed_in(&token, handle.event());
    closed.put(token);
    status
}

/// The pending handle on which the waiter of this number stood as its table was closed: 0; 4 exactly where it stood
/// on none.
#[unsafe(no_mangle)]
pub extern "C" fn realm_events_closed_place(
    alloc: Global,
    closed: &mut Held,
    waiter: u32,
    handle: &mut RealmHandle,
) -> u32
    requires { HoldsClosed closed.old.value (λ _. Unit {0}) }
    ensures answers { (result ≡ 0) ⊎ (result ≡ 4) }
    ensures placed { result ≡ 0 → HoldsClosed closed.old.value (λ m. IsPlaced m waiter (event handle.new)) }
    ensures none { result ≡ 4 → HoldsClosed closed.old.value (λ m. (h : TheHandle) → IsPlaced m waiter h → ⊥) }
    ensures untouched { result ≡ 4 → handle.new ≡ handle.old }
    ensures same { closed.new.value ≡ closed.old.value }
{
    let token = closed.take(alloc);
    let status = place_closed_in(&token, waiter, handle);
    closed.put(token);
    status
}

/// Frees what a handle holds. A pending that is freed leaves its event pending for good.
#[unsafe(no_mangle)]
pub extern "C" fn realm_events_free(alloc: Global, held: &mut Held)
    requires { HoldsAny held.old.value }
    ensures { held.new.value ≡ None }
{
    drop(held.take(alloc));
}
