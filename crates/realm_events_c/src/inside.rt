//! What is done to what handles of C hold. `WRONG` comes where one holds another kind, which no caller may pass.

ghost use Rattle.std.specs.Prelude.{◌≡◌, ◌≢◌, ◌+◌, ◌<◌, ◌⊎◌, Some};
ghost use Rattle.std.specs.Arc.{arc_value};
ghost use Rattle.event_table.specs.EventMap.{IsCreated, IsPlaced, answer};
ghost use Rattle.shared_events.specs.Seats.{HasSeen, no_event};
ghost use Rattle.shared_events.specs.Views.{lists, made_by, handle_of, number_of, ended_by, fate_of, shape_of, taken_of, size_of, IsReceiptOf, IsWaiterOf};
ghost use Rattle.event_table.specs.declared.handle.Answer.{Answer as TheAnswer};
ghost use Rattle.event_table.specs.declared.handle.Handle.{Handle as TheHandle};
ghost use Rattle.realm_events_c.specs.Calls.{Splits, Joins, Looks, Learns, Leaves, Creates, FindsFull, Ends, Gives, Empties, Closes};
ghost use Rattle.realm_events_c.specs.Watching.{WatchedBy};
ghost use Rattle.realm_events_c.specs.Kinds.{HasPlace, SameButSeat, HoldsPlace, HoldsOwner, HoldsPending, HoldsWaiter, HoldsReceipt, HoldsEnded, HoldsClosed, IsBack, held_of, event, answer_number, fate_number, watch_number};

use crate::exports::RealmHandle;
use crate::owed::Ended;
use crate::owner::Owner;
use crate::place::Place;
use crate::status::{
    DONE, FULL, MOVED, NO_MEMORY, NONE, OVER, OVER_POISON, PLACED, REFUSED, WRONG, answer_number,
    fate_number,
};
use crate::token::Token;
use event_table::{Fate, Handle};
use shared_events::{Receipt, Waiter, Watch};
use std::sync::Arc;

/// Puts a second place into the room.
fn split_off(place: &mut Place, room: &mut Token) -> u32
    ensures answers { (result ≡ 0) ⊎ (result ≡ 7) }
    ensures same { place.new.events ≡ place.old.events }
    ensures done { result ≡ 0 → HoldsPlace (held_of room.new) (λ x. (arc_value x.events ≡ arc_value place.old.events)
        × Splits (lists place.old.seat) (lists place.new.seat) (lists x.seat)) }
    ensures no_memory { result ≡ 7 → (place.new ≡ place.old) × (room.new ≡ room.old) }
{
    let Ok(events) = Arc::try_clone(&place.events) else {
        return NO_MEMORY;
    };
    *room = Token::Place(place.split(events));
    DONE
}

/// Puts a second place of an owner's into the room.
fn split_owner(owner: &mut Owner, room: &mut Token) -> u32
    ensures answers { (result ≡ 0) ⊎ (result ≡ 7) }
    ensures same { (owner.new.place.events ≡ owner.old.place.events) × (owner.new.maker ≡ owner.old.maker) × (owner.new.waiters ≡ owner.old.waiters) }
    ensures done { result ≡ 0 → HoldsPlace (held_of room.new) (λ x. (arc_value x.events ≡ arc_value owner.old.place.events)
        × Splits (lists owner.old.place.seat) (lists owner.new.place.seat) (lists x.seat)) }
    ensures no_memory { result ≡ 7 → (owner.new ≡ owner.old) × (room.new ≡ room.old) }
{
    let Ok(events) = Arc::try_clone(&owner.place.events) else {
        return NO_MEMORY;
    };
    *room = Token::Place(owner.place.split(events));
    DONE
}

pub(crate) fn split_in(token: &mut Token, room: &mut Token) -> u32
    requires { HasPlace (Some token.old) (λ _. Unit {0}) }
    ensures answers { (result ≡ 0) ⊎ (result ≡ 7) }
    ensures same { SameButSeat (Some token.old) (Some token.new) }
    ensures done { result ≡ 0 → HasPlace (Some token.old) (λ p. HasPlace (Some token.new) (λ q. HoldsPlace (held_of room.new) (λ x.
        (arc_value x.events ≡ arc_value p.events) × Splits (lists p.seat) (lists q.seat) (lists x.seat)))) }
    ensures no_memory { result ≡ 7 → (token.new ≡ token.old) × (room.new ≡ room.old) }
{
    match token {
        Token::Place(place) => split_off(place, room),
        Token::Owner(owner) => split_owner(owner, room),
        _ => WRONG,
    }
}

pub(crate) fn join_in(token: &mut Token, other: Token) -> u32
    requires { HasPlace (Some token.old) (λ p. HoldsPlace (Some other) (λ x. arc_value x.events ≡ arc_value p.events)) }
    ensures done { result ≡ 0 }
    ensures same { SameButSeat (Some token.old) (Some token.new) }
    ensures joined { HasPlace (Some token.old) (λ p. HoldsPlace (Some other) (λ x. HasPlace (Some token.new) (λ q.
        Joins (lists p.seat) (lists x.seat) (lists q.seat)))) }
{
    match (token, other) {
        (Token::Place(place), Token::Place(other)) => {
            place.join(other);
            DONE
        }
        (Token::Owner(owner), Token::Place(other)) => {
            owner.place.join(other);
            DONE
        }
        _ => WRONG,
    }
}

pub(crate) fn look_in(token: &mut Token, handle: Handle) -> u32
    requires { HasPlace (Some token.old) (λ p. HasSeen (lists p.seat) handle) }
    ensures same { SameButSeat (Some token.old) (Some token.new) }
    ensures looked { HasPlace (Some token.old) (λ p. HasPlace (Some token.new) (λ q.
        (a : TheAnswer) × (result ≡ answer_number a) × Looks (lists p.seat) (lists q.seat) handle a)) }
{
    match token {
        Token::Place(place) => answer_number(place.look(handle)),
        Token::Owner(owner) => answer_number(owner.place.look(handle)),
        _ => WRONG,
    }
}

/// Puts the waiter back into the room unless it was placed.
fn put_back(watch: Watch, room: &mut Token) -> u32
    requires { room.old ≡ Token.Empty }
    ensures number { result ≡ watch_number watch }
    ensures back { IsBack watch (held_of room.new) }
{
    match watch {
        Watch::Placed => PLACED,
        Watch::Over(fate, waiter) => {
            *room = Token::Waiter(waiter);
            match fate {
                Fate::Ok => OVER,
                Fate::Poison => OVER_POISON,
            }
        }
        Watch::Moved(waiter) => {
            *room = Token::Waiter(waiter);
            MOVED
        }
    }
}

fn watch_by(place: &mut Place, handle: Handle, waiter: Waiter, room: &mut Token) -> u32
    requires seen { HasSeen (lists place.old.seat) handle }
    requires waiter { IsWaiterOf (arc_value place.old.events) waiter }
    requires room { room.old ≡ Token.Empty }
    ensures same { place.new.events ≡ place.old.events }
    ensures watched { WatchedBy (arc_value place.old.events) (lists place.old.seat) (lists place.new.seat) handle waiter result (held_of room.new) }
{
    put_back(place.watch(handle, waiter), room)
}

pub(crate) fn watch_in(token: &mut Token, handle: Handle, room: &mut Token) -> u32
    requires { HasPlace (Some token.old) (λ p. HasSeen (lists p.seat) handle × HoldsWaiter (Some room.old) (IsWaiterOf (arc_value p.events))) }
    ensures same { SameButSeat (Some token.old) (Some token.new) }
    ensures watched { HasPlace (Some token.old) (λ p. HoldsWaiter (Some room.old) (λ k. HasPlace (Some token.new) (λ q.
        WatchedBy (arc_value p.events) (lists p.seat) (lists q.seat) handle k result (held_of room.new)))) }
{
    match (token, std::mem::replace(room, Token::Empty)) {
        (Token::Place(place), Token::Waiter(waiter)) => watch_by(place, handle, waiter, room),
        (Token::Owner(owner), Token::Waiter(waiter)) => {
            watch_by(&mut owner.place, handle, waiter, room)
        }
        _ => WRONG,
    }
}

/// Learns of the end that the receipt tells, and gives the number of its fate.
fn learn_by(place: &mut Place, receipt: Receipt, handle: &mut RealmHandle) -> u32
    requires { IsReceiptOf (arc_value place.old.events) receipt }
    ensures fate { result ≡ fate_number (fate_of receipt) }
    ensures handle { event handle.new ≡ ended_by receipt }
    ensures same { place.new.events ≡ place.old.events }
    ensures learned { Learns (lists place.old.seat) (lists place.new.seat) (ended_by receipt) (fate_of receipt) }
{
    let fate = receipt.fate();
    *handle = RealmHandle::of(receipt.handle());
    place.learn(receipt);
    fate_number(fate)
}

pub(crate) fn learn_in(token: &mut Token, told: Token, handle: &mut RealmHandle) -> u32
    requires { HasPlace (Some token.old) (λ p. HoldsReceipt (Some told) (IsReceiptOf (arc_value p.events))) }
    ensures same { SameButSeat (Some token.old) (Some token.new) }
    ensures learned { HasPlace (Some token.old) (λ p. HoldsReceipt (Some told) (λ r. HasPlace (Some token.new) (λ q.
        (result ≡ fate_number (fate_of r)) × (event handle.new ≡ ended_by r)
        × Learns (lists p.seat) (lists q.seat) (ended_by r) (fate_of r)))) }
{
    match (token, told) {
        (Token::Place(place), Token::Receipt(receipt)) => learn_by(place, receipt, handle),
        (Token::Owner(owner), Token::Receipt(receipt)) => {
            learn_by(&mut owner.place, receipt, handle)
        }
        _ => WRONG,
    }
}

/// Creates an event, and puts the right to end it into the room.
fn create_by(owner: &mut Owner, room: &mut Token, handle: &mut RealmHandle) -> u32
    ensures answers { (result ≡ 0) ⊎ ((result ≡ 5) ⊎ (result ≡ 7)) }
    ensures same { (owner.new.place.events ≡ owner.old.place.events) × (owner.new.waiters ≡ owner.old.waiters) }
    ensures done { result ≡ 0 → HoldsPending (held_of room.new) (λ x. (arc_value x.place.events ≡ arc_value owner.old.place.events)
        × (handle_of x.pending ≡ event handle.new) × Splits (lists owner.new.place.seat) (lists owner.new.place.seat) (lists x.place.seat)
        × Creates (shape_of (arc_value owner.old.place.events)) (made_by owner.old.maker) (made_by owner.new.maker)
        (lists owner.old.place.seat) (lists owner.new.place.seat) (event handle.new)) }
    ensures full { result ≡ 5 → FindsFull (shape_of (arc_value owner.old.place.events)) (made_by owner.old.maker) (made_by owner.new.maker)
        (lists owner.old.place.seat) (lists owner.new.place.seat) }
    ensures no_memory { result ≡ 7 → owner.new ≡ owner.old }
    ensures none { result ≢ 0 → (room.new ≡ room.old) × (handle.new ≡ handle.old) }
{
    let Ok(events) = Arc::try_clone(&owner.place.events) else {
        return NO_MEMORY;
    };
    let Some(owed) = owner.create(events) else {
        return FULL;
    };
    *handle = RealmHandle::of(owed.pending.handle());
    *room = Token::Pending(owed);
    DONE
}

pub(crate) fn create_in(token: &mut Token, room: &mut Token, handle: &mut RealmHandle) -> u32
    requires { HoldsOwner (Some token.old) (λ _. Unit {0}) }
    ensures answers { (result ≡ 0) ⊎ ((result ≡ 5) ⊎ (result ≡ 7)) }
    ensures same { HoldsOwner (Some token.old) (λ o. HoldsOwner (Some token.new) (λ p.
        (p.place.events ≡ o.place.events) × (p.waiters ≡ o.waiters))) }
    ensures done { result ≡ 0 → HoldsOwner (Some token.old) (λ o. HoldsOwner (Some token.new) (λ p. HoldsPending (held_of room.new) (λ x.
        (arc_value x.place.events ≡ arc_value o.place.events) × (handle_of x.pending ≡ event handle.new)
        × Splits (lists p.place.seat) (lists p.place.seat) (lists x.place.seat)
        × Creates (shape_of (arc_value o.place.events)) (made_by o.maker) (made_by p.maker) (lists o.place.seat) (lists p.place.seat) (event handle.new)))) }
    ensures full { result ≡ 5 → HoldsOwner (Some token.old) (λ o. HoldsOwner (Some token.new) (λ p.
        FindsFull (shape_of (arc_value o.place.events)) (made_by o.maker) (made_by p.maker) (lists o.place.seat) (lists p.place.seat))) }
    ensures no_memory { result ≡ 7 → token.new ≡ token.old }
    ensures none { result ≢ 0 → (room.new ≡ room.old) × (handle.new ≡ handle.old) }
{
    match token {
        Token::Owner(owner) => create_by(owner, room, handle),
        _ => WRONG,
    }
}

/// Puts the owner's next waiter into the room.
fn waiter_by(owner: &mut Owner, room: &mut Token, number: &mut u32) -> u32
    ensures answers { (result ≡ 0) ⊎ (result ≡ 4) }
    ensures same { (owner.new.place.events ≡ owner.old.place.events) × (owner.new.place.seat ≡ owner.old.place.seat) × (owner.new.maker ≡ owner.old.maker) × (size_of owner.new.waiters ≡ size_of owner.old.waiters) }
    ensures done { result ≡ 0 → (number.new ≡ taken_of owner.old.waiters) × (taken_of owner.new.waiters ≡ taken_of owner.old.waiters + 1)
        × (number.new < size_of owner.old.waiters)
        × HoldsWaiter (held_of room.new) (λ w. IsWaiterOf (arc_value owner.old.place.events) w × (number_of w ≡ number.new)) }
    ensures all_taken { result ≡ 4 → (taken_of owner.old.waiters ≡ size_of owner.old.waiters) × (taken_of owner.new.waiters ≡ taken_of owner.old.waiters) }
    ensures none { result ≡ 4 → (room.new ≡ room.old) × (number.new ≡ number.old) }
{
    let Some(waiter) = owner.waiter() else {
        return NONE;
    };
    *number = waiter.number();
    *room = Token::Waiter(waiter);
    DONE
}

pub(crate) fn waiter_in(token: &mut Token, room: &mut Token, number: &mut u32) -> u32
    requires { HoldsOwner (Some token.old) (λ _. Unit {0}) }
    ensures answers { (result ≡ 0) ⊎ (result ≡ 4) }
    ensures same { HoldsOwner (Some token.old) (λ o. HoldsOwner (Some token.new) (λ p.
        (p.place.events ≡ o.place.events) × (p.place.seat ≡ o.place.seat) × (p.maker ≡ o.maker) × (size_of p.waiters ≡ size_of o.waiters))) }
    ensures done { result ≡ 0 → HoldsOwner (Some token.old) (λ o. HoldsOwner (Some token.new) (λ p.
        (number.new ≡ taken_of o.waiters) × (taken_of p.waiters ≡ taken_of o.waiters + 1) × (number.new < size_of o.waiters)
        × HoldsWaiter (held_of room.new) (λ w. IsWaiterOf (arc_value o.place.events) w × (number_of w ≡ number.new)))) }
    ensures all_taken { result ≡ 4 → HoldsOwner (Some token.old) (λ o. HoldsOwner (Some token.new) (λ p.
        (taken_of o.waiters ≡ size_of o.waiters) × (taken_of p.waiters ≡ taken_of o.waiters))) }
    ensures none { result ≡ 4 → (room.new ≡ room.old) × (number.new ≡ number.old) }
{
    match token {
        Token::Owner(owner) => waiter_by(owner, room, number),
        _ => WRONG,
    }
}

pub(crate) fn end_in(token: &mut Token, fate: Fate) -> u32
    requires { HoldsPending (Some token.old) (λ _. Unit {0}) }
    ensures done { result ≡ 0 }
    ensures ended { HoldsPending (Some token.old) (λ p. HoldsEnded (Some token.new) (λ e. (e.place.events ≡ p.place.events)
        × Ends (arc_value p.place.events) (lists p.place.seat) (lists e.place.seat) (handle_of p.pending) fate e.receipt e.caught)) }
{
    match std::mem::replace(token, Token::Empty) {
        Token::Pending(owed) => {
            *token = Token::Ended(owed.end(fate));
            DONE
        }
        other => {
            *token = other;
            WRONG
        }
    }
}

pub(crate) fn leave_in(token: &mut Token) -> u32
    requires { HoldsPending (Some token.old) (λ _. Unit {0}) }
    ensures done { result ≡ 0 }
    ensures left { HoldsPending (Some token.old) (λ p. HoldsPlace (Some token.new) (λ q. (q.events ≡ p.place.events)
        × Leaves (lists p.place.seat) (lists q.seat) (handle_of p.pending))) }
{
    match std::mem::replace(token, Token::Empty) {
        Token::Pending(owed) => {
            *token = Token::Place(owed.leave());
            DONE
        }
        other => {
            *token = other;
            WRONG
        }
    }
}

/// Puts the next waiter that stood on the handle into the room.
fn give_by(ended: &mut Ended, room: &mut Token, number: &mut u32) -> u32
    ensures answers { (result ≡ 0) ⊎ (result ≡ 4) }
    ensures same { (ended.new.place.events ≡ ended.old.place.events) × (ended.new.receipt ≡ ended.old.receipt) }
    ensures done { result ≡ 0 → HoldsWaiter (held_of room.new) (λ w. IsWaiterOf (arc_value ended.old.place.events) w × (number_of w ≡ number.new))
        × Gives (lists ended.old.place.seat) (lists ended.new.place.seat) ended.old.caught ended.new.caught number.new }
    ensures all_given { result ≡ 4 → Empties (lists ended.old.place.seat) (lists ended.new.place.seat) ended.old.caught }
    ensures none { result ≡ 4 → (room.new ≡ room.old) × (number.new ≡ number.old) }
{
    let Some(waiter) = ended.next() else {
        return NONE;
    };
    *number = waiter.number();
    *room = Token::Waiter(waiter);
    DONE
}

fn give_in(token: &mut Token, room: &mut Token, number: &mut u32) -> u32
    requires { HoldsEnded (Some token.old) (λ _. Unit {0}) }
    ensures answers { (result ≡ 0) ⊎ (result ≡ 4) }
    ensures same { HoldsEnded (Some token.old) (λ e. HoldsEnded (Some token.new) (λ f.
        (f.place.events ≡ e.place.events) × (f.receipt ≡ e.receipt))) }
    ensures done { result ≡ 0 → HoldsEnded (Some token.old) (λ e. HoldsEnded (Some token.new) (λ f.
        HoldsWaiter (held_of room.new) (λ w. IsWaiterOf (arc_value e.place.events) w × (number_of w ≡ number.new))
        × Gives (lists e.place.seat) (lists f.place.seat) e.caught f.caught number.new)) }
    ensures all_given { result ≡ 4 → HoldsEnded (Some token.old) (λ e. HoldsEnded (Some token.new) (λ f.
        Empties (lists e.place.seat) (lists f.place.seat) e.caught)) }
    ensures none { result ≡ 4 → (room.new ≡ room.old) × (number.new ≡ number.old) }
{
    match token {
        Token::Ended(ended) => give_by(ended, room, number),
        _ => WRONG,
    }
}

/// Keeps the place alone of what is left of an event.
fn settle(token: &mut Token)
    requires { HoldsEnded (Some token.old) (λ _. Unit {0}) }
    ensures { HoldsEnded (Some token.old) (λ e. token.new ≡ Token.Place e.place) }
{
    match std::mem::replace(token, Token::Empty) {
        Token::Ended(Ended { place, .. }) => *token = Token::Place(place),
        other => *token = other,
    }
}

pub(crate) fn next_in(token: &mut Token, room: &mut Token, number: &mut u32) -> u32
    requires { HoldsEnded (Some token.old) (λ _. Unit {0}) }
    ensures answers { (result ≡ 0) ⊎ (result ≡ 4) }
    ensures done { result ≡ 0 → HoldsEnded (Some token.old) (λ e. HoldsEnded (Some token.new) (λ f.
        (f.place.events ≡ e.place.events) × (f.receipt ≡ e.receipt)
        × HoldsWaiter (held_of room.new) (λ w. IsWaiterOf (arc_value e.place.events) w × (number_of w ≡ number.new))
        × Gives (lists e.place.seat) (lists f.place.seat) e.caught f.caught number.new)) }
    ensures all_given { result ≡ 4 → HoldsEnded (Some token.old) (λ e. HoldsPlace (Some token.new) (λ p.
        (p.events ≡ e.place.events) × Empties (lists e.place.seat) (lists p.seat) e.caught)) }
    ensures none { result ≡ 4 → (room.new ≡ room.old) × (number.new ≡ number.old) }
{
    let status = give_in(token, room, number);
    if status == NONE {
        settle(token);
    }
    status
}

pub(crate) fn receipt_in(token: &mut Token, room: &mut Token) -> u32
    requires { HoldsEnded (Some token.old) (λ _. Unit {0}) }
    ensures done { result ≡ 0 }
    ensures same { HoldsEnded (Some token.old) (λ e. HoldsEnded (Some token.new) (λ f. (f.place.events ≡ e.place.events) × (f.place.seat ≡ e.place.seat) × (f.caught ≡ e.caught)
        × (ended_by f.receipt ≡ ended_by e.receipt) × (fate_of f.receipt ≡ fate_of e.receipt))) }
    ensures receipt { HoldsEnded (Some token.old) (λ e. HoldsReceipt (held_of room.new) (λ r. IsReceiptOf (arc_value e.place.events) r
        × (ended_by r ≡ ended_by e.receipt) × (fate_of r ≡ fate_of e.receipt))) }
{
    match token {
        Token::Ended(ended) => {
            *room = Token::Receipt(ended.receipt());
            DONE
        }
        _ => WRONG,
    }
}

pub(crate) fn close_in(token: &mut Token) -> u32
    requires { HoldsOwner (Some token.old) (λ _. Unit {0}) }
    ensures answers { (result ≡ 0) ⊎ (result ≡ 8) }
    ensures closed { result ≡ 0 → HoldsOwner (Some token.old) (λ o. HoldsClosed (Some token.new) (λ m.
        Closes (shape_of (arc_value o.place.events)) (made_by o.maker) (lists o.place.seat) m)) }
    ensures shared { result ≡ 8 → token.new ≡ token.old }
{
    match std::mem::replace(token, Token::Empty) {
        Token::Owner(owner) => match owner.close() {
            Ok(left) => {
                *token = Token::Closed(left);
                DONE
            }
            Err(owner) => {
                *token = Token::Owner(owner);
                REFUSED
            }
        },
        other => {
            *token = other;
            WRONG
        }
    }
}

pub(crate) fn look_closed_in(token: &Token, handle: Handle) -> u32
    requires { HoldsClosed (Some token.now) (λ m. IsCreated m handle) }
    ensures { HoldsClosed (Some token.now) (λ m. (a : TheAnswer) × (result ≡ answer_number a)
        × (handle ≢ no_event → answer m handle ≡ Some a) × (handle ≡ no_event → a ≡ TheAnswer.Triggered)) }
{
    match token {
        Token::Closed(left) => answer_number(left.look(handle)),
        _ => WRONG,
    }
}

pub(crate) fn place_closed_in(token: &Token, waiter: u32, handle: &mut RealmHandle) -> u32
    requires { HoldsClosed (Some token.now) (λ _. Unit {0}) }
    ensures answers { (result ≡ 0) ⊎ (result ≡ 4) }
    ensures placed { result ≡ 0 → HoldsClosed (Some token.now) (λ m. IsPlaced m waiter (event handle.new)) }
    ensures none { result ≡ 4 → HoldsClosed (Some token.now) (λ m. (h : TheHandle) → IsPlaced m waiter h → ⊥) }
    ensures same { result ≡ 4 → handle.new ≡ handle.old }
{
    match token {
        Token::Closed(left) => match left.place_of(waiter) {
            Some(found) => {
                *handle = RealmHandle::of(found);
                DONE
            }
            None => NONE,
        },
        _ => WRONG,
    }
}
