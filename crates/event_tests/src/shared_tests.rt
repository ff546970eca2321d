//! Tables that threads share, of a few slots.

ghost use Rattle.std.specs.Prelude.{◌≡◌, All, Contains, IfOk, IfSome};
ghost use Rattle.event_table.specs.EventMap.{fresh};
ghost use Rattle.shared_events.specs.Seats.{HasSeen, Keeps};
ghost use Rattle.shared_events.specs.Views.{lists, shape_of, ended_by, IsAt, IsMakerOf, IsReceiptOf, IsWaiterOf};

use event_table::{Answer, EventTable, Fate, Handle, NO_EVENT};
use shared_events::{Events, Maker, Receipt, Seat, Waiter, Watch};
use std::alloc::Global;
use std::test::Fail;

// Creates a handle and ends it.
pub(crate) fn serve(
    events: &Events,
    maker: &mut Maker,
    seat: &mut Seat,
    fate: Fate,
) -> Option<Receipt>
    requires maker { IsMakerOf events.now maker.old }
    requires at { IsAt events.now seat.old }
    ensures maker { IsMakerOf events.now maker.new }
    ensures at { IsAt events.now seat.new }
    ensures kept { Keeps (lists seat.old) (lists seat.new) }
    ensures some { IfSome result (λ r. IsReceiptOf events.now r) }
    ensures seen { IfSome result (λ r. HasSeen (lists seat.new) (ended_by r)) }
{
    let pending = events.create(maker, seat)?;
    let (receipt, _caught) = events.end(seat, pending, fate);
    Some(receipt)
}

// What the seat is answered for the handle of a receipt.
fn ask(events: &Events, seat: &mut Seat, receipt: Receipt) -> (Handle, Answer)
    requires at { IsAt events.now seat.old }
    requires receipt { IsReceiptOf events.now receipt }
    ensures at { IsAt events.now seat.new }
{
    let handle = receipt.handle();
    events.learn(seat, receipt);
    (handle, events.look(seat, handle))
}

// Poison in each third round, from the first on.
pub(crate) fn fate_of(round: u32) -> Fate {
    if round % 3 == 0 {
        Fate::Poison
    } else {
        Fate::Ok
    }
}

// Handles of one slot, each ended before the next was created.
fn serve_many(
    events: &Events,
    maker: &mut Maker,
    seat: &mut Seat,
    alloc: Global,
    count: u32,
) -> Result<Vec<Handle>, Fail>
    requires maker { IsMakerOf events.now maker.old }
    requires at { IsAt events.now seat.old }
    ensures maker { IsMakerOf events.now maker.new }
    ensures at { IsAt events.now seat.new }
    ensures seen { IfOk result (λ handles. All (HasSeen (lists seat.new)) handles.items) }
{
    let mut handles = Vec::new(alloc);
    for round in 0..count {
        let Some(receipt) = serve(events, maker, seat, fate_of(round)) else {
            return Err("a handle".into());
        };
        handles.push(receipt.handle())?;
    }
    Ok(handles)
}

// How many of these handles are poisoned, and how many triggered.
fn answers(events: &Events, seat: &mut Seat, handles: &[Handle]) -> (u32, u32)
    requires at { IsAt events.now seat.old }
    requires seen { All (HasSeen (lists seat.old)) handles.now }
    ensures at { IsAt events.now seat.new }
    ensures kept { Keeps (lists seat.old) (lists seat.new) }
{
    let mut poisoned = 0u32;
    let mut triggered = 0u32;
    for handle in handles {
        match events.look(seat, *handle) {
            Answer::Poisoned => poisoned = poisoned.saturating_add(1),
            Answer::Triggered => triggered = triggered.saturating_add(1),
            Answer::Pending => {}
        }
    }
    (poisoned, triggered)
}

// the answers of the seat that created and ended, and of one that was split off before and joined with it after
#[test]
fn old_handles_answer_for_themselves(rt: HostRuntime) -> Result<(), Fail> {
    let Ok((events, mut maker, mut seat, _set)) = Events::new(rt.alloc(), 1, 1, 100) else {
        return Err("no memory".into());
    };
    let mut other = events.split(&mut seat);
    let handles = serve_many(&events, &mut maker, &mut seat, rt.alloc(), 101)?;
    assert!(rt; serve(&events, &mut maker, &mut seat, Fate::Ok).is_none());
    let last = events.split(&mut seat);
    events.join(&mut other, last);
    assert_eq!(rt; answers(&events, &mut seat, handles.as_slice()), (34, 67));
    assert_eq!(rt; answers(&events, &mut other, handles.as_slice()), (34, 67));
    Ok(())
}

#[test]
fn a_slot_serves_until_its_last_generation(rt: HostRuntime) -> Result<(), Fail> {
    let Ok((events, mut maker, mut seat, _set)) = Events::new(rt.alloc(), 1, 1, 2) else {
        return Err("no memory".into());
    };
    let first = serve(&events, &mut maker, &mut seat, Fate::Poison).ok_or("the first")?;
    let second = serve(&events, &mut maker, &mut seat, Fate::Ok).ok_or("the second")?;
    let third = serve(&events, &mut maker, &mut seat, Fate::Ok).ok_or("the third")?;
    assert!(rt; serve(&events, &mut maker, &mut seat, Fate::Ok).is_none());
    let first = ask(&events, &mut seat, first);
    let second = ask(&events, &mut seat, second);
    let third = ask(&events, &mut seat, third);
    assert_eq!(rt; first, (Handle { slot: 0, gen_: 0 }, Answer::Poisoned));
    assert_eq!(rt; second, (Handle { slot: 0, gen_: 1 }, Answer::Triggered));
    assert_eq!(rt; third, (Handle { slot: 0, gen_: 2 }, Answer::Triggered));
    assert_eq!(rt; events.look(&mut seat, NO_EVENT), Answer::Triggered);
    Ok(())
}

#[test]
fn two_slots_of_one_generation(rt: HostRuntime) -> Result<(), Fail> {
    let Ok((events, mut maker, mut seat, _set)) = Events::new(rt.alloc(), 2, 0, 0) else {
        return Err("no memory".into());
    };
    let mut other = events.split(&mut seat);
    let Some(mut one) = events.create(&mut maker, &mut seat) else {
        return Err("the first".into());
    };
    let Some(two) = events.create(&mut maker, &mut seat) else {
        events.leave(&mut seat, one);
        return Err("the second".into());
    };
    let handle = events.see(&mut other, &mut one);
    assert_eq!(rt; events.look(&mut other, handle), Answer::Pending);
    assert!(rt; serve(&events, &mut maker, &mut seat, Fate::Ok).is_none());
    let (receipt, _caught) = events.end(&mut seat, one, Fate::Poison);
    let (_receipt, _caught) = events.end(&mut seat, two, Fate::Ok);
    assert!(rt; serve(&events, &mut maker, &mut seat, Fate::Ok).is_none());
    assert_eq!(rt; ask(&events, &mut other, receipt).1, Answer::Poisoned);
    events.join(&mut seat, other);
    Ok(())
}

#[test]
fn waiters_are_caught_once(rt: HostRuntime) -> Result<(), Fail> {
    let Ok((events, mut maker, mut seat, mut set)) = Events::new(rt.alloc(), 1, 2, 2) else {
        return Err("no memory".into());
    };
    let one = set.take(&events).ok_or("a waiter")?;
    let two = set.take(&events).ok_or("a second waiter")?;
    assert!(rt; set.take(&events).is_none());
    let Some(pending) = events.create(&mut maker, &mut seat) else {
        return Err("a handle".into());
    };
    let handle = pending.handle();
    let first = events.watch(&mut seat, handle, one);
    let second = events.watch(&mut seat, handle, two);
    assert!(rt; matches!(first, Watch::Placed) && matches!(second, Watch::Placed));
    let (receipt, mut caught) = events.end(&mut seat, pending, Fate::Poison);
    let last = caught.next(&events, &mut seat).ok_or("the last waiter")?;
    assert_eq!(rt; last.number(), 1);
    assert_eq!(rt;
        caught.next(&events, &mut seat).map(|w| w.number()),
        Some(0)
    );
    assert!(rt; caught.next(&events, &mut seat).is_none());
    let over = receipt.handle();
    events.learn(&mut seat, receipt);
    let late = events.watch(&mut seat, over, last);
    assert!(rt; matches!(late, Watch::Over(Fate::Poison, _)));
    assert_eq!(rt; events.look(&mut seat, NO_EVENT), Answer::Triggered);
    Ok(())
}

// A handle that ended with Poison, and one that is left with a waiter on it.
fn end_and_leave(
    events: &Events,
    maker: &mut Maker,
    seat: &mut Seat,
    waiter: Waiter,
) -> Option<(Handle, Handle)>
    requires maker { IsMakerOf events.now maker.old }
    requires at { IsAt events.now seat.old }
    requires waiter { IsWaiterOf events.now waiter }
    ensures maker { IsMakerOf events.now maker.new }
    ensures at { IsAt events.now seat.new }
    ensures seen { IfSome result (λ h. HasSeen (lists seat.new) h.0 × HasSeen (lists seat.new) h.1) }
    ensures left { IfSome result (λ h. Contains (lists seat.new).left h.1) }
{
    let past = serve(events, maker, seat, Fate::Poison)?.handle();
    let pending = events.create(maker, seat)?;
    events.watch(seat, pending.handle(), waiter);
    Some((past, events.leave(seat, pending)))
}

// What is left of a table with one ended handle and one that is pending, and what becomes of it as
// a table of one thread: the two handles' answers, where the waiter is, and whether it can be placed.
fn leave_and_take_over(
    events: Events,
    mut maker: Maker,
    mut seat: Seat,
    waiter: Waiter,
    spare: EventTable,
) -> Option<[(Answer, Answer, bool); 2]>
    requires maker { IsMakerOf events maker }
    requires at { IsAt events seat }
    requires waiter { IsWaiterOf events waiter }
    requires spare { spare ≡ fresh (shape_of events).slots (shape_of events).waiters (shape_of events).last_gen }
{
    let (past, now) = end_and_leave(&events, &mut maker, &mut seat, waiter)?;
    let left = events.close(maker, seat);
    let before = (
        left.look(past),
        left.look(now),
        left.place_of(0) == Some(now),
    );
    let mut table = left.into_table(spare);
    table.end(now, Fate::Ok);
    let after = (
        table.look(past),
        table.look(now),
        table.next_caught().is_some(),
    );
    Some([before, after])
}

#[test]
fn a_closed_table_moves_into_one_of_one_thread(rt: HostRuntime) -> Result<(), Fail> {
    let Ok((events, maker, seat, mut set)) = Events::new(rt.alloc(), 1, 2, 2) else {
        return Err("no memory".into());
    };
    let Ok(spare) = EventTable::new(rt.alloc(), 1, 2, 2) else {
        return Err("no memory".into());
    };
    let waiter = set.take(&events).ok_or("a waiter")?;
    assert_eq!(rt;
        leave_and_take_over(events, maker, seat, waiter, spare),
        Some([
            (Answer::Poisoned, Answer::Pending, true),
            (Answer::Poisoned, Answer::Triggered, false),
        ])
    );
    Ok(())
}
