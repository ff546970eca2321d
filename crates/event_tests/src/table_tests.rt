//! Tables of one thread, and how a runtime uses one: its tasks are the waiters.

ghost use Rattle.std.specs.Prelude.{◌≡◌, All, IfOk, IfSome};
ghost use Rattle.event_table.specs.EventMap.{answer, IsCreated, IsFree, KeepsCreated};
ghost use Rattle.event_table.specs.declared.handle.Handle.{Handle as TheHandle};

use crate::shared_tests::fate_of;
use event_table::{Answer, EventTable, Fate, Handle, NO_EVENT, WatchNow};
use std::alloc::Global;
use std::test::Fail;

// Whether both events have ended. Where one has not, the task is placed on it, and is caught as it
// ends.
fn is_ready(table: &mut EventTable, task: u32, first: Handle, second: Handle) -> bool
    requires first { IsCreated table.old first }
    requires second { IsCreated table.old second }
    requires task { IsFree table.old task }
    ensures answers { (h : TheHandle) → answer table.new h ≡ answer table.old h }
    ensures created { KeepsCreated table.old table.new }
{
    match table.watch(first, task) {
        WatchNow::Placed => false,
        WatchNow::Over(_) => matches!(table.watch(second, task), WatchNow::Over(_)),
    }
}

// A task that waits for two events, of which the second ends with Poison: whether it is ready at
// first, once the first event has ended, and once both have.
fn wait_for_both(table: &mut EventTable, task: u32) -> Option<([bool; 3], Answer)>
    requires task { IsFree table.old task }
{
    let first = table.create()?;
    let second = table.create()?;
    let at_first = is_ready(table, task, first, second);
    table.end(first, Fate::Ok);
    let task = table.next_caught()?;
    let then = is_ready(table, task, first, second);
    table.end(second, Fate::Poison);
    let task = table.next_caught()?;
    let at_last = is_ready(table, task, first, second);
    Some(([at_first, then, at_last], table.look(second)))
}

#[test]
fn a_task_waits_for_two_events(rt: HostRuntime) -> Result<(), Fail> {
    let Ok(mut table) = EventTable::new(rt.alloc(), 2, 1, 0) else {
        return Err("no memory".into());
    };
    assert_eq!(rt;
        wait_for_both(&mut table, 0),
        Some(([false, false, true], Answer::Poisoned))
    );
    Ok(())
}

// Creates a handle and ends it.
fn serve(table: &mut EventTable, fate: Fate) -> Option<Handle>
    ensures kept { KeepsCreated table.old table.new }
    ensures created { IfSome result (λ h. IsCreated table.new h) }
{
    let handle = table.create()?;
    table.end(handle, fate);
    Some(handle)
}

// Three handles, each ended before the next, with their answers at the end.
fn three(table: &mut EventTable) -> Option<[(Handle, Answer); 3]> {
    let first = serve(table, Fate::Poison)?;
    let second = serve(table, Fate::Ok)?;
    let third = serve(table, Fate::Ok)?;
    Some([
        (first, table.look(first)),
        (second, table.look(second)),
        (third, table.look(third)),
    ])
}

#[test]
fn a_slot_serves_until_its_last_generation(rt: HostRuntime) -> Result<(), Fail> {
    let Ok(mut table) = EventTable::new(rt.alloc(), 1, 1, 2) else {
        return Err("no memory".into());
    };
    let [first, second, third] = three(&mut table).ok_or("three handles")?;
    assert!(rt; table.create().is_none());
    assert_eq!(rt; first, (Handle { slot: 0, gen_: 0 }, Answer::Poisoned));
    assert_eq!(rt; second, (Handle { slot: 0, gen_: 1 }, Answer::Triggered));
    assert_eq!(rt; third, (Handle { slot: 0, gen_: 2 }, Answer::Triggered));
    assert_eq!(rt; table.look(NO_EVENT), Answer::Triggered);
    Ok(())
}

// The waiters that a handle gives back once it has ended.
fn caught(table: &mut EventTable) -> Option<[Option<u32>; 4]>
    requires { (IsFree table.old 0) × (IsFree table.old 1) × (IsFree table.old 2) }
{
    let handle = table.create()?;
    table.watch(handle, 2);
    table.watch(handle, 0);
    table.watch(handle, 1);
    table.end(handle, Fate::Poison);
    Some([
        table.next_caught(),
        table.next_caught(),
        table.next_caught(),
        table.next_caught(),
    ])
}

#[test]
fn waiters_of_a_handle_are_caught_once(rt: HostRuntime) -> Result<(), Fail> {
    let Ok(mut table) = EventTable::new(rt.alloc(), 1, 4, 1) else {
        return Err("no memory".into());
    };
    assert_eq!(rt; table.watch(NO_EVENT, 3), WatchNow::Over(Fate::Ok));
    assert_eq!(rt; caught(&mut table), Some([Some(1), Some(0), Some(2), None]));
    Ok(())
}

// Handles of one slot, each ended before the next was created, with Poison where the generation is a multiple of 3.
fn serve_many(table: &mut EventTable, alloc: Global, count: u32) -> Result<Vec<Handle>, Fail>
    ensures { IfOk result (λ handles. All (IsCreated table.new) handles.items) }
{
    let mut handles = Vec::new(alloc);
    for round in 0..count {
        let Some(handle) = serve(table, fate_of(round)) else {
            return Err("a handle".into());
        };
        handles.push(handle)?;
    }
    Ok(handles)
}

// How many of these handles are poisoned, and how many triggered.
fn answers(table: &EventTable, handles: &[Handle]) -> (u32, u32)
    requires { All (IsCreated table.now) handles.now }
{
    let mut poisoned = 0u32;
    let mut triggered = 0u32;
    for handle in handles {
        match table.look(*handle) {
            Answer::Poisoned => poisoned = poisoned.saturating_add(1),
            Answer::Triggered => triggered = triggered.saturating_add(1),
            Answer::Pending => {}
        }
    }
    (poisoned, triggered)
}

#[test]
fn old_handles_answer_for_themselves(rt: HostRuntime) -> Result<(), Fail> {
    let Ok(mut table) = EventTable::new(rt.alloc(), 1, 1, 100) else {
        return Err("no memory".into());
    };
    let handles = serve_many(&mut table, rt.alloc(), 101)?;
    assert!(rt; table.create().is_none());
    assert_eq!(rt; answers(&table, handles.as_slice()), (34, 67));
    Ok(())
}
