//! A table of one thread.

ghost use Rattle.event_table.specs.EventMap.{IsFree};

use event_table::{Answer, EventTable, Fate, Handle};

/// What two handles of one slot answered.
#[derive(Clone, Copy)]
pub(crate) struct Served {
    pub(crate) first: Handle,
    /// The first one's answer before it ended.
    pub(crate) before: Answer,
    /// The waiter that stood on it as it ended.
    pub(crate) caught: Option<u32>,
    pub(crate) second: Handle,
    /// The first one's answer while its slot serves the second.
    pub(crate) old: Answer,
    pub(crate) new: Answer,
}

/// Has an event with a waiter end, and creates another one. `None` comes where each slot is pending or
/// retired.
pub(crate) fn serve_twice(table: &mut EventTable, waiter: u32) -> Option<Served>
    requires { IsFree table.old waiter }
{
    let first = table.create()?;
    let before = table.look(first);
    table.watch(first, waiter);
    table.end(first, Fate::Poison);
    let caught = table.next_caught();
    let second = table.create()?;
    Some(Served {
        first,
        before,
        caught,
        second,
        old: table.look(first),
        new: table.look(second),
    })
}
