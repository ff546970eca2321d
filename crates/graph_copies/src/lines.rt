//! Copies of lines.

ghost use Rattle.std.specs.Prelude.{◌≡◌, None, IfOk};
ghost use Rattle.graph_terms.specs.Table.{verb_kind};

use crate::lists::copy_of_items;
use graph_terms::call::{Call, CallParts};
use graph_terms::lists::EventList;
use graph_terms::verb::{Line, Verb};
use index_spaces::NoMemory;
use std::alloc::Global;

/// A copy of a line.
pub fn copy_of_line(alloc: Global, line: &Line) -> Result<Line, NoMemory>
    ensures { IfOk result (λ l. l ≡ line.now) }
{
    Ok(Line {
        name: line.name,
        verb: copy_of_verb(alloc, &line.verb)?,
        on: copy_of_events(alloc, &line.on)?,
    })
}

/// A copy of what a line does.
fn copy_of_verb(alloc: Global, verb: &Verb) -> Result<Verb, NoMemory>
    ensures { IfOk result (λ v. v ≡ verb.now) }
{
    match verb.kind() {
        Some(kind) => Ok(Verb::of(kind, &verb.parts())),
        None => copy_of_lists(alloc, verb),
    }
}

/// A copy of a merge or a call.
fn copy_of_lists(alloc: Global, verb: &Verb) -> Result<Verb, NoMemory>
    requires { verb_kind verb.now ≡ None }
    ensures { IfOk result (λ v. v ≡ verb.now) }
{
    match verb {
        Verb::Merge { events } => Ok(Verb::Merge {
            events: copy_of_items(alloc, events)?,
        }),
        Verb::MergeIgnore { events } => Ok(Verb::MergeIgnore {
            events: copy_of_items(alloc, events)?,
        }),
        Verb::Call { call } => Ok(Verb::Call {
            call: copy_of_call(alloc, call)?,
        }),
        _ => unreachable!(),
    }
}

/// A copy of a call.
fn copy_of_call(alloc: Global, call: &Call) -> Result<Call, NoMemory>
    ensures { IfOk result (λ c. c ≡ call.now) }
{
    let parts = CallParts {
        word: *call.word(),
        values: copy_of_items(alloc, call.values())?,
        accesses: copy_of_items(alloc, call.accesses())?,
    };
    Call::new(alloc, parts)
}

/// A copy of a list of events.
fn copy_of_events(alloc: Global, events: &EventList) -> Result<EventList, NoMemory>
    ensures { IfOk result (λ e. e ≡ events.now) }
{
    let _ = events.len();
    let mut copy = EventList::new(alloc);
    for event in events.as_slice() {
        copy.push(*event)?;
    }
    Ok(copy)
}
