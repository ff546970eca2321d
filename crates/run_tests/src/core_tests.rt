//! Graphs run through a core in orders unlike the evaluation's, with as much work out as is taken:
//! each gives the outcome of the evaluation.

ghost use Rattle.std.specs.Prelude.{◌+◌, ◌<◌, ◌≤◌, length};
ghost use Rattle.run_core.specs.WhatIsOut.{SameOut};
ghost use Rattle.run_core.specs.Works.{WorkValue, IsWork};

use crate::graphs::checked;
use crate::orders::{Order, line_at};
use crate::outcomes::{has_trace, is_same};
use event_table::Handle;
use graph_terms::outcome::Outcome;
use plain_eval::evaluation::eval;
use race_check::checked::Checked;
use run_core::{Attempt, Core, Thing};
use std::alloc::{AllocError, Global};
use std::test::Fail;
use test_texts::generated::chain;
use test_texts::graphs::{
    CANCELLED_BARRIER, EMPTY, FAULTY_PATHS, KERNELS, LOCKED_SUMS, MISSING_WEIGHT, NINE_WAITERS,
    NO_TRIGGER, ONE_SHARED_SUM, READER_AND_SUM, READERS_AND_WRITER, SECTION_WITHOUT_RESERVATION,
    TWO_READERS, TWO_SECTIONS, TWO_SHARED_SECTIONS, WAITER_ABOVE_TRIGGER, WEIGHTED_ARRIVALS,
};
use test_texts::tiles;

/// Issues as many lines as there is room for.
fn issue_all(core: &mut Core)
    ensures { SameOut core.old core.new }
{
    for _turn in 0..core.graph().lines() {
        core.issue();
    }
}

/// Takes what can be taken from this place of the order on: how many lines. Each is put back after
/// those that were taken after it, so as much as can be is out at one time.
fn take_from(core: &mut Core, order: Order, place: u32) -> u32
    requires { place ≤ length core.old.graph.lines }
    ensures few { place + result ≤ length core.old.graph.lines }
    ensures out { SameOut core.old core.new }
    ensures works { (w : WorkValue) → IsWork core.old w → IsWork core.new w }
{
    let lines = core.graph().lines();
    if place == lines {
        return 0;
    }
    let Attempt::Taken(work) = core.attempt(line_at(order, place, lines)) else {
        return take_from(core, order, place + 1);
    };
    let others = take_from(core, order, place + 1);
    core.is_sound();
    let finished = work.perform(core.graph());
    core.put_back(finished);
    others + 1
}

/// Gives all waiters that were caught, which are then free.
fn wake_all(core: &mut Core)
    ensures { SameOut core.old core.new }
{
    for _turn in 0..core.graph().lines() {
        core.next_woken();
    }
}

/// Issues lines, takes all that can be taken, and wakes those that waited, as many times as there
/// are lines, since one at least ends each time while any can: how many have ended.
fn drive(core: &mut Core, order: Order) -> u32
    ensures { SameOut core.old core.new }
{
    let mut ended = 0u32;
    for _turn in 0..core.graph().lines() {
        issue_all(core);
        ended = ended.saturating_add(take_from(core, order, 0));
        wake_all(core);
    }
    ended
}

/// The outcome of a core that is driven in this order, with how many lines the drive ended.
fn driven(
    alloc: Global,
    checked: &Checked,
    slots: u32,
    order: Order,
) -> Result<(Outcome, u32), Fail> {
    if checked.need() > slots || slots > 8192 {
        return Err("slots".into());
    }
    let mut core = Core::prepare(alloc, checked, slots)?;
    let ended = drive(&mut core, order);
    core.finish();
    Ok((core.outcome(), ended))
}

/// Whether a graph that is driven in each order gives the outcome of the evaluation, and ends by
/// the drive alone.
fn is_evaluated(alloc: Global, text: &str, slots: u32) -> Result<bool, Fail> {
    let checked = checked(alloc, text)?;
    let wanted = eval(alloc, &checked)?;
    for order in [Order::Ascending, Order::Descending, Order::Alternating] {
        let (outcome, ended) = driven(alloc, &checked, slots, order)?;
        if !is_same(&outcome, &wanted) || !has_trace(&outcome, ended) {
            return Ok(false);
        }
    }
    Ok(true)
}

#[test]
fn small_graphs(rt: HostRuntime) -> Result<(), Fail> {
    for (text, slots) in [
        (EMPTY, 1),
        (WAITER_ABOVE_TRIGGER, 4),
        (FAULTY_PATHS, 6),
        (CANCELLED_BARRIER, 6),
        (NO_TRIGGER, 3),
        (KERNELS, 9),
        (LOCKED_SUMS, 10),
        (ONE_SHARED_SUM, 10),
        (READER_AND_SUM, 2),
        (READERS_AND_WRITER, 13),
        (SECTION_WITHOUT_RESERVATION, 16),
        (TWO_SECTIONS, 6),
        (TWO_SHARED_SECTIONS, 6),
        (NINE_WAITERS, 11),
        (WEIGHTED_ARRIVALS, 3),
        (MISSING_WEIGHT, 2),
    ] {
        assert!(rt; is_evaluated(rt.alloc(), text, slots)?);
    }
    Ok(())
}

#[test]
fn tiled_stencil(rt: HostRuntime) -> Result<(), Fail> {
    let text = tiles::graph(rt.alloc())?;
    assert!(rt; is_evaluated(rt.alloc(), text.as_str(), 427)?);
    Ok(())
}

#[test]
fn one_slot(rt: HostRuntime) -> Result<(), Fail> {
    let text = chain(rt.alloc(), 1000)?;
    assert!(rt; is_evaluated(rt.alloc(), text.as_str(), 1)?);
    assert!(rt; shares_one_slot(rt.alloc(), text.as_str())?);
    Ok(())
}

/// Whether each line of a finished run with one slot has the slot's generation of its number.
fn shares_one_slot(alloc: Global, text: &str) -> Result<bool, Fail> {
    let checked = checked(alloc, text)?;
    if checked.need() > 1 {
        return Err("slots".into());
    }
    let mut core = Core::prepare(alloc, &checked, 1)?;
    core.finish();
    for line in 0..core.graph().lines() {
        if core.handle_of(line)
            != Some(Handle {
                slot: 0,
                gen_: line,
            })
        {
            return Ok(false);
        }
    }
    Ok(true)
}

/// What keeps a line from being taken where all are issued and the first one is out.
fn second_waits_for(alloc: Global, text: &str, second: u32) -> Result<Option<Thing>, Fail> {
    let checked = checked(alloc, text)?;
    if checked.need() > 8192 || checked.graph().lines() <= second {
        return Err("graph".into());
    }
    let mut core = Core::prepare(alloc, &checked, 8192)?;
    issue_all(&mut core);
    let Attempt::Taken(_) = core.attempt(0) else {
        return Err("first".into());
    };
    match core.attempt(second) {
        Attempt::Taken(_) => Ok(None),
        Attempt::Busy(thing) => Ok(Some(thing)),
        _ => Err("second".into()),
    }
}

#[test]
fn second_line_waits(rt: HostRuntime) -> Result<(), Fail> {
    for (text, second, thing) in [
        (READER_AND_SUM, 1, Some(Thing::Column(0))),
        (TWO_SECTIONS, 3, Some(Thing::Lock(0))),
        (TWO_READERS, 1, None),
    ] {
        let found = second_waits_for(rt.alloc(), text, second)?;
        assert_eq!(rt; found, thing);
    }
    Ok(())
}

/// Two sections of one reservation, with what follows each acquire.
fn two_sections(alloc: Global, first: &str, second: &str) -> Result<String, AllocError> {
    format!(in alloc;
        "realm 2\nlock l\nq = acquire l{first}\nm = mergei q\nr = release q on m\nk = acquire l{second}\nn = mergei k\nt = release k on n\nend\n"
    )
}

/// What keeps the second acquire of these sections from being taken where all lines are issued and
/// the first has ended and isn't released.
fn second_acquire_waits_for(alloc: Global, text: &str) -> Result<Option<Thing>, Fail> {
    let checked = checked(alloc, text)?;
    if checked.need() > 8192 || checked.graph().lines() <= 3 {
        return Err("graph".into());
    }
    let mut core = Core::prepare(alloc, &checked, 8192)?;
    issue_all(&mut core);
    let Attempt::Taken(work) = core.attempt(0) else {
        return Err("first".into());
    };
    core.is_sound();
    let finished = work.perform(core.graph());
    core.put_back(finished);
    match core.attempt(3) {
        Attempt::Taken(_) => Ok(None),
        Attempt::Busy(thing) => Ok(Some(thing)),
        _ => Err("second".into()),
    }
}

#[test]
fn shared_sections(rt: HostRuntime) -> Result<(), Fail> {
    for (first, second, thing) in [
        (" shared", " shared", None),
        ("", "", Some(Thing::Lock(0))),
        ("", " shared", Some(Thing::Lock(0))),
        (" shared", "", Some(Thing::Lock(0))),
    ] {
        let text = two_sections(rt.alloc(), first, second)?;
        let found = second_acquire_waits_for(rt.alloc(), text.as_str())?;
        assert_eq!(rt; found, thing);
        assert!(rt; is_evaluated(rt.alloc(), text.as_str(), 6)?);
    }
    Ok(())
}
