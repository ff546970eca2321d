//! Each call of a run that takes memory, by itself. With ample memory each gives its answer. Where one request is
//! refused, as by `tests/refused-memory`, the call says so, and the same call made again gives its answer; the test
//! ends with the name of the call then, which that script reads.

ghost use Rattle.std.specs.Prelude.{◌≤◌};

use crate::graphs::checked;
use crate::outcomes::is_same;
use crate::prepared::{closed, prepared};
use free_engine::{HintQueue, run_free};
use graph_terms::outcome::Outcome;
use lock_engine::{Turn, run_turn};
use plain_eval::evaluation::eval;
use race_check::checked::Checked;
use realm_io::OpenGate;
use run_core::Core;
use run_words::Words;
use std::alloc::Global;
use std::sync::Wait;
use std::test::Fail;
use std::thread::Threads;
use test_texts::graphs::LOCKED_SUMS;
use test_texts::memory::after;

/// More slots than the graph needs.
const SLOTS: u32 = 256;

fn prepares_core(alloc: Global, checked: &Checked, wanted: &Outcome) -> Result<(), Fail>
    requires { checked.now.need ≤ SLOTS }
{
    match Core::prepare(alloc, checked, SLOTS) {
        Ok(mut core) => {
            core.finish();
            after("Core::prepare", false, is_same(&core.outcome(), wanted))
        }
        Err(_) => {
            let again = Core::prepare(alloc, checked, SLOTS).is_ok();
            after("Core::prepare", true, again)
        }
    }
}

fn prepares_turn<R: Threads + Wait + Sync + AllocGlobal>(
    rt: &R,
    checked: &Checked,
    wanted: &Outcome,
) -> Result<(), Fail>
    requires { checked.now.need ≤ SLOTS }
{
    match Turn::prepare(rt.alloc(), checked, SLOTS) {
        Ok(turn) => {
            let outcome = run_turn(rt, turn, 3, &OpenGate);
            after("Turn::prepare", false, is_same(&outcome, wanted))
        }
        Err(_) => {
            let again = Turn::prepare(rt.alloc(), checked, SLOTS).is_ok();
            after("Turn::prepare", true, again)
        }
    }
}

fn makes_queue(alloc: Global) -> Result<(), Fail> {
    match HintQueue::new(alloc, 10) {
        Ok((queue, pass)) => match queue.hints(alloc, pass, 3) {
            Ok(mut list) => after("HintQueue::hints", false, list.parts().len() == 3),
            // (the pass is lost)
            Err(_) => after("HintQueue::hints", true, true),
        },
        Err(_) => after("HintQueue::new", true, HintQueue::new(alloc, 10).is_ok()),
    }
}

fn prepares_words<R: Threads + Wait + Sync + AllocGlobal>(
    rt: &R,
    checked: &Checked,
    wanted: &Outcome,
) -> Result<(), Fail>
    requires { checked.now.need ≤ SLOTS }
{
    let (queue, pass) = HintQueue::new(rt.alloc(), 10)?;
    let mut hints = queue.hints(rt.alloc(), pass, 3)?;
    match Words::prepare(rt.alloc(), checked, SLOTS) {
        Ok((words, seat)) => {
            let outcome = run_free(rt, words, seat, &OpenGate, hints.parts());
            after("Words::prepare", false, is_same(&outcome, wanted))
        }
        Err(_) => {
            let (words, seat) = prepared(rt.alloc(), checked)?;
            after(
                "Words::prepare",
                true,
                is_same(&closed(words, seat), wanted),
            )
        }
    }
}

#[test]
fn each_call(rt: HostRuntime) -> Result<(), Fail> {
    let checked = checked(rt.alloc(), LOCKED_SUMS)?;
    let wanted = eval(rt.alloc(), &checked)?;
    if checked.need() > SLOTS {
        return Err("slots".into());
    }
    prepares_core(rt.alloc(), &checked, &wanted)?;
    prepares_turn(&rt, &checked, &wanted)?;
    makes_queue(rt.alloc())?;
    prepares_words(&rt, &checked, &wanted)
}
