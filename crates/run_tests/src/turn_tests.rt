//! Runs by several workers: the outcome is that of the evaluation, whatever the schedule.

use crate::graphs::checked;
use crate::outcomes::is_same;
use graph_terms::outcome::Outcome;
use lock_engine::{Turn, run_turn};
use plain_eval::evaluation::eval;
use race_check::checked::Checked;
use realm_io::OpenGate;
use std::sync::Wait;
use std::test::Fail;
use std::thread::Threads;
use test_texts::graphs::{EMPTY, FAULTY_PATHS, KERNELS, LOCKED_SUMS, NO_TRIGGER};
use test_texts::tiles;

/// How often each graph is run by each number of workers.
const RUNS: u32 = 100;

/// What so many workers make of a graph, with 256 slots or as many as it needs.
fn ran<R: Threads + Wait + Sync + AllocGlobal>(
    rt: &R,
    checked: &Checked,
    workers: u32,
) -> Result<Outcome, Fail> {
    let slots = checked.need().max(256);
    if slots > 8192 || workers > 8 {
        return Err("slots or workers".into());
    }
    let turn = Turn::prepare(rt.alloc(), checked, slots)?;
    Ok(run_turn(rt, turn, workers, &OpenGate))
}

/// Whether each of many runs by 0, 1, 3 and 8 workers gives the outcome of the evaluation.
fn is_steady<R: Threads + Wait + Sync + AllocGlobal>(rt: &R, text: &str) -> Result<bool, Fail> {
    let checked = checked(rt.alloc(), text)?;
    let wanted = eval(rt.alloc(), &checked)?;
    for _run in 0..RUNS {
        for workers in [0, 1, 3, 8] {
            if !is_same(&ran(rt, &checked, workers)?, &wanted) {
                return Ok(false);
            }
        }
    }
    Ok(true)
}

#[test]
fn same_outcomes(rt: HostRuntime) -> Result<(), Fail> {
    for text in [EMPTY, NO_TRIGGER, FAULTY_PATHS, KERNELS, LOCKED_SUMS] {
        assert!(rt; is_steady(&rt, text)?);
    }
    Ok(())
}

#[test]
fn same_outcomes_of_tiles(rt: HostRuntime) -> Result<(), Fail> {
    let text = tiles::graph(rt.alloc())?;
    assert!(rt; is_steady(&rt, text.as_str())?);
    Ok(())
}
