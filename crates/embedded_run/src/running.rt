//! Checking a graph, and running it by workers.

ghost use Rattle.std.specs.Prelude.{◌≡◌, ◌<◌, ◌≤◌, length, IfOk, IfErr};
ghost use Rattle.graph_meaning.specs.Evaluation.{outcome};
ghost use Rattle.graph_meaning.specs.Trace.{IsLawful};
ghost use Rattle.embedded_run.specs.Failures.{failure_of, IsRunFailure};

use crate::failure::Failure;
use free_engine::{HintQueue, run_free};
use graph_model::graph::Graph;
use graph_terms::outcome::Outcome;
use index_spaces::NoMemory;
use race_check::check;
use race_check::checked::{CheckRefusal, Checked};
use realm_io::Gate;
use run_words::Words;
use std::alloc::Global;
use std::sync::Wait;
use std::thread::Threads;

/// How many threads share a run.
const WORKERS: u32 = 2;

/// How many events may be pending at one time.
const SLOTS: u32 = 16;

/// Checks a graph that has a line, and runs it.
pub(crate) fn run_graph<R: Threads + Wait + Sync, G: Gate>(
    rt: &R,
    alloc: Global,
    graph: Graph,
    gate: &G,
) -> Result<Outcome, Failure>
    requires some { 0 < length graph.lines }
    ensures outcome { IfOk result (λ o. o ≡ outcome graph o.trace) }
    ensures lawful { IfOk result (λ o. IsLawful graph o.trace) }
    ensures refused { IfErr result (λ e. IsRunFailure graph SLOTS e) }
{
    let checked = match check(alloc, graph) {
        Ok(checked) => checked,
        Err(unfit) => return Err(failure_of(unfit.why)),
    };
    if checked.need() > SLOTS {
        return Err(Failure::Slots(checked.need()));
    }
    Ok(run_checked(rt, alloc, &checked, gate)?)
}

/// The failure that a refusal is.
fn failure_of(why: CheckRefusal) -> Failure
    ensures { result ≡ failure_of why }
{
    match why {
        CheckRefusal::NoMemory => Failure::NoMemory,
        why => Failure::Graph(why),
    }
}

/// Runs a graph that was accepted.
fn run_checked<R: Threads + Wait + Sync, G: Gate>(
    rt: &R,
    alloc: Global,
    checked: &Checked,
    gate: &G,
) -> Result<Outcome, NoMemory>
    requires some { 0 < length checked.now.graph.lines }
    requires slots { checked.now.need ≤ SLOTS }
    ensures outcome { IfOk result (λ o. o ≡ outcome checked.now.graph o.trace) }
    ensures lawful { IfOk result (λ o. IsLawful checked.now.graph o.trace) }
{
    let (queue, pass) = HintQueue::new(alloc, checked.graph().lines())?;
    let mut hints = queue.hints(alloc, pass, WORKERS)?;
    let (words, seat) = Words::prepare(alloc, checked, SLOTS)?;
    Ok(run_free(rt, words, seat, gate, hints.parts()))
}
