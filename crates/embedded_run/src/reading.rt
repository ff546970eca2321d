//! Reading an outcome.

ghost use Rattle.std.specs.Prelude.{◌≡◌, IfOk, IfErr};
ghost use Rattle.graph_meaning.specs.Evaluation.{outcome};
ghost use Rattle.embedded_run.specs.SumGraph.{sum_graph};

use crate::building::sum_graph;
use crate::failure::Failure;
use crate::running::run_graph;
use graph_terms::outcome::{End, Outcome};
use realm_io::Gate;
use std::alloc::Global;
use std::sync::Wait;
use std::thread::Threads;

/// What is read of an outcome.
#[derive(Clone, Copy)]
pub(crate) struct Reading {
    /// How the last line ended.
    pub(crate) end: End,
    /// A cell of the column of the sums.
    pub(crate) cell: u64,
}

/// Has the graph of the sums run, and reads its outcome. Whatever the threads do, it is the same. No failure
/// comes but want of memory.
pub(crate) fn read_sums<R: Threads + Wait + Sync, G: Gate>(
    rt: &R,
    alloc: Global,
    gate: &G,
) -> Result<Reading, Failure>
    ensures reading { IfOk result (λ r. r ≡ record { end = End.Done; cell = 24 }) }
    ensures refused { IfErr result (λ e. e ≡ Failure.NoMemory) }
{
    let graph = sum_graph(alloc)?;
    let outcome = run_graph(rt, alloc, graph, gate)?;
    Ok(read(&outcome))
}

/// Reads the outcome of the graph of the sums.
fn read(ran: &Outcome) -> Reading
    requires { ran.now ≡ outcome sum_graph ran.now.trace }
    ensures { result ≡ record { end = End.Done; cell = 24 } }
{
    Reading {
        end: ran.ends.at(3),
        cell: ran.columns.at(1).at(3),
    }
}
