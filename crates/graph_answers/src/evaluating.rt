//! What is answered of an accepted graph by its evaluation.

ghost use Rattle.std.specs.Prelude.{◌≡◌, ℕ, ◌<◌, ◌⊎◌, [], length, Some, slice_get};
ghost use Rattle.graph_meaning.specs.Evaluation.{outcome};
ghost use Rattle.realm_io.specs.Written.{Writes};
ghost use Rattle.graph_answers.specs.Answer.{evaluation_text, report_with};
ghost use Rattle.graph_answers.specs.Delivered.{Delivers};

use crate::status::Status;
use graph_model::graph::Graph;
use graph_terms::outcome::Outcome;
use plain_eval::evaluation::eval;
use program_io::flush;
use race_check::checked::Checked;
use realm_audit::put_trace;
use realm_io::{Sink, WriteFault, put};
use run_report::put_evaluation;
use std::alloc::Global;

/// Evaluates a graph, and writes its report, and its order as the trace where it is asked for.
pub(crate) fn evaluate<K: Sink>(
    alloc: Global,
    trace: bool,
    checked: &Checked,
    sink: &mut K,
) -> Status
    ensures done { (result ≡ Status.NoMemory) ⊎ Delivers (K.state sink.old) (K.state sink.new) Status.Done result
        (evaluation_text trace checked.now.graph) }
    ensures no_memory { result ≡ Status.NoMemory → sink.new ≡ sink.old }
{
    let Ok(outcome) = eval(alloc, checked) else {
        return Status::NoMemory;
    };
    match put_outcome(sink, checked.graph(), &outcome, trace) {
        Ok(()) => flush(sink, Status::Done),
        Err(_) => Status::WriteFault,
    }
}

/// Writes the report of an outcome, and its trace where it is asked for.
pub fn put_outcome<K: Sink>(
    sink: &mut K,
    graph: &Graph,
    found: &Outcome,
    trace: bool,
) -> Result<(), WriteFault>
    requires outcome { found.now ≡ outcome graph.now found.now.trace }
    requires lines { (k i : ℕ) → slice_get found.now.trace k ≡ Some i → i < length graph.now.lines }
    ensures { Writes (K.state sink.old) (K.state sink.new) result (report_with trace graph.now found.now.trace) }
{
    put_evaluation(sink, graph, found)?;
    if trace {
        put_trace(sink, graph, &found.trace)
    } else {
        put_nothing(sink)
    }
}

/// Writes nothing.
fn put_nothing<K: Sink>(sink: &mut K) -> Result<(), WriteFault>
    ensures { Writes (K.state sink.old) (K.state sink.new) result [] }
{
    put(sink, b"")
}
