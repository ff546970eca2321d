//! What is answered of an accepted graph that is not run.

ghost use Rattle.std.specs.Prelude.{◌≡◌, ◌≤◌, true};
ghost use Rattle.graph_answers.specs.Answer.{runs_nothing, Serves};
ghost use Rattle.graph_answers.specs.Delivered.{Delivers};
ghost use Rattle.graph_answers.specs.Texts.{accepted_text};

use crate::evaluating::evaluate;
use crate::planning::plan_graph;
use crate::refusal::put_accepted;
use crate::status::Status;
use command_line::request::{Action, MAX_WORKERS, Request};
use program_io::flush;
use race_check::checked::Checked;
use realm_io::Sink;
use std::alloc::Global;

/// Does what is asked for with an accepted graph, by an action that runs nothing.
pub fn answer_unrun<K: Sink>(
    alloc: Global,
    request: &Request,
    checked: &Checked,
    sink: &mut K,
) -> Status
    requires unrun { runs_nothing request.now.action ≡ true }
    requires workers { request.now.workers ≤ MAX_WORKERS }
    ensures served { Serves request.now checked.now.graph (K.state sink.old) (K.state sink.new) result }
    ensures no_memory { result ≡ Status.NoMemory → sink.new ≡ sink.old }
{
    let need = checked.need();
    match request.action {
        Action::Eval => evaluate(alloc, request.trace, checked, sink),
        Action::Check => put_need(sink, need),
        Action::Timeline => plan_graph(alloc, request, checked, sink),
        _ => unreachable!(),
    }
}

/// Writes that a graph is accepted, with its need.
fn put_need<K: Sink>(sink: &mut K, need: u32) -> Status
    ensures { Delivers (K.state sink.old) (K.state sink.new) Status.Done result (accepted_text need) }
{
    match put_accepted(sink, need) {
        Ok(()) => flush(sink, Status::Done),
        Err(_) => Status::WriteFault,
    }
}
