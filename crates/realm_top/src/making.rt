//! What is done by `make`, which reads nothing.

ghost use Rattle.std.specs.Prelude.{◌≡◌, ◌≤◌, false, true, IfSome};
ghost use Rattle.graph_gen.specs.MadeGraph.{made_graph};
ghost use Rattle.graph_answers.specs.Delivered.{IsAnswered};
ghost use Rattle.realm_top.specs.Answer.{MadeAnswers, reads, may_end};

use crate::input::judge;
use command_line::request::{MAX_SIZE, MAX_SLOTS, MAX_WORKERS, Request};
use graph_answers::status::Status;
use graph_answers::upgrading::put_graph_text;
use graph_gen::laws::made_graphs_are_accepted;
use graph_gen::make::make;
use realm_io::{Gate, Sink};
use std::alloc::Global;
use std::sync::Wait;
use std::thread::Threads;

/// Makes the graph of the request's seed and size, and does what is asked for with it.
pub(crate) fn answer_made<R: Threads + Wait + Sync, K: Sink, G: Gate>(
    rt: &R,
    alloc: Global,
    request: Request,
    sink: &mut K,
    gate: &G,
) -> Status
    requires makes { reads request.action ≡ false }
    requires size { (1 ≤ request.size) × (request.size ≤ MAX_SIZE) }
    requires workers { request.workers ≤ MAX_WORKERS }
    requires slots { IfSome request.slots (λ n. (1 ≤ n) × (n ≤ MAX_SLOTS)) }
    ensures answered { IsAnswered (MadeAnswers request.text request (made_graph request.seed request.size))
        (K.state sink.old) (K.state sink.new) result }
    ensures of_action { may_end request result ≡ true }
    ensures no_memory { result ≡ Status.NoMemory → sink.new ≡ sink.old }
{
    made_graphs_are_accepted();
    let Ok(graph) = make(alloc, request.seed, request.size) else {
        return Status::NoMemory;
    };
    if request.text {
        put_graph_text(sink, &graph)
    } else {
        judge(rt, alloc, request, graph, sink, gate)
    }
}
