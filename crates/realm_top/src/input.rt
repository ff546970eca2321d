//! What is done with an input that was read to its end.

ghost use Rattle.std.specs.Prelude.{◌≡◌, ℕ, ◌<◌, ◌≤◌, ◌⊎◌, List, true, false, length, Some, slice_get, IfSome};
ghost use Rattle.graph_meaning.specs.Evaluation.{outcome};
ghost use Rattle.graph_meaning.specs.Trace.{IsLawful};
ghost use Rattle.graph_words.specs.Limits.{text_limit};
ghost use Rattle.realm_io.specs.Written.{Writes};
ghost use Rattle.graph_answers.specs.Delivered.{Delivers, IsAnswered};
ghost use Rattle.graph_answers.specs.Answer.{run_text, runs, InputAnswers, Serves, Settled};
ghost use Rattle.realm_top.specs.Answer.{reads, audits, upgrades, runs_session, input_limit, may_end, Answered};

use crate::actions::{audits, runs_session, upgrades};
use crate::running::run_graph;
use crate::sessions::answer_session;
use crate::slots::most_slots;
use command_line::request::{Action, MAX_SLOTS, MAX_WORKERS, Request};
use graph_answers::accepted::answer_unrun;
use graph_answers::auditing::answer_audit;
use graph_answers::evaluating::put_outcome;
use graph_answers::refusing::{put_short, refuse, reject};
use graph_answers::status::Status;
use graph_answers::summary::put_summary;
use graph_answers::upgrading::answer_upgrade;
use graph_model::graph::Graph;
use graph_reader::read_graph;
use graph_terms::outcome::Outcome;
use program_io::flush;
use race_check::check;
use race_check::checked::Checked;
use realm_io::{Gate, Sink, WriteFault};
use std::alloc::Global;
use std::sync::Wait;
use std::thread::Threads;

/// Does what is asked for with an input of these bytes.
pub(crate) fn answer<R: Threads + Wait + Sync, K: Sink, G: Gate>(
    rt: &R,
    alloc: Global,
    request: Request,
    bytes: &[u8],
    sink: &mut K,
    gate: &G,
) -> Status
    requires reads { reads request.action ≡ true }
    requires short { length bytes.now ≤ input_limit request.action bytes.now }
    requires workers { request.workers ≤ MAX_WORKERS }
    requires slots { IfSome request.slots (λ n. (1 ≤ n) × (n ≤ MAX_SLOTS)) }
    ensures answered { Answered request bytes.now (K.state sink.old) (K.state sink.new) result }
    ensures of_action { may_end request result ≡ true }
    ensures no_memory { result ≡ Status.NoMemory → sink.new ≡ sink.old }
{
    if audits(request.action) {
        answer_audit(alloc, bytes, sink)
    } else if upgrades(request.action) {
        answer_upgrade(alloc, bytes, request.to_three, sink)
    } else if runs_session(request.action) {
        answer_session(rt, alloc, request, bytes, sink, gate)
    } else {
        answer_graph(rt, alloc, request, bytes, sink, gate)
    }
}

/// Does what is asked for with the graph whose text the bytes are.
fn answer_graph<R: Threads + Wait + Sync, K: Sink, G: Gate>(
    rt: &R,
    alloc: Global,
    request: Request,
    bytes: &[u8],
    sink: &mut K,
    gate: &G,
) -> Status
    requires checks { (audits request.action ≡ false) × (upgrades request.action ≡ false) × (runs_session request.action ≡ false) }
    requires reads { reads request.action ≡ true }
    requires short { length bytes.now ≤ text_limit bytes.now }
    requires workers { request.workers ≤ MAX_WORKERS }
    requires slots { IfSome request.slots (λ n. (1 ≤ n) × (n ≤ MAX_SLOTS)) }
    ensures answered { IsAnswered (InputAnswers request bytes.now) (K.state sink.old) (K.state sink.new) result }
    ensures no_memory { result ≡ Status.NoMemory → sink.new ≡ sink.old }
{
    match read_graph(alloc, bytes) {
        Ok(graph) => judge(rt, alloc, request, graph, sink, gate),
        Err(refusal) => refuse(sink, refusal),
    }
}

/// Checks a graph, and does what is asked for where it is accepted.
pub(crate) fn judge<R: Threads + Wait + Sync, K: Sink, G: Gate>(
    rt: &R,
    alloc: Global,
    request: Request,
    graph: Graph,
    sink: &mut K,
    gate: &G,
) -> Status
    requires checks { (audits request.action ≡ false) × (upgrades request.action ≡ false) × (runs_session request.action ≡ false) }
    requires made { request.action ≡ Action.Make → request.text ≡ false }
    requires workers { request.workers ≤ MAX_WORKERS }
    requires slots { IfSome request.slots (λ n. (1 ≤ n) × (n ≤ MAX_SLOTS)) }
    ensures settled { Settled request graph (K.state sink.old) (K.state sink.new) result }
    ensures no_memory { result ≡ Status.NoMemory → sink.new ≡ sink.old }
{
    match check(alloc, graph) {
        Ok(checked) => serve(rt, alloc, request, &checked, sink, gate),
        Err(unfit) => reject(sink, &unfit),
    }
}

/// Does what is asked for with a graph that is accepted.
fn serve<R: Threads + Wait + Sync, K: Sink, G: Gate>(
    rt: &R,
    alloc: Global,
    request: Request,
    checked: &Checked,
    sink: &mut K,
    gate: &G,
) -> Status
    requires checks { (audits request.action ≡ false) × (upgrades request.action ≡ false) × (runs_session request.action ≡ false) }
    requires made { request.action ≡ Action.Make → request.text ≡ false }
    requires workers { request.workers ≤ MAX_WORKERS }
    requires slots { IfSome request.slots (λ n. (1 ≤ n) × (n ≤ MAX_SLOTS)) }
    ensures served { Serves request checked.now.graph (K.state sink.old) (K.state sink.new) result }
    ensures no_memory { result ≡ Status.NoMemory → sink.new ≡ sink.old }
{
    if is_run(&request) {
        run_within(rt, alloc, &request, checked, sink, gate)
    } else {
        answer_unrun(alloc, &request, checked, sink)
    }
}

/// Whether a graph is run.
fn is_run(request: &Request) -> bool
    ensures { result ≡ runs request.now.action request.now.text }
{
    match request.action {
        Action::Run => true,
        Action::Make => !request.text,
        _ => false,
    }
}

/// Runs a graph, unless the run has fewer slots than its need.
fn run_within<R: Threads + Wait + Sync, K: Sink, G: Gate>(
    rt: &R,
    alloc: Global,
    request: &Request,
    checked: &Checked,
    sink: &mut K,
    gate: &G,
) -> Status
    requires runs { runs request.now.action request.now.text ≡ true }
    requires workers { request.now.workers ≤ MAX_WORKERS }
    requires slots { IfSome request.now.slots (λ n. (1 ≤ n) × (n ≤ MAX_SLOTS)) }
    ensures served { Serves request.now checked.now.graph (K.state sink.old) (K.state sink.new) result }
    ensures no_memory { result ≡ Status.NoMemory → sink.new ≡ sink.old }
{
    let need = checked.need();
    if most_slots(request.slots) < need {
        put_short(sink, need)
    } else {
        run(rt, alloc, request, checked, sink, gate)
    }
}

/// Runs a graph, and writes what is asked for of the run.
fn run<R: Threads + Wait + Sync, K: Sink, G: Gate>(
    rt: &R,
    alloc: Global,
    request: &Request,
    checked: &Checked,
    sink: &mut K,
    gate: &G,
) -> Status
    requires workers { request.now.workers ≤ MAX_WORKERS }
    requires need { checked.now.need ≤ MAX_SLOTS }
    ensures done { (result ≡ Status.NoMemory) ⊎ ((trace : List ℕ) × IsLawful checked.now.graph trace
        × Delivers (K.state sink.old) (K.state sink.new) Status.Done result
        (run_text request.now.action request.now.trace checked.now.graph trace)) }
    ensures no_memory { result ≡ Status.NoMemory → sink.new ≡ sink.old }
{
    let Ok(outcome) = run_graph(rt, alloc, request, checked, gate) else {
        return Status::NoMemory;
    };
    match put_run(sink, checked.graph(), &outcome, request) {
        Ok(()) => flush(sink, Status::Done),
        Err(_) => Status::WriteFault,
    }
}

/// Writes for `make` the line that sums a run up, else the report of the run, with its trace where it is asked for.
fn put_run<K: Sink>(
    sink: &mut K,
    graph: &Graph,
    found: &Outcome,
    request: &Request,
) -> Result<(), WriteFault>
    requires outcome { found.now ≡ outcome graph.now found.now.trace }
    requires lines { (k i : ℕ) → slice_get found.now.trace k ≡ Some i → i < length graph.now.lines }
    ensures { Writes (K.state sink.old) (K.state sink.new) result
        (run_text request.now.action request.now.trace graph.now found.now.trace) }
{
    match request.action {
        Action::Make => put_summary(sink, graph, found),
        _ => put_outcome(sink, graph, found, request.trace),
    }
}
