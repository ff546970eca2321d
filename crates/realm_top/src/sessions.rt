//! What is done by `session`: graphs are run one after the other, and their events outlast them.

ghost use Rattle.std.specs.Prelude.{◌≡◌, ◌≢◌, ℕ, ◌≤◌, List, length, map, Some, IfOk, IfSome};
ghost use Rattle.graph_terms.specs.declared.limits.TheConstants.{MAX_TEXT};
ghost use Rattle.race_check.specs.declared.checked.CheckRefusal.{CheckRefusal};
ghost use Rattle.race_check.specs.Refusal.{NamesLines};
ghost use Rattle.session_text.specs.declared.limits.TheConstants.{MAX_SESSION_LINES};
ghost use Rattle.session_text.specs.Fits.{AreEntries};
ghost use Rattle.session_text.specs.FirstFault.{IsRefusal};
ghost use Rattle.session_run.specs.Linked.{linked};
ghost use Rattle.session_run.specs.Running.{linked_of, IsOutcome};
ghost use Rattle.session_run.specs.Ended.{IsEnded};
ghost use Rattle.session_run.specs.Report.{session_report};
ghost use Rattle.graph_answers.specs.Answer.{most_slots};
ghost use Rattle.graph_answers.specs.Delivered.{Delivers, IsAnswered};
ghost use Rattle.realm_top.specs.SessionTexts.{unfit_in_text};
ghost use Rattle.realm_top.specs.SessionAnswer.{RefusesSession, GraphsAnswer, SessionAnswers};

use crate::running::run_graph;
use crate::session_refusal::put_broken_in;
use crate::slots::most_slots;
use checked_graph::Checked;
use command_line::request::{MAX_SLOTS, MAX_WORKERS, Request};
use graph_answers::refusing::{put_refusal, put_short};
use graph_answers::status::Status;
use graph_reader::ReadRefusal;
use graph_terms::outcome::Outcome;
use index_spaces::NoMemory;
use program_io::flush;
use realm_io::{Gate, Sink};
use session_run::{Ended, RunFault, UnfitGraph, put_session, run_session};
use session_text::{Entry, read_session};
use std::alloc::Global;
use std::sync::Wait;
use std::thread::Threads;

/// Runs the graphs of the session whose text the bytes are, and writes its report.
pub(crate) fn answer_session<R: Threads + Wait + Sync, K: Sink, G: Gate>(
    rt: &R,
    alloc: Global,
    request: Request,
    bytes: &[u8],
    sink: &mut K,
    gate: &G,
) -> Status
    requires short { length bytes.now ≤ MAX_TEXT }
    requires workers { request.workers ≤ MAX_WORKERS }
    requires slots { IfSome request.slots (λ n. (1 ≤ n) × (n ≤ MAX_SLOTS)) }
    ensures answered { IsAnswered (SessionAnswers (most_slots request.slots) bytes.now) (K.state sink.old) (K.state sink.new) result }
    ensures no_memory { result ≡ Status.NoMemory → sink.new ≡ sink.old }
{
    match read_session(alloc, bytes) {
        Ok(entries) => run_entries(rt, alloc, request, entries, sink, gate),
        Err(refusal) => refuse_session(sink, refusal),
    }
}

/// Answers bytes that are the text of no session.
fn refuse_session<K: Sink>(sink: &mut K, refusal: ReadRefusal) -> Status
    ensures refused { (bytes : List ℕ) → IsRefusal bytes refusal → IsAnswered (RefusesSession bytes) (K.state sink.old) (K.state sink.new) result }
    ensures no_memory { result ≡ Status.NoMemory → sink.new ≡ sink.old }
{
    match refusal {
        ReadRefusal::Line { number, why } => put_refusal(sink, number, why),
        ReadRefusal::NoMemory => Status::NoMemory,
    }
}

/// Runs the graphs of a session in order, and writes its report. A run of one graph has slots enough, whatever
/// is given: those that the request gives are for the events of all graphs.
fn run_entries<R: Threads + Wait + Sync, K: Sink, G: Gate>(
    rt: &R,
    alloc: Global,
    request: Request,
    entries: Vec<Entry>,
    sink: &mut K,
    gate: &G,
) -> Status
    requires entries { AreEntries entries.items }
    requires workers { request.workers ≤ MAX_WORKERS }
    requires slots { IfSome request.slots (λ n. (1 ≤ n) × (n ≤ MAX_SLOTS)) }
    ensures ran { IsAnswered (GraphsAnswer (most_slots request.slots) (linked entries.items)) (K.state sink.old) (K.state sink.new) result }
    ensures no_memory { result ≡ Status.NoMemory → sink.new ≡ sink.old }
{
    let slots = most_slots(request.slots);
    let each = Request {
        slots: None,
        ..request
    };
    let run = |checked: &Checked|
        requires workers { each.workers ≤ MAX_WORKERS }
        requires few { length checked.now.graph.lines ≤ MAX_SESSION_LINES }
    { run_one(rt, alloc, &each, checked, gate) };
    match run_session(alloc, &run, entries, slots) {
        Ok(ended) => put_ended(sink, &ended),
        Err(RunFault::Unfit(unfit)) => reject_in(sink, &unfit),
        Err(RunFault::Slots(need)) => put_short(sink, need),
        Err(RunFault::NoMemory) => Status::NoMemory,
    }
}

/// Runs a graph of a session, which has few lines and so needs few slots.
fn run_one<R: Threads + Wait + Sync, G: Gate>(
    rt: &R,
    alloc: Global,
    request: &Request,
    checked: &Checked,
    gate: &G,
) -> Result<Outcome, NoMemory>
    requires workers { request.now.workers ≤ MAX_WORKERS }
    requires few { length checked.now.graph.lines ≤ MAX_SESSION_LINES }
    ensures outcome { IfOk result (λ o. IsOutcome checked.now.graph o) }
{
    let _ = checked.need();
    run_graph(rt, alloc, request, checked, gate)
}

/// Writes the report of a session, and flushes it.
fn put_ended<K: Sink>(sink: &mut K, ended: &Ended) -> Status
    requires { IsEnded ended.now }
    ensures { Delivers (K.state sink.old) (K.state sink.new) Status.Done result (session_report (map linked_of ended.now.graphs.items)) }
{
    match put_session(sink, ended) {
        Ok(()) => flush(sink, Status::Done),
        Err(_) => Status::WriteFault,
    }
}

/// Writes why a graph of a session is not accepted, and flushes it.
fn reject_in<K: Sink>(sink: &mut K, unfit: &UnfitGraph) -> Status
    requires a_rule { unfit.now.why ≢ CheckRefusal.NoMemory }
    requires lines { NamesLines unfit.now.graph unfit.now.why }
    ensures { (out : List ℕ) → unfit_in_text unfit.now ≡ Some out → Delivers (K.state sink.old) (K.state sink.new) Status.Unfit result out }
{
    match put_broken_in(sink, unfit) {
        Ok(()) => flush(sink, Status::Unfit),
        Err(_) => Status::WriteFault,
    }
}
