//! What is done by `audit`, whose input is the text of a graph with that of a trace behind it.

ghost use Rattle.std.specs.Prelude.{◌≡◌, ◌≢◌, ℕ, ◌+◌, ◌<◌, ◌≤◌, ◌^◌, List, length, Some};
ghost use Rattle.realm_audit.specs.Lawful.{NamesLines};
ghost use Rattle.realm_audit.specs.Reading.{AreLines};
ghost use Rattle.realm_audit.specs.declared.refusal.AuditRefusal.{AuditRefusal};
ghost use Rattle.realm_audit.specs.Parts.{newlines};
ghost use Rattle.graph_answers.specs.AuditAnswer.{audit_limit, AuditAnswers, PartsAnswer, TraceAnswers, LawfulAnswers};
ghost use Rattle.graph_answers.specs.Delivered.{Delivers, IsAnswered};
ghost use Rattle.graph_answers.specs.Texts.{trace_refused_text, unlawful_text};

use crate::refusing::{refuse, reject};
use crate::status::Status;
use crate::unlawful::{put_trace_refused, put_unlawful};
use graph_model::graph::Graph;
use graph_reader::read_graph;
use graph_terms::lists::LineList;
use graph_words::limits::text_limit;
use plain_eval::evaluation::eval;
use program_io::{flush, put_text};
use race_check::check;
use race_check::checked::Checked;
use realm_audit::{AuditRefusal, TraceRefusal, audit, newlines, parts, read_trace};
use realm_io::Sink;
use std::alloc::Global;

/// The most bytes that an input of `audit` may have which begins as these do: twice as many as the text of a graph.
pub fn audit_limit(bytes: &[u8]) -> u64
    ensures limit { result ≡ audit_limit bytes.now }
    ensures few { result < 2 ^ 32 }
{
    2 * text_limit(bytes)
}

/// Says of an input of `audit` whether its trace is lawful.
pub fn answer_audit<K: Sink>(alloc: Global, bytes: &[u8], sink: &mut K) -> Status
    requires short { length bytes.now ≤ audit_limit bytes.now }
    ensures answered { IsAnswered (AuditAnswers bytes.now) (K.state sink.old) (K.state sink.new) result }
    ensures no_memory { result ≡ Status.NoMemory → sink.new ≡ sink.old }
{
    let _ = audit_limit(bytes);
    let (front, back) = parts(bytes);
    match read_graph(alloc, front) {
        Ok(graph) => audit_graph(alloc, graph, newlines(front), back, sink),
        Err(refusal) => refuse(sink, refusal),
    }
}

/// Checks a graph, whose text has so many lines, and judges the trace behind it where the graph is accepted.
fn audit_graph<K: Sink>(
    alloc: Global,
    graph: Graph,
    lines: u32,
    back: &[u8],
    sink: &mut K,
) -> Status
    requires short { length back.now < 2 ^ 32 }
    ensures settled { IsAnswered (PartsAnswer graph lines back.now) (K.state sink.old) (K.state sink.new) result }
    ensures no_memory { result ≡ Status.NoMemory → sink.new ≡ sink.old }
{
    match check(alloc, graph) {
        Ok(checked) => audit_trace(alloc, &checked, lines, back, sink),
        Err(unfit) => reject(sink, &unfit),
    }
}

/// Reads the trace behind an accepted graph, whose text has so many lines, and judges it.
fn audit_trace<K: Sink>(
    alloc: Global,
    checked: &Checked,
    lines: u32,
    back: &[u8],
    sink: &mut K,
) -> Status
    requires short { length back.now < 2 ^ 32 }
    ensures read { IsAnswered (TraceAnswers checked.now.graph lines back.now) (K.state sink.old) (K.state sink.new) result }
    ensures no_memory { result ≡ Status.NoMemory → sink.new ≡ sink.old }
{
    let graph = checked.graph();
    match read_trace(alloc, graph, back) {
        Ok(trace) => judge_trace(alloc, checked, &trace, sink),
        Err(TraceRefusal::Line(number)) => put_no_trace(sink, lines, number),
        Err(TraceRefusal::NoMemory) => Status::NoMemory,
    }
}

/// Writes that a line is refused which has this number behind so many lines of a graph's text.
fn put_no_trace<K: Sink>(sink: &mut K, lines: u32, number: u32) -> Status
    ensures { Delivers (K.state sink.old) (K.state sink.new) Status.Unread result (trace_refused_text (lines + number)) }
{
    match put_trace_refused(sink, u64::from(lines) + u64::from(number)) {
        Ok(()) => flush(sink, Status::Unread),
        Err(_) => Status::WriteFault,
    }
}

/// Evaluates a graph, and says whether a trace of it is lawful.
fn judge_trace<K: Sink>(alloc: Global, checked: &Checked, trace: &LineList, sink: &mut K) -> Status
    requires lines { AreLines checked.now.graph trace.now }
    ensures judged { IsAnswered (LawfulAnswers checked.now.graph trace.now) (K.state sink.old) (K.state sink.new) result }
    ensures no_memory { result ≡ Status.NoMemory → sink.new ≡ sink.old }
{
    let Ok(outcome) = eval(alloc, checked) else {
        return Status::NoMemory;
    };
    let graph = checked.graph();
    match audit(alloc, graph, &outcome.ends, trace) {
        Ok(()) => put_text(sink, b"lawful\n", Status::Done),
        Err(AuditRefusal::NoMemory) => Status::NoMemory,
        Err(why) => put_fault(sink, graph, trace, why),
    }
}

/// Writes why a trace is not lawful, and flushes it.
fn put_fault<K: Sink>(sink: &mut K, graph: &Graph, trace: &LineList, why: AuditRefusal) -> Status
    requires a_fault { why ≢ AuditRefusal.NoMemory }
    requires lines { AreLines graph.now trace.now }
    requires names { NamesLines graph.now trace.now why }
    ensures { (out : List ℕ) → unlawful_text graph.now trace.now why ≡ Some out
        → Delivers (K.state sink.old) (K.state sink.new) Status.Unlawful result out }
{
    match put_unlawful(sink, graph, trace, why) {
        Ok(()) => flush(sink, Status::Unlawful),
        Err(_) => Status::WriteFault,
    }
}
