//! The lines that say why bytes are no trace, or why a trace is not lawful.

ghost use Rattle.std.specs.Prelude.{◌≡◌, ◌≢◌, ◌<◌, ℕ, List, Some, length};
ghost use Rattle.realm_io.specs.Written.{Writes};
ghost use Rattle.realm_audit.specs.Reading.{AreLines};
ghost use Rattle.realm_audit.specs.Lawful.{NamesLines};
ghost use Rattle.realm_audit.specs.declared.refusal.AuditRefusal.{AuditRefusal};
ghost use Rattle.graph_answers.specs.Texts.{trace_refused_text, unlawful_at, unlawful_with, unlawful_without, unlawful_text};

use graph_model::graph::Graph;
use graph_terms::lists::LineList;
use itoa::Buffer;
use realm_audit::AuditRefusal;
use realm_io::{Sink, WriteFault};
use run_report::put_words;

/// Writes that the line of this number, counted from 1, is the first with which no text of a trace begins.
pub(crate) fn put_trace_refused<K: Sink>(sink: &mut K, number: u64) -> Result<(), WriteFault>
    ensures { Writes (K.state sink.old) (K.state sink.new) result (trace_refused_text number) }
{
    let mut buffer = Buffer::new();
    let digits = buffer.format(number).as_bytes();
    put_words(sink, &[b"refused", b"line", digits, b"trace"])
}

/// Writes the fault of the line at a place of a trace.
fn put_at<K: Sink>(
    sink: &mut K,
    graph: &Graph,
    trace: &LineList,
    fault: &[u8],
    place: u32,
) -> Result<(), WriteFault>
    requires lines { AreLines graph.now trace.now }
    requires place { place < length trace.now }
    ensures { Writes (K.state sink.old) (K.state sink.new) result (unlawful_at graph.now trace.now fault.now place) }
{
    let mut buffer = Buffer::new();
    let digits = buffer.format(u64::from(place) + 1).as_bytes();
    let name = graph.line(trace.at(place)).name.bytes();
    put_words(sink, &[b"unlawful", fault, digits, name])
}

/// Writes the fault of the line at a place of a trace, in which another line has part.
fn put_with<K: Sink>(
    sink: &mut K,
    graph: &Graph,
    trace: &LineList,
    fault: &[u8],
    place: u32,
    other: u32,
) -> Result<(), WriteFault>
    requires lines { AreLines graph.now trace.now }
    requires place { place < length trace.now }
    requires other { other < length graph.now.lines }
    ensures { Writes (K.state sink.old) (K.state sink.new) result
        (unlawful_with graph.now trace.now fault.now place other) }
{
    let mut buffer = Buffer::new();
    let digits = buffer.format(u64::from(place) + 1).as_bytes();
    let name = graph.line(trace.at(place)).name.bytes();
    put_words(
        sink,
        &[
            b"unlawful",
            fault,
            digits,
            name,
            graph.line(other).name.bytes(),
        ],
    )
}

/// Writes that a line ends and is not in a trace.
fn put_missing<K: Sink>(sink: &mut K, graph: &Graph, line: u32) -> Result<(), WriteFault>
    requires { line < length graph.now.lines }
    ensures { Writes (K.state sink.old) (K.state sink.new) result (unlawful_without graph.now line) }
{
    put_words(
        sink,
        &[b"unlawful", b"missing", graph.line(line).name.bytes()],
    )
}

/// Writes why a trace is not lawful.
pub(crate) fn put_unlawful<K: Sink>(
    sink: &mut K,
    graph: &Graph,
    trace: &LineList,
    why: AuditRefusal,
) -> Result<(), WriteFault>
    requires a_fault { why ≢ AuditRefusal.NoMemory }
    requires lines { AreLines graph.now trace.now }
    requires names { NamesLines graph.now trace.now why }
    ensures { (out : List ℕ) → unlawful_text graph.now trace.now why ≡ Some out
        → Writes (K.state sink.old) (K.state sink.new) result out }
{
    match why {
        AuditRefusal::Repeat(place) => put_at(sink, graph, trace, b"repeat", place),
        AuditRefusal::Waits(place) => put_at(sink, graph, trace, b"waits", place),
        AuditRefusal::Source(place, source) => {
            put_with(sink, graph, trace, b"source", place, source)
        }
        AuditRefusal::Overlap(place, acquire) => {
            put_with(sink, graph, trace, b"overlap", place, acquire)
        }
        AuditRefusal::Missing(line) => put_missing(sink, graph, line),
        AuditRefusal::NoMemory => Ok(()),
    }
}
