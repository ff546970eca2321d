//! The text of a trace: the lines of a graph in the order in which they ended.

ghost use Rattle.std.specs.Prelude.{◌≡◌, ℕ, ◌<◌, length, Some, slice_get};
ghost use Rattle.realm_io.specs.Written.{Writes};
ghost use Rattle.realm_audit.specs.Text.{at_text, at_texts, trace_text};

use graph_model::graph::Graph;
use graph_terms::lists::LineList;
use graph_terms::verb::Line;
use realm_io::{Sink, WriteFault, put_bytes};

/// Writes the text of a trace of the graph. It takes no memory.
///
/// `WriteFault`: a fault of the sink was counted, and a prefix of the text was taken.
pub fn put_trace<K: Sink>(sink: &mut K, graph: &Graph, trace: &LineList) -> Result<(), WriteFault>
    requires lines { (k i : ℕ) → slice_get trace.now k ≡ Some i → i < length graph.now.lines }
    ensures { Writes (K.state sink.old) (K.state sink.new) result (trace_text graph.now trace.now) }
{
    put_bytes(sink, b"realm-trace 1\n")?;
    put_items(sink, graph, trace)?;
    put_bytes(sink, b"done\n")
}

/// Writes the lines of the items.
fn put_items<K: Sink>(sink: &mut K, graph: &Graph, trace: &LineList) -> Result<(), WriteFault>
    requires lines { (k i : ℕ) → slice_get trace.now k ≡ Some i → i < length graph.now.lines }
    ensures { Writes (K.state sink.old) (K.state sink.new) result (at_texts graph.now trace.now) }
{
    for k in 0..trace.len() {
        put_item(sink, graph.line(trace.at(k)))?;
    }
    Ok(())
}

/// Writes that a line has ended.
fn put_item<K: Sink>(sink: &mut K, line: &Line) -> Result<(), WriteFault>
    ensures { Writes (K.state sink.old) (K.state sink.new) result (at_text line.now.name) }
{
    put_bytes(sink, b"at ")?;
    put_bytes(sink, line.name.bytes())?;
    put_bytes(sink, b"\n")
}
