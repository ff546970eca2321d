//! The text of a timeline: a line for each line of the graph with its slot, the critical chain and the
//! length of the plan.

ghost use Rattle.std.specs.Prelude.{◌≡◌, ℕ, ◌<◌, length, Some, slice_get};
ghost use Rattle.realm_io.specs.Written.{Writes};
ghost use Rattle.realm_timeline.specs.Plan.{slot_at};
ghost use Rattle.realm_timeline.specs.Text.{number_text, slot_text, op_text, op_texts, name_text, name_texts, length_text, critical_text, timeline_text};

use crate::slot::Slot;
use crate::timeline::Timeline;
use graph_model::graph::Graph;
use graph_terms::lists::LineList;
use graph_terms::verb::Line;
use realm_io::{Sink, WriteFault, put_bytes, put_decimal};

/// Writes the text of a timeline of the graph: `timeline 1`; for each line of the graph
/// `op NAME PROCESSOR START FINISH`, or `op NAME -` where it has no slot; `critical COST` and the
/// names of the critical chain; `length LENGTH`; `done`. It takes no memory.
///
/// `WriteFault`: a fault of the sink was counted, and a prefix of the text was taken.
pub fn put_timeline<K: Sink>(
    sink: &mut K,
    graph: &Graph,
    timeline: &Timeline,
) -> Result<(), WriteFault>
    requires plan { length timeline.now.plan ≡ length graph.now.lines }
    requires critical { (k i : ℕ) → slice_get timeline.now.critical k ≡ Some i → i < length graph.now.lines }
    ensures { Writes (K.state sink.old) (K.state sink.new) result (timeline_text graph.now timeline.now) }
{
    put_bytes(sink, b"timeline 1\n")?;
    put_ops(sink, graph, timeline)?;
    put_critical(sink, graph, timeline)
}

/// Writes the cost and the names of the critical chain, and what follows it.
fn put_critical<K: Sink>(sink: &mut K, graph: &Graph, timeline: &Timeline) -> Result<(), WriteFault>
    requires { (k i : ℕ) → slice_get timeline.now.critical k ≡ Some i → i < length graph.now.lines }
    ensures { Writes (K.state sink.old) (K.state sink.new) result (critical_text graph.now timeline.now) }
{
    put_bytes(sink, b"critical ")?;
    put_decimal(sink, timeline.critical_cost())?;
    put_names(sink, graph, timeline.critical())?;
    put_length(sink, timeline.length())
}

/// Writes the length, and the end.
fn put_length<K: Sink>(sink: &mut K, length: u64) -> Result<(), WriteFault>
    ensures { Writes (K.state sink.old) (K.state sink.new) result (length_text length) }
{
    put_bytes(sink, b"\nlength ")?;
    put_decimal(sink, length)?;
    put_bytes(sink, b"\ndone\n")
}

/// Writes the slot of each line.
fn put_ops<K: Sink>(sink: &mut K, graph: &Graph, timeline: &Timeline) -> Result<(), WriteFault>
    requires { length timeline.now.plan ≡ length graph.now.lines }
    ensures { Writes (K.state sink.old) (K.state sink.new) result (op_texts timeline.now.plan 0 graph.now.lines) }
{
    for i in 0..graph.lines() {
        put_op(sink, graph.line(i), timeline.planned(i))?;
    }
    Ok(())
}

/// Writes the slot of a line.
fn put_op<K: Sink>(sink: &mut K, line: &Line, slot: Option<Slot>) -> Result<(), WriteFault>
    ensures { Writes (K.state sink.old) (K.state sink.new) result (op_text line.now.name slot) }
{
    put_bytes(sink, b"op ")?;
    put_bytes(sink, line.name.bytes())?;
    put_slot(sink, slot)
}

/// Writes the numbers of a slot, or a dash for none.
fn put_slot<K: Sink>(sink: &mut K, slot: Option<Slot>) -> Result<(), WriteFault>
    ensures { Writes (K.state sink.old) (K.state sink.new) result (slot_text slot) }
{
    match slot {
        Some(slot) => put_times(sink, slot),
        None => put_bytes(sink, b" -\n"),
    }
}

/// Writes the numbers of a slot.
fn put_times<K: Sink>(sink: &mut K, slot: Slot) -> Result<(), WriteFault>
    ensures { Writes (K.state sink.old) (K.state sink.new) result (slot_text (Some slot)) }
{
    put_spaced(sink, u64::from(slot.processor))?;
    put_spaced(sink, slot.start)?;
    put_spaced(sink, slot.finish)?;
    put_bytes(sink, b"\n")
}

/// Writes a number behind a space.
fn put_spaced<K: Sink>(sink: &mut K, n: u64) -> Result<(), WriteFault>
    ensures { Writes (K.state sink.old) (K.state sink.new) result (number_text n) }
{
    put_bytes(sink, b" ")?;
    put_decimal(sink, n)
}

/// Writes the names of lines.
fn put_names<K: Sink>(sink: &mut K, graph: &Graph, lines: &LineList) -> Result<(), WriteFault>
    requires { (k i : ℕ) → slice_get lines.now k ≡ Some i → i < length graph.now.lines }
    ensures { Writes (K.state sink.old) (K.state sink.new) result (name_texts graph.now lines.now) }
{
    for k in 0..lines.len() {
        put_name(sink, graph.line(lines.at(k)))?;
    }
    Ok(())
}

/// Writes the name of a line.
fn put_name<K: Sink>(sink: &mut K, line: &Line) -> Result<(), WriteFault>
    ensures { Writes (K.state sink.old) (K.state sink.new) result (name_text line.now.name) }
{
    put_bytes(sink, b" ")?;
    put_bytes(sink, line.name.bytes())
}
