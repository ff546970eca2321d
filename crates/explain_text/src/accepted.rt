//! An accepted graph as text: its need, why lines wait, and why lines are cancelled.

ghost use Rattle.std.specs.Prelude.{◌≡◌, ◌<◌, ◌++◌, codes, length, Some, Contains, IfSome, OnOk};
ghost use Rattle.graph_terms.specs.Edges.{edges};
ghost use Rattle.explanations.specs.Reaches.{end_at};
ghost use Rattle.explain_graph.specs.Explanation.{AreEdges};
ghost use Rattle.explain_text.specs.Accepted.{AreByEdges, AreWayEdges, need_text, need_line_text, and_line, waiting_by, waiting_text, fault_word, cancelled_by, cancelled_text, each_text, way_text, ways_text};

use crate::lines::{put_by_number, put_edges, put_line, put_waits};
use crate::text::Text;
use crate::text_lines::Lines;
use crate::words::{cause_word, fault_word};
use explain_graph::{Way, cause_of};
use explanations::reaches::Reach;
use graph_model::graph::Graph;
use graph_terms::lists::EndList;
use graph_terms::outcome::End;
use graph_terms::verb::Edge;
use index_spaces::NoMemory;

/// Puts that a graph is accepted, with its need.
pub fn put_need(text: &mut Text, need: u32) -> Result<(), NoMemory>
    ensures { OnOk result (text.new ≡ text.old ++ need_text need) }
{
    text.put(b"accepted need ")?;
    text.put_number(u64::from(need))?;
    text.put(b"\n")
}

/// Puts the line at which the need is reached, where the graph has lines.
pub fn put_need_line(
    text: &mut Text,
    graph: &Graph,
    lines: &Lines,
    need: u32,
    line: Option<u32>,
) -> Result<(), NoMemory>
    ensures { OnOk result (text.new ≡ text.old ++ need_line_text graph.now lines.now need line) }
{
    let Some(line) = line else {
        return Ok(());
    };
    text.put(b"need ")?;
    text.put_number(u64::from(need))?;
    text.put(b", reached at ")?;
    put_by_number(text, graph, lines, line)?;
    put_line(text, graph, lines, line)
}

/// Puts why lines wait, a line of the text for each: that it never comes, or the next line on the way
/// back to one that never comes, and which that is.
pub fn put_waiting(
    text: &mut Text,
    graph: &Graph,
    lines: &Lines,
    reaches: &[Option<Reach>],
) -> Result<(), NoMemory>
    requires edges { AreByEdges graph.now reaches.now }
    requires few { length reaches.now ≡ length graph.now.lines }
    ensures { OnOk result (text.new ≡ text.old ++ each_text (waiting_text graph.now lines.now) 0 reaches.now) }
{
    for i in 0..graph.lines() {
        put_one_waiting(text, graph, lines, i, reaches[i as usize])?;
    }
    Ok(())
}

/// Puts why a line waits; nothing where it does not.
fn put_one_waiting(
    text: &mut Text,
    graph: &Graph,
    lines: &Lines,
    i: u32,
    reach: Option<Reach>,
) -> Result<(), NoMemory>
    requires { IfSome reach (λ m. IfSome m.by (Contains (edges graph.now))) }
    ensures { OnOk result (text.new ≡ text.old ++ waiting_text graph.now lines.now i reach) }
{
    match reach {
        Some(reach) => put_waiting_by(text, graph, lines, i, reach.start, reach.by),
        None => Ok(()),
    }
}

/// Puts why a line waits, by the edge by which it is reached and the line with which that begins.
fn put_waiting_by(
    text: &mut Text,
    graph: &Graph,
    lines: &Lines,
    i: u32,
    start: u32,
    by: Option<Edge>,
) -> Result<(), NoMemory>
    requires { IfSome by (Contains (edges graph.now)) }
    ensures { OnOk result (text.new ≡ text.old ++ waiting_by graph.now lines.now i start by) }
{
    match by {
        None => {
            put_by_number(text, graph, lines, i)?;
            text.put(b" never comes")?;
            put_line(text, graph, lines, i)
        }
        Some(edge) => {
            put_waits(text, graph, lines, edge)?;
            text.put(b", and ")?;
            put_by_number(text, graph, lines, start)?;
            text.put(b" never comes")?;
            put_line(text, graph, lines, i)
        }
    }
}

/// Puts why lines are cancelled, a line of the text for each: that a fault begins with it, or the
/// next line on the way back to one with which a fault begins, and which that is.
pub fn put_cancelled(
    text: &mut Text,
    graph: &Graph,
    lines: &Lines,
    ends: &EndList,
    reaches: &[Option<Reach>],
) -> Result<(), NoMemory>
    requires edges { AreByEdges graph.now reaches.now }
    requires few { length reaches.now ≡ length graph.now.lines }
    ensures { OnOk result (text.new ≡ text.old ++ each_text (cancelled_text graph.now lines.now ends.now) 0 reaches.now) }
{
    for i in 0..graph.lines() {
        put_one_cancelled(text, graph, lines, ends, i, reaches[i as usize])?;
    }
    Ok(())
}

/// Puts why a line is cancelled; nothing where it is not.
fn put_one_cancelled(
    text: &mut Text,
    graph: &Graph,
    lines: &Lines,
    ends: &EndList,
    i: u32,
    reach: Option<Reach>,
) -> Result<(), NoMemory>
    requires { IfSome reach (λ m. IfSome m.by (Contains (edges graph.now))) }
    ensures { OnOk result (text.new ≡ text.old ++ cancelled_text graph.now lines.now ends.now i reach) }
{
    match reach {
        Some(reach) => put_cancelled_by(text, graph, lines, ends, i, reach.start, reach.by),
        None => Ok(()),
    }
}

/// Puts why a line is cancelled, by the edge by which it is and the line with which that begins.
fn put_cancelled_by(
    text: &mut Text,
    graph: &Graph,
    lines: &Lines,
    ends: &EndList,
    i: u32,
    start: u32,
    by: Option<Edge>,
) -> Result<(), NoMemory>
    requires { IfSome by (Contains (edges graph.now)) }
    ensures { OnOk result (text.new ≡ text.old ++ cancelled_by graph.now lines.now ends.now i start by) }
{
    match by {
        None => {
            put_by_number(text, graph, lines, i)?;
            text.put(fault_word(end_at(ends, i)))?;
            put_line(text, graph, lines, i)
        }
        Some(edge) => {
            let cause = cause_of(graph, edge);
            put_by_number(text, graph, lines, i)?;
            text.put(b" is cancelled by ")?;
            put_by_number(text, graph, lines, edge.from)?;
            text.put(b" (")?;
            text.put(cause_word(cause))?;
            text.put(b"), and ")?;
            put_by_number(text, graph, lines, start)?;
            text.put(fault_word(end_at(ends, start)))?;
            put_line(text, graph, lines, i)
        }
    }
}

/// How a line ended.
fn end_at(ends: &EndList, line: u32) -> End
    ensures { result ≡ end_at ends.now line }
{
    match ends.items.as_slice().get(line as usize) {
        Some(end) => *end,
        None => End::Waiting,
    }
}

/// Puts whole ways.
pub fn put_ways(text: &mut Text, graph: &Graph, lines: &Lines, ways: &[Way]) -> Result<(), NoMemory>
    requires { AreWayEdges graph.now ways.now }
    ensures { OnOk result (text.new ≡ text.old ++ ways_text graph.now lines.now ways.now) }
{
    for way in ways {
        put_way(text, graph, lines, way)?;
    }
    Ok(())
}

/// Puts a whole way.
fn put_way(text: &mut Text, graph: &Graph, lines: &Lines, way: &Way) -> Result<(), NoMemory>
    requires { AreEdges graph.now way.now.path.items }
    ensures { OnOk result (text.new ≡ text.old ++ way_text graph.now lines.now way.now) }
{
    text.put(b"the way from ")?;
    put_by_number(text, graph, lines, way.start)?;
    text.put(b" to ")?;
    put_by_number(text, graph, lines, way.line)?;
    text.put(b":\n")?;
    put_edges(text, graph, lines, way.path.as_slice())
}
