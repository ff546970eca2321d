//! Lines of a graph's text with their numbers, and why they wait.

ghost use Rattle.std.specs.Prelude.{◌≡◌, ◌<◌, ◌≤◌, ◌++◌, nat_lt, length, Contains, codes, OnOk};
ghost use Rattle.graph_terms.specs.Edges.{edges};
ghost use Rattle.graph_terms.specs.Spelling.{line_name};
ghost use Rattle.explain_graph.specs.Explanation.{AreEdges};
ghost use Rattle.explain_text.specs.Shown.{shown};
ghost use Rattle.explain_text.specs.Lines.{line_number, line_of, by_number, numbered, waits_for, edge_text, all_edges_text, ends_text, edges_text};

use crate::bounds::{HALF_PATH, MAX_PATH};
use crate::split::piece;
use crate::text::Text;
use crate::text_lines::Lines;
use crate::words::cause_word;
use explain_graph::cause_of;
use graph_model::graph::Graph;
use graph_terms::verb::Edge;
use index_spaces::NoMemory;

/// Puts `line` and the number of a line.
pub fn put_by_number(text: &mut Text, graph: &Graph, lines: &Lines, i: u32) -> Result<(), NoMemory>
    ensures { OnOk result (text.new ≡ text.old ++ by_number graph.now lines.now i) }
{
    text.put(b"line ")?;
    text.put_number(line_number(graph, lines, i))
}

/// The number of an operation's line in the text.
fn line_number(graph: &Graph, lines: &Lines, i: u32) -> u64
    ensures { result ≡ line_number graph.now lines.now i }
{
    lines.whole_number(u64::from(i) + u64::from(graph.decls()) + 2)
}

/// Whether an operation's line is one of these lines, and not the last of them.
pub fn is_above_last(graph: &Graph, lines: &Lines, i: u32) -> bool
    ensures { result ≡ nat_lt (line_number graph.now lines.now i) (length lines.now.lines) }
{
    line_number(graph, lines, i) < lines.pieces().len() as u64
}

/// A line of the text that was read.
fn line_of<'a>(graph: &Graph, lines: &Lines<'a>, i: u32) -> &'a [u8]
    ensures { result.now ≡ line_of graph.now lines.now i }
{
    let place = line_number(graph, lines, i).saturating_sub(1);
    piece(lines.pieces(), place as usize)
}

/// Puts a line behind a colon, as it is told.
pub(crate) fn put_line(
    text: &mut Text,
    graph: &Graph,
    lines: &Lines,
    i: u32,
) -> Result<(), NoMemory>
    ensures { OnOk result (text.new ≡ text.old ++ (codes ": " ++ (shown (line_of graph.now lines.now i) ++ codes "\n"))) }
{
    text.put(b": ")?;
    text.put_shown(line_of(graph, lines, i))?;
    text.put(b"\n")
}

/// Puts a line with its number.
pub fn put_numbered(text: &mut Text, graph: &Graph, lines: &Lines, i: u32) -> Result<(), NoMemory>
    ensures { OnOk result (text.new ≡ text.old ++ numbered graph.now lines.now i) }
{
    put_by_number(text, graph, lines, i)?;
    put_line(text, graph, lines, i)
}

/// Puts for which line another waits, and why.
pub(crate) fn put_waits(
    text: &mut Text,
    graph: &Graph,
    lines: &Lines,
    edge: Edge,
) -> Result<(), NoMemory>
    requires { Contains (edges graph.now) edge }
    ensures { OnOk result (text.new ≡ text.old ++ waits_for graph.now lines.now edge) }
{
    let cause = cause_of(graph, edge);
    put_by_number(text, graph, lines, edge.to)?;
    text.put(b" waits for ")?;
    put_by_number(text, graph, lines, edge.from)?;
    text.put(b" (")?;
    text.put(cause_word(cause))?;
    text.put(b")")
}

/// Puts the same with the line that waits, as it is told for the name of the other.
fn put_edge(text: &mut Text, graph: &Graph, lines: &Lines, edge: Edge) -> Result<(), NoMemory>
    requires { Contains (edges graph.now) edge }
    ensures { OnOk result (text.new ≡ text.old ++ edge_text graph.now lines.now edge) }
{
    put_waits(text, graph, lines, edge)?;
    text.put(b": ")?;
    text.put_shown_for(name_of(graph, edge.from), line_of(graph, lines, edge.to))?;
    text.put(b"\n")
}

/// The name of a line; none where there is no such line.
fn name_of(graph: &Graph, i: u32) -> &[u8]
    ensures { result.now ≡ line_name graph.now i }
{
    if i >= graph.lines() {
        return b"";
    }
    graph.line(i).name.bytes()
}

/// Puts edges, one after the other.
fn put_all_edges(
    text: &mut Text,
    graph: &Graph,
    lines: &Lines,
    path: &[Edge],
) -> Result<(), NoMemory>
    requires { AreEdges graph.now path.now }
    ensures { OnOk result (text.new ≡ text.old ++ all_edges_text graph.now lines.now path.now) }
{
    for edge in path {
        put_edge(text, graph, lines, *edge)?;
    }
    Ok(())
}

/// Puts the edges of a path, one after the other; of a long one both ends, and how many lie between.
pub fn put_edges(
    text: &mut Text,
    graph: &Graph,
    lines: &Lines,
    path: &[Edge],
) -> Result<(), NoMemory>
    requires { AreEdges graph.now path.now }
    ensures { OnOk result (text.new ≡ text.old ++ edges_text graph.now lines.now path.now) }
{
    if lines.is_cut(MAX_PATH, path.len()) {
        return put_ends(text, graph, lines, path);
    }
    put_all_edges(text, graph, lines, path)
}

/// Puts both ends of a long path, and how many edges lie between.
fn put_ends(text: &mut Text, graph: &Graph, lines: &Lines, path: &[Edge]) -> Result<(), NoMemory>
    requires edges { AreEdges graph.now path.now }
    requires long { MAX_PATH < length path.now }
    ensures { OnOk result (text.new ≡ text.old ++ ends_text graph.now lines.now path.now) }
{
    put_all_edges(text, graph, lines, &path[..HALF_PATH])?;
    text.put_more(path.len() - MAX_PATH)?;
    put_all_edges(text, graph, lines, &path[path.len() - HALF_PATH..])
}
