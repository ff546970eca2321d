//! Names of lines, lines with their numbers, and what lines are on.

ghost use Rattle.std.specs.Prelude.{◌≡◌, ◌++◌, flat_map, OnOk};
ghost use Rattle.graph_terms.specs.Spelling.{line_name};
ghost use Rattle.refusal_text.specs.Refused.{further_name, lines_text, on_of};

use explain_text::lines::put_numbered;
use explain_text::{Lines, Text};
use graph_model::graph::Graph;
use index_spaces::NoMemory;

/// Puts the name of a line; none where there is no such line.
pub(crate) fn put_name(text: &mut Text, graph: &Graph, i: u32) -> Result<(), NoMemory>
    ensures { OnOk result (text.new ≡ text.old ++ line_name graph.now i) }
{
    if i >= graph.lines() {
        return Ok(());
    }
    text.put(graph.line(i).name.bytes())
}

/// Puts the names of lines, each behind a space.
pub(crate) fn put_names(text: &mut Text, graph: &Graph, lines: &[u32]) -> Result<(), NoMemory>
    ensures { OnOk result (text.new ≡ text.old ++ flat_map (further_name graph.now) lines.now) }
{
    for i in lines {
        put_further_name(text, graph, *i)?;
    }
    Ok(())
}

/// Puts a space and the name of a line.
fn put_further_name(text: &mut Text, graph: &Graph, i: u32) -> Result<(), NoMemory>
    ensures { OnOk result (text.new ≡ text.old ++ further_name graph.now i) }
{
    text.put(b" ")?;
    put_name(text, graph, i)
}

/// Puts lines, one after the other.
pub(crate) fn put_lines(
    text: &mut Text,
    graph: &Graph,
    lines: &Lines,
    numbers: &[u32],
) -> Result<(), NoMemory>
    ensures { OnOk result (text.new ≡ text.old ++ lines_text graph.now lines.now numbers.now) }
{
    for i in numbers {
        put_numbered(text, graph, lines, *i)?;
    }
    Ok(())
}

/// The events behind the `on` of a line. None also where there is no such line.
pub(crate) fn on_of(graph: &Graph, line: u32) -> &[u32]
    ensures { result.now ≡ on_of graph.now line }
{
    if line >= graph.lines() {
        return &[];
    }
    graph.line(line).on.as_slice()
}
