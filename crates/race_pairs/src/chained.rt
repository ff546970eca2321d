//! Lines each of which waits for the one above it.

ghost use Rattle.std.specs.Prelude.{◌≡◌, ℕ, ◌<◌, ◌≤◌, length, IsTrue};
ghost use Rattle.graph_meaning.specs.Path.{HasPath};
ghost use Rattle.graph_meaning.specs.Rules.{Everywhere, RaceAt};
ghost use Rattle.race_pairs.specs.Topmost.{NoneRaceBelow};

use graph_model::graph::Graph;

/// How many lines, from the first on, race with none above them, where none above `first` races: up to
/// the first line behind it that does not wait for the one above itself.
pub(crate) fn chained_lines(graph: &Graph, first: u32) -> u32
    requires above { (k : ℕ) → k < first → Everywhere (RaceAt graph.now k) }
    ensures begins { first ≤ result }
    ensures free { NoneRaceBelow graph.now result }
{
    let lines = graph.lines();
    let mut line = first;
    while line < lines {
        if line > first && !waits_for(graph, line, line - 1) {
            return line;
        }
        line += 1;
    }
    line
}

/// Whether a line waits for another by an edge.
pub(crate) fn waits_for(graph: &Graph, line: u32, other: u32) -> bool
    requires { line < length graph.now.lines }
    ensures { IsTrue result → HasPath graph.now other line }
{
    let edges = graph.edges_into(line);
    for edge in edges {
        if edge.from == other {
            return true;
        }
    }
    false
}
