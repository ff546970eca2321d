//! Lines that wait, for each column that they access, for the last line above that accesses it.

ghost use Rattle.std.specs.Prelude.{◌≡◌, ◌⊎◌, ℕ, ◌+◌, ◌<◌, ◌≤◌, length, IsTrue, IfOk, IfSome};
ghost use Rattle.graph_meaning.specs.Path.{HasPath};
ghost use Rattle.graph_meaning.specs.Rules.{Everywhere, RaceAt};
ghost use Rattle.race_pairs.specs.Last.{AreLast, IsFollowed, IsLed};
ghost use Rattle.race_pairs.specs.Races.{column_count};
ghost use Rattle.race_pairs.specs.Topmost.{NoneRaceBelow};

use crate::chained::waits_for;
use graph_meaning::line_laws::all_accesses_fit;
use graph_model::graph::Graph;
use graph_terms::limits::MAX_CALL_ACCESSES;
use index_spaces::NoMemory;
use index_spaces::room::filled;
use std::alloc::Global;

/// How many lines, from the first on, race with none above them, where none above `first` races: up to the first line
/// from that one on that doesn't wait, for some column, for the last line above that accesses it.
pub(crate) fn ordered_lines(alloc: Global, graph: &Graph, first: u32) -> Result<u32, NoMemory>
    requires above { (k : ℕ) → k < first → Everywhere (RaceAt graph.now k) }
    ensures begins { IfOk result (λ n. first ≤ n) }
    ensures free { IfOk result (NoneRaceBelow graph.now) }
{
    let lines = graph.lines();
    let mut last = filled(alloc, None, graph.all_columns() as usize)?;
    let mut line = first;
    while line < lines {
        if !follows(graph, &mut last, first, line) {
            return Ok(line);
        }
        line += 1;
    }
    Ok(line)
}

/// Whether a line waits for the last line that accesses each of its columns, which it then is.
fn follows(graph: &Graph, last: &mut Vec<Option<u32>>, first: u32, line: u32) -> bool
    requires line { line < length graph.now.lines }
    requires size { length last.old.items ≡ column_count graph.now }
    requires last { AreLast graph.now first line last.old.items }
    ensures size { length last.new.items ≡ column_count graph.now }
    ensures last { IsTrue result → AreLast graph.now first (line + 1) last.new.items }
    ensures led { IsTrue result → IsLed graph.now first line }
{
    all_accesses_fit();
    let _ = graph.lines();
    let _first = first;
    for k in 0..MAX_CALL_ACCESSES {
        let Some(access) = graph.any_access(line, k) else {
            return true;
        };
        if !follow(graph, last, line, access.column) {
            return false;
        }
    }
    true
}

/// Whether a line waits for the last line that accesses a column, which it then is.
fn follow(graph: &Graph, last: &mut Vec<Option<u32>>, line: u32, column: u32) -> bool
    requires line { line < length graph.now.lines }
    requires column { column < length last.old.items }
    ensures size { length last.new.items ≡ length last.old.items }
    ensures followed { IsTrue result → IsFollowed graph.now line column last.old.items last.new.items }
{
    let place = column as usize;
    if !waits_for_last(graph, line, last[place]) {
        return false;
    }
    last[place] = Some(line);
    true
}

/// Whether a line waits for a last one, where there is one, or is it.
fn waits_for_last(graph: &Graph, line: u32, last: Option<u32>) -> bool
    requires { line < length graph.now.lines }
    ensures { IsTrue result → IfSome last (λ m. (m ≡ line) ⊎ HasPath graph.now m line) }
{
    match last {
        Some(other) => is_behind(graph, line, other),
        None => true,
    }
}

/// Whether a line waits for another, or is it.
fn is_behind(graph: &Graph, line: u32, other: u32) -> bool
    requires { line < length graph.now.lines }
    ensures { IsTrue result → (other ≡ line) ⊎ HasPath graph.now other line }
{
    other == line || waits_for(graph, line, other)
}
