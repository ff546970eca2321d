//! Lines that access points which no line above them does.

ghost use Rattle.std.specs.Prelude.{◌≡◌, ◌<◌, ◌≤◌, ◌+◌, length, IsTrue, IfOk, IfSome};
ghost use Rattle.graph_terms.specs.Graph.{named_spaces};
ghost use Rattle.graph_meaning.specs.Rules.{EverywhereTwice, RaceAt};
ghost use Rattle.race_pairs.specs.Races.{column_count};
ghost use Rattle.race_pairs.specs.Fresh.{AreBetween, AreEnds, IsFresh, IsMoved};

use graph_meaning::laws::edges_between_lines;
use graph_meaning::line_laws::all_accesses_fit;
use graph_model::graph::Graph;
use graph_terms::limits::MAX_CALL_ACCESSES;
use graph_terms::verb::Access;
use index_spaces::NoMemory;
use index_spaces::room::filled;
use std::alloc::Global;

/// Whether each access begins behind all points that those above it have of its column: then no lines conflict.
pub(crate) fn all_fresh(alloc: Global, graph: &Graph) -> Result<bool, NoMemory>
    ensures { IfOk result (λ b. IsTrue b → EverywhereTwice (RaceAt graph.now)) }
{
    edges_between_lines();
    let mut ends = filled(alloc, 0, graph.all_columns() as usize)?;
    for line in 0..graph.lines() {
        if !is_fresh(graph, &mut ends, line) {
            return Ok(false);
        }
    }
    Ok(true)
}

/// Whether the accesses of a line begin behind the ends of their columns, which move on to theirs.
fn is_fresh(graph: &Graph, ends: &mut Vec<u64>, line: u32) -> bool
    requires line { line < length graph.now.lines }
    requires size { length ends.old.items ≡ column_count graph.now }
    requires ends { AreEnds graph.now ends.old.items line }
    ensures size { length ends.new.items ≡ column_count graph.now }
    ensures ends { IsTrue result → AreEnds graph.now ends.new.items (line + 1) }
    ensures fresh { IsTrue result → IsFresh graph.now line }
{
    all_accesses_fit();
    let _ = graph.lines();
    for k in 0..MAX_CALL_ACCESSES {
        let Some(access) = graph.any_access(line, k) else {
            return true;
        };
        if !move_end(graph, ends, access) {
            return false;
        }
    }
    true
}

/// Whether an access begins behind the end of its column, which moves on to its own.
fn move_end(graph: &Graph, ends: &mut Vec<u64>, access: Access) -> bool
    requires space { access.space < length (named_spaces graph.now) }
    requires column { access.column < length ends.old.items }
    ensures size { length ends.new.items ≡ length ends.old.items }
    ensures moved { IsTrue result → IsMoved graph.now access ends.old.items ends.new.items }
{
    let column = access.column as usize;
    let space = graph.space(access.space);
    match end_behind(space.intervals(), ends[column]) {
        Some(end) => {
            ends[column] = end;
            true
        }
        None => false,
    }
}

/// The end of intervals that begin behind an end, one after the other. `None` where one of them does not.
fn end_behind(intervals: &[(u32, u32)], start: u64) -> Option<u64>
    ensures { IfSome result (λ end. (start ≤ end) × AreBetween intervals.now start end) }
{
    let mut end = start;
    for interval in intervals {
        if u64::from(interval.0) < end {
            return None;
        }
        end = end.max(u64::from(interval.1) + 1);
    }
    Some(end)
}
