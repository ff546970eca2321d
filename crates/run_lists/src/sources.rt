//! What the sources of a line say of it.

ghost use Rattle.std.specs.Prelude.{◌≡◌, ◌<◌, List, length, map, nat_lt, cond, Option, Some, None, MatchOption};
ghost use Rattle.std.specs.List.{list_any};
ghost use Rattle.graph_terms.specs.declared.verb.Edge.{Edge as TheEdge};
ghost use Rattle.graph_terms.specs.Edges.{edges_into};
ghost use Rattle.graph_meaning.specs.Evaluation.{cancels};
ghost use Rattle.run_state.specs.Run.{end_so_far, stage_at, stage_ended};
ghost use Rattle.run_lists.specs.Stages.{shown_stage};
ghost use Rattle.run_lists.specs.Sources.{HasSources, IsLeastLeft, lesser};

use graph_meaning::laws::edges_between_lines;
use graph_model::graph::Graph;
use graph_terms::outcome::End;
use line_effects::passing::cancels;
use run_parts::Progress;

/// The least source of a line that has not ended.
pub fn least_left(graph: &Graph, line: u32, stages: &[Progress]) -> Option<u32>
    requires known { line < length graph.now.lines }
    requires each { length stages.now ≡ length graph.now.lines }
    ensures { MatchOption result (HasSources graph.now (map shown_stage stages.now) line)
        (IsLeastLeft graph.now (map shown_stage stages.now) line) }
{
    edges_between_lines();
    let _ = graph.lines();
    let mut least = None;
    for edge in graph.edges_into(line) {
        if !has_ended(stages[edge.from as usize]) {
            least = Some(lesser(least, edge.from));
        }
    }
    least
}

/// Whether a line has ended.
fn has_ended(progress: Progress) -> bool
    ensures { result ≡ stage_ended (shown_stage progress) }
{
    match progress {
        Progress::Ended(_) => true,
        _ => false,
    }
}

/// The lesser of a number and another, where there is one.
fn lesser(one: Option<u32>, other: u32) -> u32
    ensures { result ≡ lesser one other }
{
    match one {
        Some(one) if one < other => one,
        _ => other,
    }
}

/// Whether an edge into a line cancels it, by the ends of its sources.
pub fn is_cancelled(graph: &Graph, line: u32, stages: &[Progress]) -> bool
    requires known { line < length graph.now.lines }
    requires each { length stages.now ≡ length graph.now.lines }
    ensures { result ≡ list_any (λ (e : TheEdge). cancels e.kind (end_so_far (stage_at (map shown_stage stages.now) e.from)))
        (edges_into graph.now line) }
{
    edges_between_lines();
    let _ = graph.lines();
    for edge in graph.edges_into(line) {
        if cancels(edge.kind, end_of(stages[edge.from as usize])) {
            return true;
        }
    }
    false
}

/// The end of a line, which is Waiting until it has ended.
pub fn end_of(progress: Progress) -> End
    ensures { result ≡ end_so_far (shown_stage progress) }
{
    match progress {
        Progress::Ended(end) => end,
        _ => End::Waiting,
    }
}
