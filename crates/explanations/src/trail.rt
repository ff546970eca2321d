//! Ways back to a start of a search, by the counts that it left.

ghost use Rattle.std.specs.Prelude.{◌≡◌, ℕ, ◌+◌, ◌<◌, ◌==◌, ◌++◌, ◌∷◌, [], List, filter, length, Contains, slice_index, IfOk, IfSome, MatchOption};
ghost use Rattle.graph_terms.specs.declared.verb.Edge.{Edge};
ghost use Rattle.graph_terms.specs.Edges.{edges};
ghost use Rattle.explanations.specs.Search.{near_end, far_end, AreCounts, IsNearest, IsTrail};

use crate::search::{Way, near_end};
use graph_meaning::laws::edges_between_lines;
use graph_model::graph::Graph;
use graph_terms::verb::Edge;
use index_spaces::NoMemory;
use index_spaces::room::push;
use std::alloc::Global;

/// The edges from a line back to a start, against the way of the search: one or more, and as few
/// as can be. `None` exactly where no edge leads back to a line that counts.
pub(crate) fn trail(
    alloc: Global,
    graph: &Graph,
    way: Way,
    counts: &[u32],
    line: u32,
) -> Result<Option<Vec<Edge>>, NoMemory>
    requires known { line < length graph.now.lines }
    requires size { length counts.now ≡ length graph.now.lines }
    requires counts { (starts : List ℕ) × AreCounts (edges graph.now) (near_end way) (far_end way) (Contains starts) (slice_index counts.now) }
    ensures { IfOk result (λ o. MatchOption o
        ((e : Edge) → Contains (edges graph.now) e → far_end way e ≡ line → slice_index counts.now (near_end way e) ≡ 0)
        (λ p. IsTrail (edges graph.now) (near_end way) (far_end way) (slice_index counts.now) line p.items)) }
{
    edges_between_lines();
    let _ = graph.lines();
    let Some(first) = nearest_edge(graph, way, counts, line) else {
        return Ok(None);
    };
    let mut edges = Vec::new(alloc);
    push(&mut edges, first)?;
    let mut at = near_end(way, first);
    while counts[at as usize] > 1 {
        let edge = found_by(graph, way, counts, at);
        push(&mut edges, edge)?;
        at = near_end(way, edge);
    }
    Ok(Some(edges))
}

/// The edge by which a line that is no start was found.
fn found_by(graph: &Graph, way: Way, counts: &[u32], line: u32) -> Edge
    requires known { line < length graph.now.lines }
    requires size { length counts.now ≡ length graph.now.lines }
    requires counts { (starts : List ℕ) × AreCounts (edges graph.now) (near_end way) (far_end way) (Contains starts) (slice_index counts.now) }
    requires found { 1 < slice_index counts.now line }
    ensures edge { Contains (edges graph.now) result }
    ensures leads { far_end way result ≡ line }
    ensures found { 0 < slice_index counts.now (near_end way result) }
    ensures one_less { slice_index counts.now line ≡ slice_index counts.now (near_end way result) + 1 }
{
    match nearest_edge(graph, way, counts, line) {
        Some(edge) => edge,
        None => unreachable!(),
    }
}

/// Of the edges that lead back from a line, the first of those that lead to the least count.
fn nearest_edge(graph: &Graph, way: Way, counts: &[u32], line: u32) -> Option<Edge>
    requires known { line < length graph.now.lines }
    requires size { length counts.now ≡ length graph.now.lines }
    ensures { IsNearest (near_end way) (slice_index counts.now) (filter (λ e. far_end way e == line) (edges graph.now)) result }
{
    edges_between_lines();
    let _ = graph.lines();
    let edges = edges_back(graph, way, line);
    let mut best = None;
    for edge in edges {
        best = nearer(way, counts, best, *edge);
    }
    best
}

/// The edges by which a search comes to a line.
fn edges_back(graph: &Graph, way: Way, line: u32) -> &[Edge]
    requires { line < length graph.now.lines }
    ensures { result.now ≡ filter (λ e. far_end way e == line) (edges graph.now) }
{
    match way {
        Way::Onward | Way::Faults => graph.edges_into(line),
        Way::Back => graph.edges_from(line),
    }
}

/// This edge in place of the best so far, where it counts and the other does not, or more.
fn nearer(way: Way, counts: &[u32], best: Option<Edge>, edge: Edge) -> Option<Edge>
    requires edge { near_end way edge < length counts.now }
    requires best { IfSome best (λ b. near_end way b < length counts.now) }
    ensures { (es : List Edge) → IsNearest (near_end way) (slice_index counts.now) es best
        → IsNearest (near_end way) (slice_index counts.now) (es ++ edge ∷ []) result }
{
    let near = near_end(way, edge);
    let count = counts[near as usize];
    if count == 0 {
        return best;
    }
    let Some(other) = best else {
        return Some(edge);
    };
    let other_near = near_end(way, other);
    if counts[other_near as usize] <= count {
        best
    } else {
        Some(edge)
    }
}
