//! How lines are reached from those that never come, or from those that begin a fault.

ghost use Rattle.std.specs.Prelude.{◌≡◌, ◌≢◌, ℕ, ◌<◌, ◌↔◌, List, map, length, slice_index, Contains, Some, None, IsTrue, IsSome, IfOk};
ghost use Rattle.std.specs.List.{list_any};
ghost use Rattle.std.specs.Option.{option_and_then};
ghost use Rattle.basics.specs.Lists.{numbers_below};
ghost use Rattle.graph_terms.specs.declared.verb.Edge.{Edge};
ghost use Rattle.graph_terms.specs.declared.outcome.End.{End};
ghost use Rattle.graph_terms.specs.Edges.{edges};
ghost use Rattle.graph_meaning.specs.Evaluation.{eval_end};
ghost use Rattle.graph_meaning.specs.Path.{Reached};
ghost use Rattle.explanations.specs.Paths.{Leads};
ghost use Rattle.explanations.specs.Reaches.{reach_at, end_at, IsReached, AreLinked, IsNever, IsFault, fault_edges, begins_fault, is_faulting};
ghost use Rattle.explanations.specs.Search.{origin_at, reach_of, way_edges, is_start};
ghost use Rattle.explanations.specs.declared.reaches.Reach.{Reach};
ghost use Rattle.explanations.specs.declared.search.Way.{Way};

use crate::search::{Origin, Tree, Way, end_at, search_from};
use graph_meaning::laws::{cancelled_where_unbroken, edges_between_lines, order_lists_ended};
use graph_model::graph::Graph;
use graph_terms::lists::EndList;
use graph_terms::outcome::End;
use graph_terms::verb::{Edge, EdgeKind};
use index_spaces::NoMemory;
use index_spaces::room::push;
use std::alloc::Global;

/// How a line is reached from the nearest of some lines.
#[derive(Clone, Copy, Debug, PartialEq, Eq)]
pub struct Reach {
    /// Which of these lines is the nearest.
    pub start: u32,
    /// How many edges lead from there to the line.
    pub steps: u32,
    /// The last of these edges: it comes from the next line on the way back. `None` where the line
    /// is the start.
    pub by: Option<Edge>,
}

/// Why lines wait: how each is reached from the nearest line that never comes. `None` exactly where
/// no such line reaches it. It is one search over all edges.
pub fn waiting_lines(alloc: Global, graph: &Graph) -> Result<Vec<Option<Reach>>, NoMemory>
    ensures size { IfOk result (λ v. length v.items ≡ length graph.now.lines) }
    ensures reached { IfOk result (λ v. (i : ℕ) (m : Reach) → reach_at v.items i ≡ Some m → IsReached (edges graph.now) (IsNever graph.now) i m) }
    ensures linked { IfOk result (λ v. AreLinked (edges graph.now) v.items) }
    ensures exact { IfOk result (λ v. (i : ℕ) → i < length graph.now.lines → IsSome (reach_at v.items i) ↔ Reached graph.now i) }
{
    edges_between_lines();
    let _ = graph.lines();
    let reaches = reach_onward(alloc, graph, Way::Onward, &[])?;
    Ok(reaches)
}

/// Why lines are cancelled: how each is reached from the nearest line that begins a fault, along
/// edges that cancel. A line was cancelled exactly where it is reached by an edge. It is one search
/// over all edges.
pub fn cancelled_lines(
    alloc: Global,
    graph: &Graph,
    ends: &EndList,
) -> Result<Vec<Option<Reach>>, NoMemory>
    requires { ends.now ≡ map (eval_end graph.now) (numbers_below (length graph.now.lines)) }
    ensures size { IfOk result (λ v. length v.items ≡ length graph.now.lines) }
    ensures reached { IfOk result (λ v. (i : ℕ) (m : Reach) → reach_at v.items i ≡ Some m
        → IsReached (fault_edges graph.now ends.now) (IsFault graph.now ends.now) i m) }
    ensures linked { IfOk result (λ v. AreLinked (fault_edges graph.now ends.now) v.items) }
    ensures exact { IfOk result (λ v. (i : ℕ) → i < length graph.now.lines
        → (eval_end graph.now i ≡ End.Cancelled) ↔ ((m : Reach) × (reach_at v.items i ≡ Some m) × (m.by ≢ None))) }
{
    cancelled_where_unbroken();
    order_lists_ended();
    edges_between_lines();
    let _ = graph.lines();
    let reaches = reach_onward(alloc, graph, Way::Faults, ends.items.as_slice())?;
    Ok(reaches)
}

/// The edges of the way to a line, from its start on; none where the line is not reached.
pub fn path_to(alloc: Global, reaches: &[Option<Reach>], line: u32) -> Result<Vec<Edge>, NoMemory>
    requires { (all : List Edge) × AreLinked all reaches.now }
    ensures { IfOk result (λ p. (all : List Edge) (m : Reach) → AreLinked all reaches.now → reach_at reaches.now line ≡ Some m
        → Leads all m.start line p.items × (length p.items ≡ m.steps)) }
{
    let mut edges = Vec::new(alloc);
    let mut at = line;
    while let Some(edge) = edge_to(reaches, at) {
        push(&mut edges, edge)?;
        at = edge.from;
    }
    edges.reverse();
    Ok(edges)
}

/// How a line is reached. `None` also where there is no such line.
pub fn reach_at(reaches: &[Option<Reach>], line: u32) -> Option<Reach>
    ensures { result ≡ reach_at reaches.now line }
{
    match reaches.get(line as usize) {
        Some(reach) => *reach,
        None => None,
    }
}

/// The last edge of the way to a line.
fn edge_to(reaches: &[Option<Reach>], line: u32) -> Option<Edge>
    ensures { result ≡ option_and_then (λ (m : Reach). m.by) (reach_at reaches.now line) }
{
    match reach_at(reaches, line) {
        Some(reach) => reach.by,
        None => None,
    }
}

/// How each line is reached, by a search that goes onward.
fn reach_onward(
    alloc: Global,
    graph: &Graph,
    way: Way,
    ends: &[End],
) -> Result<Vec<Option<Reach>>, NoMemory>
    requires { way ≢ Way.Back }
    ensures size { IfOk result (λ v. length v.items ≡ length graph.now.lines) }
    ensures reached { IfOk result (λ v. (i : ℕ) (m : Reach) → reach_at v.items i ≡ Some m
        → IsReached (way_edges way ends.now (edges graph.now)) (λ k. IsTrue (is_start way graph.now ends.now k)) i m) }
    ensures linked { IfOk result (λ v. AreLinked (way_edges way ends.now (edges graph.now)) v.items) }
    ensures complete { IfOk result (λ v. (k i : ℕ) (p : List Edge) → k < length graph.now.lines → IsTrue (is_start way graph.now ends.now k)
        → Leads (way_edges way ends.now (edges graph.now)) k i p → IsSome (reach_at v.items i)) }
{
    edges_between_lines();
    let _ = graph.lines();
    let starts = starts(alloc, graph, way, ends)?;
    let tree = search_from(alloc, graph, way, ends, starts.as_slice())?;
    let reaches = reach_all(alloc, &tree)?;
    Ok(reaches)
}

/// The lines with which a search of this way begins.
fn starts(alloc: Global, graph: &Graph, way: Way, ends: &[End]) -> Result<Vec<u32>, NoMemory>
    ensures listed { IfOk result (λ v. (i : ℕ) → Contains v.items i → (i < length graph.now.lines) × IsTrue (is_start way graph.now ends.now i)) }
    ensures all { IfOk result (λ v. (i : ℕ) → i < length graph.now.lines → IsTrue (is_start way graph.now ends.now i) → Contains v.items i) }
{
    let mut starts = Vec::new(alloc);
    for line in 0..graph.lines() {
        if is_start(graph, way, ends, line) {
            push(&mut starts, line)?;
        }
    }
    Ok(starts)
}

fn is_start(graph: &Graph, way: Way, ends: &[End], line: u32) -> bool
    requires { line < length graph.now.lines }
    ensures { result ≡ is_start way graph.now ends.now line }
{
    match way {
        Way::Onward => graph.never_comes(line),
        Way::Faults => begins_fault(graph, end_at(ends, line), line),
        Way::Back => false,
    }
}

/// Whether a line that ended so begins a fault: it faulted, or it is done and cancels an event.
fn begins_fault(graph: &Graph, end: End, line: u32) -> bool
    requires { line < length graph.now.lines }
    ensures { result ≡ begins_fault graph.now end line }
{
    match end {
        End::Faulted => true,
        End::Done => has_faulting(graph.edges_from(line)),
        End::Cancelled | End::Waiting => false,
    }
}

fn has_faulting(edges: &[Edge]) -> bool
    ensures { result ≡ list_any (λ (e : Edge). is_faulting e.kind) edges.now }
{
    edges.iter().any(|edge| edge.kind == EdgeKind::Faults)
}

/// How each line is reached, by what a search has left.
fn reach_all(alloc: Global, tree: &Tree) -> Result<Vec<Option<Reach>>, NoMemory>
    requires { length tree.now.origins.items ≡ length tree.now.counts.items }
    ensures size { IfOk result (λ v. length v.items ≡ length tree.now.counts.items) }
    ensures each { IfOk result (λ v. (i : ℕ) → reach_at v.items i ≡ reach_of (slice_index tree.now.counts.items i) (origin_at tree.now.origins.items i)) }
{
    let mut reaches = Vec::new(alloc);
    for (i, count) in tree.counts.as_slice().iter().enumerate() {
        let origin = tree.origins[i];
        push(&mut reaches, reach_of(*count, origin))?;
    }
    Ok(reaches)
}

fn reach_of(count: u32, origin: Origin) -> Option<Reach>
    ensures { result ≡ reach_of count origin }
{
    if count == 0 {
        return None;
    }
    Some(Reach {
        start: origin.start,
        steps: count - 1,
        by: origin.by,
    })
}
