//! Shortest paths and cycles.

ghost use Rattle.std.specs.Prelude.{◌≡◌, ◌<◌, length, None, IfOk, IfSome};
ghost use Rattle.graph_meaning.specs.Path.{HasPath};
ghost use Rattle.graph_meaning.specs.Rules.{NoCycleAt};
ghost use Rattle.explanations.specs.Paths.{IsPath, IsShortest};

use crate::search::{Way, search_from};
use crate::trail::trail;
use graph_model::graph::Graph;
use graph_terms::verb::Edge;
use index_spaces::NoMemory;
use std::alloc::Global;

/// A path of as few edges as can be, edge by edge: each begins where the one before it ends. `None`
/// exactly where no path leads there. From a line to itself it is a cycle.
pub fn shortest_path(
    alloc: Global,
    graph: &Graph,
    from: u32,
    to: u32,
) -> Result<Option<Vec<Edge>>, NoMemory>
    requires from { from < length graph.now.lines }
    requires to { to < length graph.now.lines }
    ensures shortest { IfOk result (λ o. IfSome o (λ p. IsShortest graph.now from to p.items)) }
    ensures none { IfOk result (λ o. o ≡ None → HasPath graph.now from to → ⊥) }
{
    let tree = search_from(alloc, graph, Way::Back, &[], &[to])?;
    trail(alloc, graph, Way::Back, tree.counts.as_slice(), from)
}

/// A cycle through a line of as few edges as can be, edge by edge, from the line back to it. `None`
/// exactly where no cycle goes through it.
pub fn shortest_cycle(
    alloc: Global,
    graph: &Graph,
    line: u32,
) -> Result<Option<Vec<Edge>>, NoMemory>
    requires { line < length graph.now.lines }
    ensures shortest { IfOk result (λ o. IfSome o (λ p. IsShortest graph.now line line p.items)) }
    ensures none { IfOk result (λ o. o ≡ None → NoCycleAt graph.now line) }
{
    shortest_path(alloc, graph, line, line)
}
