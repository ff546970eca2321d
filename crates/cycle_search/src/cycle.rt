//! Paths that lead from a line to itself.

ghost use Rattle.std.specs.Prelude.{◌≡◌, ℕ, ◌+◌, ◌<◌, ◌≤◌, ◌↔◌, true, false, cond, [], ◌∷◌, ◌++◌, length, slice_set, IsTrue, OnOk, IfOk, MatchOption};
ghost use Rattle.graph_terms.specs.Edges.{edges, edges_out_of};
ghost use Rattle.graph_meaning.specs.Path.{HasPath};
ghost use Rattle.graph_meaning.specs.Rules.{Everywhere, NoCycleAt, IsCycle};
ghost use Rattle.cycle_search.specs.Order.{IsOrdered};
ghost use Rattle.cycle_search.specs.Ranks.{AreRising};
ghost use Rattle.cycle_search.specs.Search.{IsMarking, IsSearching, marked_in, unmarked};

use crate::order::Order;
use crate::ranks::{highest_source, ranks};
use graph_meaning::laws::edges_between_lines;
use graph_model::graph::Graph;
use index_spaces::NoMemory;
use index_spaces::room::{filled, push};
use std::alloc::Global;

/// The least line that has a path to itself.
pub fn first_cycle(alloc: Global, graph: &Graph, order: &Order) -> Result<Option<u32>, NoMemory>
    requires { IsOrdered graph.now order.now.lines.items order.now.left.items }
    ensures { IfOk result (λ o. MatchOption o (Everywhere (NoCycleAt graph.now)) (λ i. (i < length graph.now.lines)
        × IsCycle graph.now i)) }
{
    edges_between_lines();
    for line in 0..graph.lines() {
        if order.left[line as usize] != 0 {
            return first_cycle_from(alloc, graph, line);
        }
    }
    Ok(None)
}

/// The same, from a line on above which none has a path to itself.
fn first_cycle_from(alloc: Global, graph: &Graph, start: u32) -> Result<Option<u32>, NoMemory>
    requires known { start < length graph.now.lines }
    requires start { (k : ℕ) → k < start → NoCycleAt graph.now k }
    ensures { IfOk result (λ o. MatchOption o (Everywhere (NoCycleAt graph.now)) (λ i. (i < length graph.now.lines)
        × IsCycle graph.now i)) }
{
    edges_between_lines();
    let ranks = ranks(alloc, graph)?;
    for line in start..graph.lines() {
        if is_on_cycle(alloc, graph, ranks.as_slice(), line)? {
            return Ok(Some(line));
        }
    }
    Ok(None)
}

/// Whether a line has a path to itself. None has where each edge into it raises the rank, so no
/// search is made for it.
fn is_on_cycle(alloc: Global, graph: &Graph, ranks: &[usize], line: u32) -> Result<bool, NoMemory>
    requires known { line < length graph.now.lines }
    requires rising { AreRising graph.now ranks.now }
    ensures { IfOk result (λ b. IsTrue b ↔ HasPath graph.now line line) }
{
    if highest_source(graph, ranks, line) < ranks[line as usize] {
        return Ok(false);
    }
    has_path_to_itself(alloc, graph, line)
}

/// Whether a search from a line finds that line.
fn has_path_to_itself(alloc: Global, graph: &Graph, line: u32) -> Result<bool, NoMemory>
    requires { line < length graph.now.lines }
    ensures { IfOk result (λ b. IsTrue b ↔ HasPath graph.now line line) }
{
    let mut search = Search::new(alloc, graph)?;
    search.pass_all(graph, line)?;
    while let Some(next) = search.stack.pop() {
        search.pass_all(graph, next)?;
    }
    Ok(search.marked[line as usize])
}

/// A search for the lines to which paths lead: those found, and of these the ones whose edges are
/// still to be followed.
#[derive(Drop)]
struct Search {
    marked: Vec<bool>,
    stack: Vec<u32>,
}

impl Search {
    /// No line is found yet.
    fn new(alloc: Global, graph: &Graph) -> Result<Search, NoMemory>
        ensures size { IfOk result (λ s. length s.marked.items ≡ length graph.now.lines) }
        ensures none { IfOk result (λ s. (j : ℕ) → marked_in s.marked.items j ≡ false) }
        ensures stack { IfOk result (λ s. s.stack.items ≡ []) }
    {
        Ok(Search {
            marked: filled(alloc, false, graph.lines() as usize)?,
            stack: Vec::new(alloc),
        })
    }

    /// Follows the edges out of a line.
    fn pass_all(&mut self, graph: &Graph, line: u32) -> Result<(), NoMemory>
        requires known { line < length graph.now.lines }
        requires size { length self.old.marked.items ≡ length graph.now.lines }
        ensures size { OnOk result (length self.new.marked.items ≡ length graph.now.lines) }
        ensures marking { OnOk result
            (IsMarking (edges_out_of graph.now line) self.old.marked.items self.old.stack.items
            self.new.marked.items self.new.stack.items) }
        ensures work { OnOk result
            (unmarked self.new.marked.items + length self.new.stack.items ≤ unmarked self.old.marked.items + length self.old.stack.items) }
    {
        edges_between_lines();
        let _ = graph.lines();
        let edges = graph.edges_from(line);
        for edge in edges {
            self.mark(edge.to)?;
        }
        Ok(())
    }

    /// Marks a line, and puts it on the stack where it was not marked.
    fn mark(&mut self, line: u32) -> Result<(), NoMemory>
        requires { line < length self.old.marked.items }
        ensures marked { OnOk result (self.new.marked.items ≡ slice_set self.old.marked.items line true) }
        ensures stack { OnOk result (self.new.stack.items ≡ cond (marked_in self.old.marked.items line) self.old.stack.items
            (self.old.stack.items ++ line ∷ [])) }
    {
        if !self.marked[line as usize] {
            self.marked[line as usize] = true;
            push(&mut self.stack, line)?;
        }
        Ok(())
    }
}
