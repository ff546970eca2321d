//! The order of the lines by their edges.

ghost use Rattle.std.specs.Prelude.{◌≡◌, ℕ, ◌+◌, ◌-◌, ◌<◌, ◌≤◌, ◌==◌, [], ◌∷◌, ◌++◌, cond, length, Contains, IsTrue, slice_index, slice_set, OnOk, IfOk};
ghost use Rattle.graph_terms.specs.declared.verb.Edge.{Edge};
ghost use Rattle.graph_terms.specs.Edges.{edges, edges_into, edges_out_of};
ghost use Rattle.cycle_search.specs.Order.{IsTaking, IsOrdered, IsCounted, HasRoom};

use graph_meaning::laws::edges_between_lines;
use graph_model::graph::Graph;
use index_spaces::NoMemory;
use index_spaces::room::{filled, push};
use std::alloc::Global;

/// Lines of which each stands behind its sources, and for each line of the graph how many edges
/// it waits for: a line that waits for one is out of the order, and so is no line that waits for
/// none.
#[derive(Drop)]
pub struct Order {
    pub lines: Vec<u32>,
    pub left: Vec<usize>,
}

impl Order {
    /// Puts as many lines into the order as cycles leave: the lines as they are numbered, where
    /// each edge leads to a higher number.
    pub fn new(alloc: Global, graph: &Graph) -> Result<Order, NoMemory>
        ensures ordered { IfOk result (λ o. IsOrdered graph.now o.lines.items o.left.items) }
        ensures few { IfOk result (λ o. length o.lines.items ≤ length graph.now.lines) }
    {
        edges_between_lines();
        if all_edges_ascend(graph) {
            return Order::as_numbered(alloc, graph);
        }
        let order = Order::of_free_lines(alloc, graph)?;
        order.with_others(graph)
    }

    /// The lines as they are numbered.
    fn as_numbered(alloc: Global, graph: &Graph) -> Result<Order, NoMemory>
        requires { (e : Edge) → Contains (edges graph.now) e → e.from < e.to }
        ensures ordered { IfOk result (λ o. IsOrdered graph.now o.lines.items o.left.items) }
        ensures few { IfOk result (λ o. length o.lines.items ≤ length graph.now.lines) }
    {
        edges_between_lines();
        let count = graph.lines();
        let mut lines = Vec::new(alloc);
        for line in 0..count {
            push(&mut lines, line)?;
        }
        let left = filled(alloc, 0, count as usize)?;
        Ok(Order { lines, left })
    }

    /// The lines that no edge enters.
    fn of_free_lines(alloc: Global, graph: &Graph) -> Result<Order, NoMemory>
        ensures counted { IfOk result (λ o. IsCounted graph.now o.lines.items o.left.items (length graph.now.lines)) }
        ensures room { IfOk result (λ o. HasRoom graph.now o.lines.items) }
    {
        let mut order = Order {
            lines: Vec::new(alloc),
            left: Vec::new(alloc),
        };
        for line in 0..graph.lines() {
            order.count(graph, line)?;
        }
        Ok(order)
    }

    /// Counts the edges into the next line.
    fn count(&mut self, graph: &Graph, line: u32) -> Result<(), NoMemory>
        requires { line < length graph.now.lines }
        ensures left { OnOk result (self.new.left.items ≡ self.old.left.items ++ length (edges_into graph.now line) ∷ []) }
        ensures lines { OnOk result (self.new.lines.items ≡ cond (length (edges_into graph.now line) == 0)
            (self.old.lines.items ++ line ∷ []) self.old.lines.items) }
    {
        let left = graph.edges_into(line).len();
        push(&mut self.left, left)?;
        self.offer(line, left)
    }

    /// Takes each line of the order in turn, and lists those that wait for nothing more.
    fn with_others(mut self, graph: &Graph) -> Result<Order, NoMemory>
        requires counted { IsCounted graph.now self.lines.items self.left.items (length graph.now.lines) }
        requires room { HasRoom graph.now self.lines.items }
        ensures ordered { IfOk result (λ o. IsOrdered graph.now o.lines.items o.left.items) }
        ensures few { IfOk result (λ o. length o.lines.items ≤ length graph.now.lines) }
    {
        edges_between_lines();
        let _ = graph.lines();
        let mut taken = 0;
        while taken < self.lines.len() {
            let line = self.lines[taken];
            taken += 1;
            self.take(graph, line, taken)?;
        }
        Ok(self)
    }

    /// Passes the edges out of a line, which is the last one taken.
    fn take(&mut self, graph: &Graph, line: u32, taken: usize) -> Result<(), NoMemory>
        requires known { line < length graph.now.lines }
        requires size { length self.old.left.items ≡ length graph.now.lines }
        requires room { HasRoom graph.now self.old.lines.items }
        requires taking { IsTaking graph.now self.old.lines.items (slice_index self.old.left.items) taken (edges_out_of graph.now line) }
        ensures size { OnOk result (length self.new.left.items ≡ length graph.now.lines) }
        ensures room { OnOk result (HasRoom graph.now self.new.lines.items) }
        ensures taken { OnOk result (IsTaking graph.now self.new.lines.items (slice_index self.new.left.items) taken []) }
    {
        edges_between_lines();
        let _ = graph.lines();
        let edges = graph.edges_from(line);
        for edge in edges {
            self.pass(edge.to)?;
        }
        Ok(())
    }

    /// Passes one edge to a line, and lists it where it was the last one.
    fn pass(&mut self, line: u32) -> Result<(), NoMemory>
        requires known { line < length self.old.left.items }
        requires waits { 0 < slice_index self.old.left.items line }
        ensures left { OnOk result (self.new.left.items ≡ slice_set self.old.left.items line (slice_index self.old.left.items line - 1)) }
        ensures lines { OnOk result (self.new.lines.items ≡ cond (slice_index self.old.left.items line - 1 == 0)
            (self.old.lines.items ++ line ∷ []) self.old.lines.items) }
    {
        let left = self.left[line as usize] - 1;
        self.left[line as usize] = left;
        self.offer(line, left)
    }

    /// Lists a line that waits for nothing.
    fn offer(&mut self, line: u32, left: usize) -> Result<(), NoMemory>
        ensures left { self.new.left.items ≡ self.old.left.items }
        ensures lines { OnOk result (self.new.lines.items ≡ cond (left == 0) (self.old.lines.items ++ line ∷ []) self.old.lines.items) }
    {
        if left == 0 {
            push(&mut self.lines, line)?;
        }
        Ok(())
    }
}

/// Whether each edge leads to a line of a higher number.
pub fn all_edges_ascend(graph: &Graph) -> bool
    ensures { IsTrue result → (e : Edge) → Contains (edges graph.now) e → e.from < e.to }
{
    edges_between_lines();
    for line in 0..graph.lines() {
        if !edges_ascend(graph, line) {
            return false;
        }
    }
    true
}

/// Whether each edge into a line begins at one of a lower number.
fn edges_ascend(graph: &Graph, line: u32) -> bool
    requires { line < length graph.now.lines }
    ensures { IsTrue result → (e : Edge) → Contains (edges graph.now) e → e.to ≡ line → e.from < line }
{
    let edges = graph.edges_into(line);
    for edge in edges {
        if edge.from >= line {
            return false;
        }
    }
    true
}
