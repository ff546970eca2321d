//! The critical chain: the costliest chain of lines that are to be planned, made from the costliest
//! chain up to each line.

ghost use Rattle.std.specs.Prelude.{◌≡◌, ℕ, ◌+◌, ◌<◌, ◌≤◌, ◌==◌, [], ◌∷◌, length, Some, None, slice_index, slice_set, Contains, ◌^◌, OnOk, IfOk, MatchOption};
ghost use Rattle.graph_terms.specs.Edges.{edges_into};
ghost use Rattle.realm_timeline.specs.Chains.{IsCritical, chain_cost};
ghost use Rattle.realm_timeline.specs.Order.{IsOrder};
ghost use Rattle.realm_timeline.specs.ChainCosts.{chain_cost_at, before_at, IsBestOf, AreChainCosts, IsTopOf, IsWalk, AddsLine, best_cost, best_line, cost_or_0, IsBetter, IsNoneOrBelow};
ghost use Rattle.graph_terms.specs.declared.verb.Edge.{Edge as EdgeValue};

use crate::cost::cost_of;
use graph_meaning::laws::edges_between_lines;
use graph_model::graph::Graph;
use graph_terms::lists::LineList;
use graph_terms::verb::Edge;
use index_spaces::NoMemory;
use index_spaces::room::{filled, push};
use std::alloc::Global;

/// For each line the cost of the costliest chain that ends in it, and the line before it in that chain.
#[derive(Drop)]
pub(crate) struct ChainCosts {
    pub(crate) costs: Vec<u64>,
    pub(crate) before: Vec<Option<u32>>,
}

/// The critical chain and its cost, from the order in which the lines of a plan start.
///
/// `NoMemory`: memory was refused.
pub(crate) fn critical_of(
    alloc: Global,
    graph: &Graph,
    order: &[u32],
) -> Result<(LineList, u64), NoMemory>
    requires { IsOrder graph.now order.now }
    ensures critical { IfOk result (λ r. IsCritical graph.now r.0) }
    ensures cost { IfOk result (λ r. r.1 ≡ chain_cost graph.now r.0) }
{
    let chain_costs = ChainCosts::of_lines(alloc, graph, order)?;
    let top = chain_costs.top(graph);
    let chain = chain_costs.chain_to(alloc, graph, order, top)?;
    let cost = chain_costs.cost_at(top);
    Ok((chain, cost))
}

impl ChainCosts {
    /// The entries of all lines of the order, one after the other. A line that is not in it costs 0.
    fn of_lines(alloc: Global, graph: &Graph, order: &[u32]) -> Result<ChainCosts, NoMemory>
        requires { IsOrder graph.now order.now }
        ensures { IfOk result (λ h. AreChainCosts graph.now order.now h.costs.items h.before.items (length order.now)) }
    {
        let lines = graph.lines();
        let mut chain_costs = ChainCosts {
            costs: filled(alloc, 0, lines as usize)?,
            before: filled(alloc, None, lines as usize)?,
        };
        for place in 0..order.len() {
            chain_costs.add_line(graph, order[place]);
        }
        Ok(chain_costs)
    }

    /// Makes the entries of a line whose sources have theirs.
    fn add_line(&mut self, graph: &Graph, line: u32)
        requires line { line < length graph.now.lines }
        requires costs { length self.old.costs.items ≡ length graph.now.lines }
        requires before { length self.old.before.items ≡ length graph.now.lines }
        requires few { (i : ℕ) → chain_cost_at self.old.costs.items i ≤ 4503599627370496 }
        ensures { AddsLine graph.now self.old.costs.items self.old.before.items self.new.costs.items self.new.before.items line }
    {
        edges_between_lines();
        let _ = graph.lines();
        let best = best_of(&self.costs, graph.edges_into(line));
        let cost = cost_of(graph, line);
        self.set(line, best, cost);
    }

    /// Sets the entries of a line by its costliest source and by its own cost.
    fn set(&mut self, line: u32, best: Option<(u32, u64)>, cost: u64)
        requires costs { line < length self.old.costs.items }
        requires before { line < length self.old.before.items }
        requires fits { MatchOption best (cost < 2 ^ 64) (λ b. b.1 + cost < 2 ^ 64) }
        ensures costs { self.new.costs.items ≡ slice_set self.old.costs.items line (best_cost best + cost) }
        ensures before { self.new.before.items ≡ slice_set self.old.before.items line (best_line best) }
    {
        match best {
            Some((from, most)) => {
                self.costs[line as usize] = most + cost;
                self.before[line as usize] = Some(from);
            }
            None => {
                self.costs[line as usize] = cost;
                self.before[line as usize] = None;
            }
        }
    }

    /// The line that ends the costliest chain, the lowest of those, and none where no line is planned.
    fn top(&self, graph: &Graph) -> Option<u32>
        requires { length self.now.costs.items ≡ length graph.now.lines }
        ensures { IsTopOf self.now.costs.items (length graph.now.lines) result }
    {
        let mut top: Option<u32> = None;
        for line in 0..graph.lines() {
            top = self.costlier(top, line);
        }
        top
    }

    /// The next line if its chain is costlier than those of the lines before it, and else the
    /// costliest of those.
    fn costlier(&self, top: Option<u32>, line: u32) -> Option<u32>
        requires line { line < length self.now.costs.items }
        requires top { IsTopOf self.now.costs.items line top }
        ensures { IsTopOf self.now.costs.items (line + 1) result }
    {
        let cost = self.costs[line as usize];
        if cost > self.cost_at(top) {
            Some(line)
        } else {
            top
        }
    }

    /// The cost of the costliest chain up to a line, and 0 for none.
    fn cost_at(&self, line: Option<u32>) -> u64
        requires { IsNoneOrBelow (length self.now.costs.items) line }
        ensures { result ≡ cost_or_0 self.now.costs.items line }
    {
        match line {
            Some(line) => self.costs[line as usize],
            None => 0,
        }
    }

    /// The costliest chain up to a line, walked back from that line, and the chain without lines for
    /// none.
    fn chain_to(
        &self,
        alloc: Global,
        graph: &Graph,
        order: &[u32],
        top: Option<u32>,
    ) -> Result<LineList, NoMemory>
        requires order { IsOrder graph.now order.now }
        requires chain_costs { AreChainCosts graph.now order.now self.now.costs.items self.now.before.items (length order.now) }
        requires top { IsTopOf self.now.costs.items (length graph.now.lines) top }
        ensures { IfOk result (λ c. IsWalk self.now.before.items top None c) }
    {
        let mut lines = Vec::new(alloc);
        let _ = graph.lines();
        let mut next = top;
        while let Some(line) = next {
            push(&mut lines, line)?;
            next = self.before[line as usize];
        }
        lines.reverse();
        Ok(LineList { items: lines })
    }
}

/// The costliest of the sources of some edges, the lowest of those, with its cost.
fn best_of(costs: &[u64], edges: &[Edge]) -> Option<(u32, u64)>
    requires { (e : EdgeValue) → Contains edges.now e → e.from < length costs.now }
    ensures { IsBestOf (chain_cost_at costs.now) edges.now result }
{
    let mut best: Option<(u32, u64)> = None;
    for edge in edges {
        best = Some(better_of(best, edge.from, costs[edge.from as usize]));
    }
    best
}

/// The costlier of two lines, the lower where they cost the same.
fn better_of(best: Option<(u32, u64)>, from: u32, cost: u64) -> (u32, u64)
    ensures { IsBetter best from cost result }
{
    match best {
        Some((other, most)) => {
            if most > cost || (most == cost && other <= from) {
                (other, most)
            } else {
                (from, cost)
            }
        }
        None => (from, cost),
    }
}
