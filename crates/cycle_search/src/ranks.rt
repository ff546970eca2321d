//! Ranks of lines that no edge lowers: the lines of a cycle have the same one.

ghost use Rattle.std.specs.Prelude.{◌≡◌, ◌<◌, ◌≤◌, length, Contains, IsTrue, slice_index, OnOk, IfOk};
ghost use Rattle.graph_terms.specs.declared.verb.Edge.{Edge};
ghost use Rattle.graph_terms.specs.Edges.{edges};
ghost use Rattle.cycle_search.specs.Ranks.{AreRising};

use graph_meaning::laws::edges_between_lines;
use graph_model::graph::Graph;
use index_spaces::NoMemory;
use index_spaces::room::{filled, push};
use std::alloc::Global;

/// A rank for each line, which no edge lowers. Only an edge between two lines of one cycle keeps
/// it, unless the ranks that were found do not pass the test: then all ranks are 0.
pub(crate) fn ranks(alloc: Global, graph: &Graph) -> Result<Vec<usize>, NoMemory>
    ensures { IfOk result (λ v. AreRising graph.now v.items) }
{
    let found = found_ranks(alloc, graph)?;
    if are_rising(graph, found.as_slice()) {
        return Ok(found);
    }
    filled(alloc, 0, graph.lines() as usize)
}

/// Whether no edge lowers the ranks.
fn are_rising(graph: &Graph, ranks: &[usize]) -> bool
    requires { length ranks.now ≡ length graph.now.lines }
    ensures { IsTrue result → AreRising graph.now ranks.now }
{
    edges_between_lines();
    for line in 0..graph.lines() {
        if highest_source(graph, ranks, line) > ranks[line as usize] {
            return false;
        }
    }
    true
}

/// The highest rank of the lines that a line waits for, or 0.
pub(crate) fn highest_source(graph: &Graph, ranks: &[usize], line: u32) -> usize
    requires line { line < length graph.now.lines }
    requires size { length ranks.now ≡ length graph.now.lines }
    ensures { (e : Edge) → Contains (edges graph.now) e → e.to ≡ line → slice_index ranks.now e.from ≤ result }
{
    edges_between_lines();
    let _ = graph.lines();
    let mut highest: usize = 0;
    let edges = graph.edges_into(line);
    for edge in edges {
        highest = highest.max(ranks[edge.from as usize]);
    }
    highest
}

/// Ranks by the order in which a search leaves the lines: the last one left and the lines with a
/// path to it come first, then the last one left of the others. Nothing is claimed of them.
fn found_ranks(alloc: Global, graph: &Graph) -> Result<Vec<usize>, NoMemory>
    ensures { IfOk result (λ v. length v.items ≡ length graph.now.lines) }
{
    let mut search = Search::new(alloc, graph)?;
    search.take_all(graph)?;
    let left = search.left.as_slice();
    let mut ranking = Ranking::new(alloc, graph)?;
    for k in 0..left.len() {
        ranking.give_all(graph, left[left.len() - 1 - k], k + 1)?;
    }
    Ok(ranking.ranks)
}

/// What a search does next with a line: it leaves a line when it is done with those behind it.
#[derive(Clone, Copy)]
enum Step {
    Enter(u32),
    Leave(u32),
}

/// A search along all edges: the lines that it entered, the steps ahead of it, and the lines that
/// it left, in turn.
#[derive(Drop)]
struct Search {
    entered: Vec<bool>,
    steps: Vec<Step>,
    left: Vec<u32>,
}

impl Search {
    /// All lines are to be entered.
    fn new(alloc: Global, graph: &Graph) -> Result<Search, NoMemory>
        ensures { IfOk result (λ s. length s.entered.items ≡ length graph.now.lines) }
    {
        let lines = graph.lines();
        let mut steps = Vec::new(alloc);
        for line in 0..lines {
            push(&mut steps, Step::Enter(line))?;
        }
        Ok(Search {
            entered: filled(alloc, false, lines as usize)?,
            steps,
            left: Vec::new(alloc),
        })
    }

    /// Takes steps while there are any.
    fn take_all(&mut self, graph: &Graph) -> Result<(), NoMemory>
        requires { length self.old.entered.items ≡ length graph.now.lines }
    {
        // each line is entered once and each edge passed once, far fewer than this
        for _ in 0..u32::MAX {
            let Some(step) = self.steps.pop() else {
                return Ok(());
            };
            self.take(graph, step)?;
        }
        Ok(())
    }

    /// Takes one step.
    fn take(&mut self, graph: &Graph, step: Step) -> Result<(), NoMemory>
        requires { length self.old.entered.items ≡ length graph.now.lines }
        ensures { OnOk result (length self.new.entered.items ≡ length graph.now.lines) }
    {
        match step {
            Step::Enter(line) => self.enter(graph, line),
            Step::Leave(line) => push(&mut self.left, line),
        }
    }

    /// Enters a line that was not entered: the lines behind it come first, then it is left.
    fn enter(&mut self, graph: &Graph, line: u32) -> Result<(), NoMemory>
        requires { length self.old.entered.items ≡ length graph.now.lines }
        ensures { OnOk result (length self.new.entered.items ≡ length graph.now.lines) }
    {
        if line >= graph.lines() || self.entered[line as usize] {
            return Ok(());
        }
        self.entered[line as usize] = true;
        push(&mut self.steps, Step::Leave(line))?;
        let edges = graph.edges_from(line);
        for edge in edges {
            push(&mut self.steps, Step::Enter(edge.to))?;
        }
        Ok(())
    }
}

/// The ranks given so far, from 1 on, with 0 for none, and the lines that the next one goes to.
#[derive(Drop)]
struct Ranking {
    ranks: Vec<usize>,
    next: Vec<u32>,
}

impl Ranking {
    /// No ranks are given.
    fn new(alloc: Global, graph: &Graph) -> Result<Ranking, NoMemory>
        ensures { IfOk result (λ r. length r.ranks.items ≡ length graph.now.lines) }
    {
        Ok(Ranking {
            ranks: filled(alloc, 0, graph.lines() as usize)?,
            next: Vec::new(alloc),
        })
    }

    /// Gives a rank to a line, and to those without a rank from which a path leads to it along such.
    fn give_all(&mut self, graph: &Graph, line: u32, rank: usize) -> Result<(), NoMemory>
        requires { length self.old.ranks.items ≡ length graph.now.lines }
        ensures { OnOk result (length self.new.ranks.items ≡ length graph.now.lines) }
    {
        push(&mut self.next, line)?;
        // each edge is passed once, and there are far fewer than this
        for _ in 0..u32::MAX {
            let Some(next) = self.next.pop() else {
                return Ok(());
            };
            self.give(graph, next, rank)?;
        }
        Ok(())
    }

    /// Gives a rank to a line without one, and goes on with the lines that it waits for.
    fn give(&mut self, graph: &Graph, line: u32, rank: usize) -> Result<(), NoMemory>
        requires { length self.old.ranks.items ≡ length graph.now.lines }
        ensures { OnOk result (length self.new.ranks.items ≡ length graph.now.lines) }
    {
        if line >= graph.lines() || self.ranks[line as usize] != 0 {
            return Ok(());
        }
        self.ranks[line as usize] = rank;
        let edges = graph.edges_into(line);
        for edge in edges {
            push(&mut self.next, edge.from)?;
        }
        Ok(())
    }
}
