//! The lines that are ready, and for each line how many edges it still waits for.

ghost use Rattle.std.specs.Prelude.{◌≡◌, ℕ, Bool, ◌<◌, ◌≤◌, ◌-◌, ◌++◌, [], ◌∷◌, ◌==◌, ◌&&◌, ◌||◌, true, false, not, length, slice_index, slice_set, OnOk, IfOk, MatchOption};
ghost use Rattle.std.specs.BTreeSet.{contains};
ghost use Rattle.std.specs.Ordering.{nat_cmp};
ghost use Rattle.graph_terms.specs.Graph.{never_comes};
ghost use Rattle.graph_terms.specs.Edges.{edges_into};
ghost use Rattle.plain_eval.specs.Waiting.{IsWaiting, IsFree, and_ended, starts_ready};

use crate::numbers::insert;
use graph_meaning::laws::edges_between_lines;
use graph_model::graph::Graph;
use index_spaces::NoMemory;
use index_spaces::room::push;
use std::alloc::Global;
use std::collections::BTreeSet;

/// For each line how many edges it waits for, and the lines that are ready.
#[derive(Drop)]
pub(crate) struct Waiting {
    left: Vec<usize>,
    ready: BTreeSet<u32>,
}

impl Waiting {
    /// Before any line has ended.
    pub(crate) fn new(alloc: Global, graph: &Graph) -> Result<Waiting, NoMemory>
        ensures { IfOk result (λ w. IsWaiting graph.now (λ i. false) w.left.items (contains nat_cmp w.ready)) }
    {
        let mut waiting = Waiting {
            left: Vec::new(alloc),
            ready: BTreeSet::new(alloc),
        };
        for line in 0..graph.lines() {
            waiting.add(graph, line)?;
        }
        Ok(waiting)
    }

    /// Adds the next line, before any line has ended.
    fn add(&mut self, graph: &Graph, line: u32) -> Result<(), NoMemory>
        requires { line < length graph.now.lines }
        ensures left { OnOk result (self.new.left.items ≡ self.old.left.items ++ length (edges_into graph.now line) ∷ []) }
        ensures ready { OnOk result ((i : ℕ) → contains nat_cmp self.new.ready i ≡
            (contains nat_cmp self.old.ready i || ((line == i) && starts_ready graph.now line))) }
    {
        let left = graph.edges_into(line).len();
        push(&mut self.left, left)?;
        self.offer(graph, line, left)
    }

    /// Takes out the lowest line that is ready.
    pub(crate) fn take_lowest(&mut self) -> Option<u32>
        ensures left { self.new.left.items ≡ self.old.left.items }
        ensures lowest { MatchOption result ((i : ℕ) → (contains nat_cmp self.old.ready i ≡ false)
            × (contains nat_cmp self.new.ready i ≡ false))
            (λ k. (contains nat_cmp self.old.ready k ≡ true) × ((i : ℕ) → contains nat_cmp self.old.ready i ≡ true → k ≤ i)
            × ((i : ℕ) → contains nat_cmp self.new.ready i ≡ (contains nat_cmp self.old.ready i && not (k == i)))) }
    {
        self.ready.pop_first()
    }

    /// Lets the edges from a line pass that has ended.
    pub(crate) fn release(&mut self, graph: &Graph, line: u32) -> Result<(), NoMemory>
        requires known { line < length graph.now.lines }
        requires free { (ended : ℕ → Bool) × IsFree graph.now ended line self.old.left.items (contains nat_cmp self.old.ready) }
        ensures { OnOk result ((ended : ℕ → Bool) → IsFree graph.now ended line self.old.left.items (contains nat_cmp self.old.ready)
            → IsWaiting graph.now (and_ended ended line) self.new.left.items (contains nat_cmp self.new.ready)) }
    {
        edges_between_lines();
        let _ = graph.lines();
        let edges = graph.edges_from(line);
        for edge in edges {
            self.pass(graph, edge.to)?;
        }
        Ok(())
    }

    /// Lets one edge to a line pass.
    fn pass(&mut self, graph: &Graph, line: u32) -> Result<(), NoMemory>
        requires known { line < length graph.now.lines }
        requires count { length self.old.left.items ≡ length graph.now.lines }
        requires waits { 0 < slice_index self.old.left.items line }
        ensures left { OnOk result (self.new.left.items ≡ slice_set self.old.left.items line (slice_index self.old.left.items line - 1)) }
        ensures ready { OnOk result ((i : ℕ) → contains nat_cmp self.new.ready i
            ≡ (contains nat_cmp self.old.ready i || ((line == i) &&
            (not (never_comes graph.now line) && (slice_index self.old.left.items line - 1 == 0))))) }
    {
        let left = self.left[line as usize] - 1;
        self.left[line as usize] = left;
        self.offer(graph, line, left)
    }

    /// Makes a line ready that may come, where it waits for no edge.
    fn offer(&mut self, graph: &Graph, line: u32, left: usize) -> Result<(), NoMemory>
        requires { line < length graph.now.lines }
        ensures left { self.new.left.items ≡ self.old.left.items }
        ensures ready { OnOk result ((i : ℕ) → contains nat_cmp self.new.ready i
            ≡ (contains nat_cmp self.old.ready i || ((line == i) && (not (never_comes graph.now line) && (left == 0))))) }
    {
        if left == 0 && !graph.never_comes(line) {
            insert(&mut self.ready, line)?;
        }
        Ok(())
    }
}
