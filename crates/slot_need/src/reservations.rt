//! The reservations of acquires and releases.

ghost use Rattle.std.specs.Prelude.{◌≡◌, ℕ, ◌+◌, ◌<◌, length, OnOk, IfOk, MatchOption};
ghost use Rattle.graph_terms.specs.Graph.{locks};
ghost use Rattle.graph_terms.specs.Reservations.{Acquires, Releases};
ghost use Rattle.slot_need.specs.High.{AreAcquires};

use graph_model::graph::Graph;
use index_spaces::NoMemory;
use index_spaces::room::push;
use std::alloc::Global;
use sweep_base::reservations::{acquired, released};

/// For each reservation the lines that acquire it.
pub(crate) fn acquires_of_all(alloc: Global, graph: &Graph) -> Result<Vec<Vec<u32>>, NoMemory>
    ensures { IfOk result (λ v. AreAcquires graph.now v.items (length graph.now.lines)) }
{
    let mut lists = empty_lists(alloc, graph)?;
    for line in 0..graph.lines() {
        list_acquire(&mut lists, graph, line)?;
    }
    Ok(lists)
}

/// A list without lines for each reservation.
fn empty_lists(alloc: Global, graph: &Graph) -> Result<Vec<Vec<u32>>, NoMemory>
    ensures { IfOk result (λ v. AreAcquires graph.now v.items 0) }
{
    let mut lists = Vec::new(alloc);
    for _lock in 0..graph.locks() {
        push(&mut lists, Vec::new(alloc))?;
    }
    Ok(lists)
}

/// Lists a line with those that acquire its reservation, where it is an acquire.
fn list_acquire(lists: &mut Vec<Vec<u32>>, graph: &Graph, line: u32) -> Result<(), NoMemory>
    requires line { line < length graph.now.lines }
    requires lists { AreAcquires graph.now lists.old.items line }
    ensures { OnOk result (AreAcquires graph.now lists.new.items (line + 1)) }
{
    match acquired(graph, line) {
        Some(lock) => push(&mut lists[lock as usize], line),
        None => Ok(()),
    }
}

/// The reservation that a release frees.
pub(crate) fn freed(graph: &Graph, line: u32) -> Option<u32>
    requires { line < length graph.now.lines }
    ensures { MatchOption result ((q : ℕ) → Releases graph.now line q → ⊥)
        (λ l. (q : ℕ) × Releases graph.now line q × Acquires graph.now q l × (l < length (locks graph.now))) }
{
    let _ = graph.lines();
    let acquire = released(graph, line)?;
    acquired(graph, acquire)
}
