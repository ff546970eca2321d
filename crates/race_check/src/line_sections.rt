//! In which sections the lines lie, a block of acquires at a time.

ghost use Rattle.std.specs.Prelude.{◌≡◌, ℕ, ◌+◌, ◌-◌, ◌<◌, ◌≤◌, length, slice_index, OnOk, IfOk};
ghost use Rattle.graph_meaning.specs.Rules.{Section};
ghost use Rattle.sweep_base.specs.Held.{IsHeld};
ghost use Rattle.section_sweeps.specs.Sections.{AreHeldSoFar, IsGrown, IsKept};
ghost use Rattle.section_sweeps.specs.Table.{IsTable};

use crate::inside::Inside;
use graph_meaning::laws::edges_between_lines;
use graph_model::graph::Graph;
use index_spaces::NoMemory;
use index_spaces::room::push;
use section_sweeps::kept_acquires::{keep_all, nothing_kept};
use section_sweeps::lookups::Table;
use std::alloc::Global;
use sweep_base::line_sections::Held;

/// In which sections the lines lie, 64 acquires at a time.
pub(crate) fn sections_of_lines(
    alloc: Global,
    graph: &Graph,
    table: &Table,
) -> Result<Held, NoMemory>
    requires { IsTable graph.now table.now }
    ensures { IfOk result (IsHeld graph.now) }
{
    edges_between_lines();
    let lines = graph.lines();
    let mut held = nothing_kept(alloc, graph)?;
    let mut first = 0;
    while first < lines {
        keep_block(alloc, graph, table, &mut held, first)?;
        first += 64;
    }
    Ok(held)
}

/// Keeps the acquires of a block for the lines in their sections.
fn keep_block(
    alloc: Global,
    graph: &Graph,
    table: &Table,
    held: &mut Held,
    first: u32,
) -> Result<(), NoMemory>
    requires table { IsTable graph.now table.now }
    requires first { first < length graph.now.lines }
    requires held { AreHeldSoFar graph.now held.old }
    ensures held { OnOk result (AreHeldSoFar graph.now held.new) }
    ensures grown { OnOk result (IsGrown held.old held.new) }
    ensures kept { OnOk result ((q l i : ℕ) → first ≤ q → q < first + 64 → Section graph.now l q i → IsKept held.new l i) }
{
    edges_between_lines();
    let lines = graph.lines();
    let inside = Inside::new(alloc, graph, table, first)?;
    let acquires = numbers_from(alloc, first, lines.min(first + 64))?;
    for line in 0..lines {
        keep_all(
            held,
            graph,
            acquires.as_slice(),
            line,
            inside.of(graph, line),
        )?;
    }
    Ok(())
}

/// The lines of a block.
fn numbers_from(alloc: Global, first: u32, end: u32) -> Result<Vec<u32>, NoMemory>
    requires { first ≤ end }
    ensures size { IfOk result (λ v. length v.items ≡ end - first) }
    ensures each { IfOk result (λ v. (b : ℕ) → b < end - first → slice_index v.items b ≡ first + b) }
{
    let mut numbers = Vec::new(alloc);
    for line in first..end {
        push(&mut numbers, line)?;
    }
    Ok(numbers)
}
