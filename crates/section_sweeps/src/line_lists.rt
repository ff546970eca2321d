//! The lines of a block of 64, and what they acquire and release.

ghost use Rattle.std.specs.Prelude.{◌≡◌, ℕ, ◌<◌, ◌≤◌, length, IfOk, MatchOption};
ghost use Rattle.graph_terms.specs.Reservations.{Releases};
ghost use Rattle.section_sweeps.specs.PassedBlocks.{AreListed};
ghost use Rattle.section_sweeps.specs.PassedBlocks.{IsRelease};
ghost use Rattle.section_sweeps.specs.Table.{IsTable};

use crate::lookups::Table;
use graph_model::graph::Graph;
use index_spaces::NoMemory;
use index_spaces::room::push;
use std::alloc::Global;
use sweep_base::reservations::released;

/// The lines of a block.
pub fn lines_from(alloc: Global, first: u32, end: u32) -> Result<Vec<Option<u32>>, NoMemory>
    requires { first ≤ end }
    ensures { IfOk result (λ v. AreListed (λ q i. q ≡ i) first end v.items) }
{
    let mut of = Vec::new(alloc);
    for line in first..end {
        push(&mut of, Some(line))?;
    }
    Ok(of)
}

/// The releases of the lines of a block.
pub fn releases_from(
    alloc: Global,
    graph: &Graph,
    table: &Table,
    first: u32,
    end: u32,
) -> Result<Vec<Option<u32>>, NoMemory>
    requires table { IsTable graph.now table.now }
    requires begins { first ≤ end }
    requires ends { end ≤ length graph.now.lines }
    ensures { IfOk result (λ v. AreListed (λ q r. Releases graph.now r q) first end v.items) }
{
    let mut of = Vec::new(alloc);
    for line in first..end {
        push(&mut of, table.releases[line as usize])?;
    }
    Ok(of)
}

/// The acquires that the lines of a block release.
pub fn acquires_from(
    alloc: Global,
    graph: &Graph,
    first: u32,
    end: u32,
) -> Result<Vec<Option<u32>>, NoMemory>
    requires begins { first ≤ end }
    requires ends { end ≤ length graph.now.lines }
    ensures { IfOk result (λ v. AreListed (λ r q. Releases graph.now r q) first end v.items) }
{
    let mut of = Vec::new(alloc);
    for line in first..end {
        push(&mut of, released(graph, line))?;
    }
    Ok(of)
}

/// The lines of a block that are releases.
pub fn releasing_from(
    alloc: Global,
    graph: &Graph,
    first: u32,
    end: u32,
) -> Result<Vec<Option<u32>>, NoMemory>
    requires begins { first ≤ end }
    requires ends { end ≤ length graph.now.lines }
    ensures { IfOk result (λ v. AreListed (IsRelease graph.now) first end v.items) }
{
    let mut of = Vec::new(alloc);
    for line in first..end {
        push(&mut of, as_release(graph, line))?;
    }
    Ok(of)
}

/// A line, if it is a release.
fn as_release(graph: &Graph, line: u32) -> Option<u32>
    requires { line < length graph.now.lines }
    ensures { MatchOption result ((i : ℕ) → IsRelease graph.now line i → ⊥) (IsRelease graph.now line) }
{
    match released(graph, line) {
        Some(_acquire) => Some(line),
        None => None,
    }
}
