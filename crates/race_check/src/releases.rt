//! The rule that each acquire has a release behind it.

ghost use Rattle.std.specs.Prelude.{◌≡◌, ℕ, ◌+◌, ◌-◌, ◌<◌, ◌≤◌, ◌↔◌, length, IsTrue, IfOk, MatchOption};
ghost use Rattle.graph_meaning.specs.Rules.{Everywhere, FailsFirst, ReleasedAt};
ghost use Rattle.section_sweeps.specs.PassedBlocks.{ArePassedOn};
ghost use Rattle.race_check.specs.Blocks.{IsFirstIn};
ghost use Rattle.section_sweeps.specs.Found.{AreDoubted};
ghost use Rattle.section_sweeps.specs.Table.{IsTable};

use graph_meaning::laws::edges_between_lines;
use graph_model::graph::Graph;
use index_spaces::NoMemory;
use section_sweeps::blocks::passed_forward;
use section_sweeps::line_lists::lines_from;
use section_sweeps::lookups::Table;
use section_sweeps::passing::Passing;
use std::alloc::Global;
use sweep_base::bits::has_bit;
use sweep_base::notes::is_any_noted;
use sweep_base::reservations::acquired;

/// The least acquire that has no release with a path from it, 64 lines at a time.
pub(crate) fn first_unreleased(
    alloc: Global,
    graph: &Graph,
    table: &Table,
    doubted: &[bool],
) -> Result<Option<u32>, NoMemory>
    requires table { IsTable graph.now table.now }
    requires size { length doubted.now ≡ length graph.now.lines }
    requires doubted { AreDoubted graph.now doubted.now }
    ensures { IfOk result (λ o. MatchOption o (Everywhere (ReleasedAt graph.now)) (λ i. (i < length graph.now.lines)
        × FailsFirst (ReleasedAt graph.now) i)) }
{
    edges_between_lines();
    let lines = graph.lines();
    let mut first = 0;
    while first < lines {
        let end = lines.min(first + 64);
        let found = first_of_block(alloc, graph, table, doubted, first, end)?;
        if let Some(line) = found {
            return Ok(Some(line));
        }
        first = end;
    }
    Ok(None)
}

/// The least of a block.
fn first_of_block(
    alloc: Global,
    graph: &Graph,
    table: &Table,
    doubted: &[bool],
    first: u32,
    end: u32,
) -> Result<Option<u32>, NoMemory>
    requires table { IsTable graph.now table.now }
    requires size { length doubted.now ≡ length graph.now.lines }
    requires doubted { AreDoubted graph.now doubted.now }
    requires begins { first ≤ end }
    requires few { end ≤ first + 64 }
    requires ends { end ≤ length graph.now.lines }
    requires whole { (b : ℕ) → b < 64 → first + b < length graph.now.lines → first + b < end }
    ensures { IfOk result (λ o. MatchOption o ((i : ℕ) → first ≤ i → i < end → ReleasedAt graph.now i) (IsFirstIn (ReleasedAt graph.now) first end)) }
{
    let lines = graph.lines();
    if !is_any_noted(doubted, first, end) {
        return Ok(None);
    }
    let of = lines_from(alloc, first, end)?;
    let of = of.as_slice();
    let behind = passed_forward(alloc, graph, table, of, lines)?;
    Ok(first_unreleased_of(graph, table, &behind, first, end))
}

/// The least acquire of a block that has no release with a path from it.
fn first_unreleased_of(
    graph: &Graph,
    table: &Table,
    behind: &Passing,
    first: u32,
    end: u32,
) -> Option<u32>
    requires table { IsTable graph.now table.now }
    requires behind { ArePassedOn graph.now (λ q i. q ≡ i) first behind.now }
    requires few { end - first ≤ 64 }
    requires ends { end ≤ length graph.now.lines }
    ensures { MatchOption result ((i : ℕ) → first ≤ i → i < end → ReleasedAt graph.now i) (IsFirstIn (ReleasedAt graph.now) first end) }
{
    for line in first..end {
        if !is_released(graph, table, behind, line, line - first) {
            return Some(line);
        }
    }
    None
}

/// Whether a line has a path to its release, if it is an acquire.
fn is_released(graph: &Graph, table: &Table, behind: &Passing, line: u32, bit: u32) -> bool
    requires known { line < length graph.now.lines }
    requires table { IsTable graph.now table.now }
    requires bit { bit < 64 }
    requires behind { (first : ℕ) × (first + bit ≡ line) × ArePassedOn graph.now (λ q i. q ≡ i) first behind.now }
    ensures { IsTrue result ↔ ReleasedAt graph.now line }
{
    let Some(_lock) = acquired(graph, line) else {
        return true;
    };
    match table.releases[line as usize] {
        Some(release) => has_bit(behind.passed(release), bit),
        None => false,
    }
}
