//! Which lines of a graph race, by sweeps of 64 lines at a time.
#![tactic(auto)]

mod asked_classes;
mod marks;
mod members;
mod reach;
mod scan;
mod unexempt;
mod walk;

ghost use Rattle.std.specs.Prelude.{◌≡◌, ◌≤◌, length, IfOk, IfSome};
ghost use Rattle.sweep_base.specs.Held.{IsHeld};
ghost use Rattle.sweep_base.specs.Placed.{IsOrder};
ghost use Rattle.race_sweeps.specs.Enough.{AreEnough, AreEnoughBelow, AreSettledBelow};
ghost use Rattle.conflict_classes.specs.Table.{IsTable};

use crate::scan::Scan;
use conflict_classes::lookups::Table;
use graph_model::graph::Graph;
use index_spaces::NoMemory;
use index_spaces::room::filled;
use std::alloc::Global;
use sweep_base::line_sections::Held;
use sweep_base::notes::is_any_noted;

/// For each line whether it is noted as one that races, from an order in which each edge leads
/// forward: a line with which each line noted is settled is settled with all, so none is noted
/// only where no two lines race. `None` says nothing: it comes where too many spaces overlap.
pub fn racing_lines(
    alloc: Global,
    graph: &Graph,
    order: &[u32],
    held: &Held,
) -> Result<Option<Vec<bool>>, NoMemory>
    requires order { IsOrder graph.now order.now }
    requires held { IsHeld graph.now held.now }
    ensures size { IfOk result (λ o. IfSome o (λ v. length v.items ≡ length graph.now.lines)) }
    ensures enough { IfOk result (λ o. IfSome o (λ v. AreEnough graph.now v.items)) }
{
    let lines = graph.lines();
    if order.len() != lines as usize {
        return Ok(None);
    }
    let Some(table) = Table::new(alloc, graph, order, held, lines)? else {
        return Ok(None);
    };
    let notes = noted_lines(alloc, graph, &table, held)?;
    Ok(Some(notes.racing))
}

/// Of two lines below a limit that were found to race, the later one: the least that was found. The
/// limit where none were found: then no two lines below it race. `None` says nothing: it comes where
/// too many spaces overlap.
pub fn later_line(
    alloc: Global,
    graph: &Graph,
    order: &[u32],
    held: &Held,
    limit: u32,
) -> Result<Option<u32>, NoMemory>
    requires order { IsOrder graph.now order.now }
    requires held { IsHeld graph.now held.now }
    ensures { IfOk result (λ o. IfSome o (λ n. limit ≤ n → AreSettledBelow graph.now limit)) }
{
    let lines = graph.lines();
    if order.len() != lines as usize {
        return Ok(None);
    }
    let Some(table) = Table::new(alloc, graph, order, held, limit)? else {
        return Ok(None);
    };
    let notes = noted_lines(alloc, graph, &table, held)?;
    if is_any_noted(notes.racing.as_slice(), 0, lines) {
        return Ok(Some(notes.later.min(limit.saturating_sub(1))));
    }
    Ok(Some(limit))
}

/// The lines that are noted as racing, and the least later line of two of them.
#[derive(Drop)]
struct Notes {
    racing: Vec<bool>,
    later: u32,
}

/// The notes of the lines below the limit of a table of the graph.
fn noted_lines(alloc: Global, graph: &Graph, table: &Table, held: &Held) -> Result<Notes, NoMemory>
    requires table { IsTable graph.now table.now }
    requires held { IsHeld graph.now held.now }
    ensures size { IfOk result (λ n. length n.racing.items ≡ length graph.now.lines) }
    ensures enough { IfOk result (λ n. AreEnoughBelow graph.now table.now.limit n.racing.items) }
{
    let mut racing = filled(alloc, false, graph.lines() as usize)?;
    let mut later = u32::MAX;
    let scan = Scan::new(alloc, graph, table)?;
    scan.note_racing(graph, table, held, &mut racing, &mut later)?;
    Ok(Notes { racing, later })
}
