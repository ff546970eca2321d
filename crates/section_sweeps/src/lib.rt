//! Whether the rules of sections hold, and in which sections the lines lie, by sweeps for up to 64
//! acquires at a time.
#![tactic(auto)]

pub mod blocks;
pub mod found_sections;
mod group;
pub mod kept_acquires;
pub mod line_lists;
pub mod lookups;
pub mod passing;
pub mod releases;
pub mod rules;
mod sweep;

ghost use Rattle.std.specs.Prelude.{IfOk, IfSome};
ghost use Rattle.sweep_base.specs.Placed.{IsOrder};
ghost use Rattle.section_sweeps.specs.Found.{AreSectionsFound};

use crate::found_sections::{Found, Sections};
use crate::lookups::Table;
use graph_model::graph::Graph;
use index_spaces::NoMemory;
use index_spaces::room::filled;
use std::alloc::Global;
use sweep_base::line_sections::Held;

/// Whether each acquire is released behind it, what comes before a release lies before its acquire
/// or in its section, and a section acquires only reservations declared later; from an order in
/// which each edge leads forward.
pub fn held_sections(alloc: Global, graph: &Graph, order: &[u32]) -> Result<Sections, NoMemory>
    requires order { IsOrder graph.now order.now }
    ensures { IfOk result (AreSectionsFound graph.now) }
{
    let lines = graph.lines() as usize;
    if graph.locks() == 0 {
        let held = Held::new(alloc, 0)?;
        return Ok(Sections::Kept(held));
    }
    if order.len() != lines {
        let doubted = filled(alloc, true, lines)?;
        return Ok(Sections::Doubted(doubted));
    }
    let table = Table::new(alloc, graph, order)?;
    let mut found = Found::new(alloc, graph)?;
    found.pass_all(alloc, graph, &table)?;
    Ok(found.sections(graph, &table))
}
