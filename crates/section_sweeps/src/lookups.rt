//! What is looked up of a graph: its lines by place, their places, and their releases.

ghost use Rattle.std.specs.Prelude.{◌≡◌, length, IfOk};
ghost use Rattle.sweep_base.specs.Placed.{IsOrder};
ghost use Rattle.section_sweeps.specs.Table.{IsTable};

use crate::releases::releases;
use graph_meaning::laws::edges_between_lines;
use graph_model::graph::Graph;
use index_spaces::NoMemory;
use std::alloc::Global;
use sweep_base::places::{copied, places};

/// The line at each place, the place of each line, and the release of each acquire.
#[derive(Drop)]
pub struct Table {
    pub lines: Vec<u32>,
    pub places: Vec<u32>,
    pub releases: Vec<Option<u32>>,
}

impl Table {
    /// The table of a graph, by an order of all its lines.
    pub fn new(alloc: Global, graph: &Graph, order: &[u32]) -> Result<Table, NoMemory>
        requires placed { IsOrder graph.now order.now }
        requires count { length order.now ≡ length graph.now.lines }
        ensures { IfOk result (IsTable graph.now) }
    {
        edges_between_lines();
        let _ = graph.lines();
        Ok(Table {
            lines: copied(alloc, order)?,
            places: places(alloc, graph, order)?,
            releases: releases(alloc, graph)?,
        })
    }
}
