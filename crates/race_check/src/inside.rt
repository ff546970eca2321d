//! The lines in the sections of a block of acquires.

ghost use Rattle.std.specs.Prelude.{◌≡◌, ℕ, ◌<◌, length, IfOk};
ghost use Rattle.race_check.specs.Inside.{AreBetween, IsInside};
ghost use Rattle.section_sweeps.specs.Table.{IsTable};

use graph_meaning::laws::edges_between_lines;
use graph_model::graph::Graph;
use index_spaces::NoMemory;
use section_sweeps::blocks::{passed_back, passed_forward};
use section_sweeps::line_lists::{lines_from, releases_from};
use section_sweeps::lookups::Table;
use section_sweeps::passing::Passing;
use std::alloc::Global;

/// Of 64 lines from a first one on: which of them have a path to a line, and to the releases of
/// which of them it has one.
#[derive(Drop)]
pub(crate) struct Inside {
    behind: Passing,
    to_releases: Passing,
}

impl Inside {
    pub(crate) fn new(
        alloc: Global,
        graph: &Graph,
        table: &Table,
        first: u32,
    ) -> Result<Inside, NoMemory>
        requires table { IsTable graph.now table.now }
        requires first { first < length graph.now.lines }
        ensures { IfOk result (IsInside graph.now first) }
    {
        edges_between_lines();
        let lines = graph.lines();
        let end = lines.min(first + 64);
        let of = lines_from(alloc, first, end)?;
        let releases = releases_from(alloc, graph, table, first, end)?;
        let of = of.as_slice();
        let releases = releases.as_slice();
        let behind = passed_forward(alloc, graph, table, of, lines)?;
        let to_releases = passed_back(alloc, graph, table, releases, 0)?;
        Ok(Inside {
            behind,
            to_releases,
        })
    }

    /// The acquires of the block in whose sections a line lies.
    pub(crate) fn of(&self, graph: &Graph, line: u32) -> u64
        requires line { line < length graph.now.lines }
        requires inside { (first : ℕ) × IsInside graph.now first self.now }
        ensures { (first : ℕ) → IsInside graph.now first self.now → AreBetween graph.now first line result }
    {
        edges_between_lines();
        let _ = graph.lines();
        self.behind.passed(line) & self.to_releases.passed(line)
    }
}
