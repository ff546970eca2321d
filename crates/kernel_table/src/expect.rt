//! Expect: whether all cells are within bounds.

ghost use Rattle.std.specs.Prelude.{◌≡◌, ◌&&◌, if◌then◌else◌, nat_le};
ghost use Rattle.std.specs.List.{list_all};
ghost use Rattle.index_spaces.specs.Space.{IsWithin, points};
ghost use Rattle.index_spaces.specs.Column.{cell_of};
ghost use Rattle.graph_terms.specs.declared.table.Kernel.TheVariants.{Expect};
ghost use Rattle.graph_meaning.specs.Effect.{all_within};
ghost use Rattle.kernel_table.specs.Kernels.{HoldsOverSpace, RunsKernel};

use crate::source::source;
use graph_meaning::held_cells::{cells_by_point, seen_cells};
use graph_model::graph::Graph;
use graph_terms::outcome::Verdict;
use index_spaces::column::ColumnView;
use index_spaces::held::Held;
use index_spaces::laws::{points_are_listed, runs_of_spaces};
use index_spaces::space::Space;

/// A fault exactly where some cell over a space is below the least or above the greatest. It writes
/// nothing.
pub(crate) fn run_expect(graph: &Graph, held: &Held, x: u32, s: u32, low: u64, high: u64) -> Verdict
    requires { HoldsOverSpace graph.now held.now x s }
    ensures { RunsKernel graph.now held.now held.now result (Expect x s low high) }
{
    cells_by_point();
    seen_cells();
    points_are_listed();
    let space = graph.space(s);
    verdict_of(points_within(&source(held, x), space, low, high))
}

fn verdict_of(fine: bool) -> Verdict
    ensures { result ≡ (if fine then Verdict.Fine else Verdict.Fault) }
{
    if fine { Verdict::Fine } else { Verdict::Fault }
}

pub(crate) fn points_within(x: &ColumnView<'_>, space: &Space, low: u64, high: u64) -> bool
    requires { IsWithin space.now x.now.space }
    ensures { result ≡ all_within (cell_of x.now) low high (points space.now) }
{
    runs_of_spaces();
    for interval in space.intervals() {
        if !run_within(x.run(*interval), low, high) {
            return false;
        }
    }
    true
}

fn run_within(values: &[u64], low: u64, high: u64) -> bool
    ensures { result ≡ list_all (λ v. nat_le low v && nat_le v high) values.now }
{
    values.iter().all(|v| low <= *v && *v <= high)
}
