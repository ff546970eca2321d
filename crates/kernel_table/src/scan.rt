//! Scan: running sums along a space.

ghost use Rattle.std.specs.Prelude.{ℕ, ◌≡◌, ◌+◌, ◌<◌, length, take, filter, sum, nat_le, slice_index};
ghost use Rattle.index_spaces.specs.Space.{IsWithin, points};
ghost use Rattle.index_spaces.specs.Column.{cell_of};
ghost use Rattle.graph_terms.specs.declared.table.Kernel.TheVariants.{Scan};
ghost use Rattle.graph_meaning.specs.Effect.{wrapped, wrapped_sum};
ghost use Rattle.kernel_table.specs.Kernels.{HoldsOverSpace, OverSpace, Makes};

use crate::source::source;
use crate::walk::{RunStep, run_of, write_runs};
use graph_model::graph::Graph;
use index_spaces::column::{Column, ColumnView};
use index_spaces::held::Held;
use index_spaces::laws::points_are_listed;
use index_spaces::space::Space;

/// Sets each cell over a space to the sum of the other column's cells at its point and those below it.
pub(crate) fn scan_column(graph: &Graph, held: &Held, before: Column, x: u32, s: u32) -> Column
    requires source { HoldsOverSpace graph.now held.now x s }
    requires target { OverSpace graph.now before s }
    ensures { (y : ℕ) → Makes graph.now held.now before result (Scan x y s) }
{
    points_are_listed();
    let from = source(held, x);
    write_runs(before, graph.space(s), &mut RunningSums { from, so_far: 0 })
}

/// Sets each cell to the sum of a column's cells up to its point.
#[derive(Drop)]
struct RunningSums<'a> {
    from: ColumnView<'a>,
    so_far: u64,
}

impl<'a> RunStep for RunningSums<'a> {
    ghost value = { λ step space p cell. wrapped_sum (cell_of step.from) (filter (λ q. nat_le q p) (points space)) };

    ghost IsReady = { λ step space k. IsWithin space step.from.space
        × (step.so_far ≡ wrapped_sum (cell_of step.from) (points (take k space))) };

    fn write(&mut self, space: &Space, k: usize, cells: &mut [u64]) {
        let _ = space.intervals();
        let last = sum_along(cells, run_of(&self.from, space, k), self.so_far);
        self.so_far = last;
    }
}

/// Writes the sums of a first value and the values up to each place, modulo 2^64, and gives the last.
fn sum_along(cells: &mut [u64], values: &[u64], first: u64) -> u64
    requires { length cells.old ≡ length values.now }
    ensures cells { (k : ℕ) → k < length cells.old → slice_index cells.new k ≡ wrapped (first + sum (take (k + 1) values.now)) }
    ensures last { result ≡ wrapped (first + sum values.now) }
{
    let mut so_far = first;
    for k in 0..cells.len() {
        so_far = so_far.wrapping_add(values[k]);
        cells[k] = so_far;
    }
    so_far
}
