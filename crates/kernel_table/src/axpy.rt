//! Axpy: a multiple of one column added to another.

ghost use Rattle.std.specs.Prelude.{ℕ, ◌≡◌, ◌+◌, ◌*◌, ◌<◌, length, slice_index};
ghost use Rattle.index_spaces.specs.Space.{IsWithin};
ghost use Rattle.index_spaces.specs.Column.{cell_of};
ghost use Rattle.graph_terms.specs.declared.table.Kernel.TheVariants.{Axpy};
ghost use Rattle.graph_meaning.specs.Effect.{wrapped};
ghost use Rattle.kernel_table.specs.Kernels.{HoldsOverSpace, OverSpace, Makes};

use crate::source::source;
use crate::walk::{RunStep, run_of, set_each, write_runs};
use graph_model::graph::Graph;
use index_spaces::column::{Column, ColumnView};
use index_spaces::held::Held;
use index_spaces::space::Space;

/// Adds a multiple of each cell of one column over a space to the cell of another at its point.
pub(crate) fn axpy_column(
    graph: &Graph,
    held: &Held,
    before: Column,
    x: u32,
    s: u32,
    factor: u64,
) -> Column
    requires source { HoldsOverSpace graph.now held.now x s }
    requires target { OverSpace graph.now before s }
    ensures { (y : ℕ) → Makes graph.now held.now before result (Axpy x y s factor) }
{
    let from = source(held, x);
    write_runs(before, graph.space(s), &mut AddScaled { from, factor })
}

/// Adds a multiple of the cell of a column.
#[derive(Drop)]
struct AddScaled<'a> {
    from: ColumnView<'a>,
    factor: u64,
}

impl<'a> RunStep for AddScaled<'a> {
    ghost value = { λ step space p cell. wrapped (cell + wrapped (step.factor * cell_of step.from p)) };

    ghost IsReady = { λ step space k. IsWithin space step.from.space };

    fn write(&mut self, space: &Space, k: usize, cells: &mut [u64]) {
        let values = run_of(&self.from, space, k);
        let factor = self.factor;
        set_each(
            cells,
            |j, cell| cell.wrapping_add(factor.wrapping_mul(values[j])),
        );
    }
}
