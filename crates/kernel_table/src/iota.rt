//! Iota: numbers from a value on, along a space.

ghost use Rattle.std.specs.Prelude.{ℕ, ◌≡◌, ◌+◌, ◌<◌, List, length, slice_index};
ghost use Rattle.index_spaces.specs.Space.{rank};
ghost use Rattle.index_spaces.specs.Held.{HeldList};
ghost use Rattle.graph_terms.specs.declared.table.Kernel.TheVariants.{Iota};
ghost use Rattle.graph_meaning.specs.Effect.{wrapped};
ghost use Rattle.kernel_table.specs.Kernels.{OverSpace, Makes};

use crate::walk::{RunStep, set_each, write_runs};
use graph_model::graph::Graph;
use index_spaces::column::Column;
use index_spaces::laws::runs_of_spaces;
use index_spaces::space::Space;

/// Sets each cell over a space to the value and its point's rank.
pub(crate) fn iota_column(graph: &Graph, before: Column, s: u32, value: u64) -> Column
    requires { OverSpace graph.now before s }
    ensures { (held : HeldList) (x : ℕ) → Makes graph.now held before result (Iota x s value) }
{
    write_runs(before, graph.space(s), &mut RanksFrom { value })
}

/// Sets each cell to a value and its point's rank.
#[derive(Drop)]
struct RanksFrom {
    value: u64,
}

impl RunStep for RanksFrom {
    ghost value = { λ step space p cell. wrapped (step.value + rank space p) };

    ghost IsReady = { λ step space k. Unit {0} };

    fn write(&mut self, space: &Space, k: usize, cells: &mut [u64]) {
        runs_of_spaces();
        let start = space.start_of(space.intervals()[k]);
        let first = self.value.wrapping_add(u64::from(start));
        set_each(cells, |j, _| first.wrapping_add(j as u64));
    }
}
