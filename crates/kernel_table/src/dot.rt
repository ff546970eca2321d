//! Dot: the sum of the products of two columns.

ghost use Rattle.std.specs.Prelude.{ℕ, ◌≡◌, ◌+◌, ◌*◌, ◌<◌, length, map, sum, slice_index};
ghost use Rattle.index_spaces.specs.Space.{IsWithin, points};
ghost use Rattle.basics.specs.Lists.{numbers_below};
ghost use Rattle.index_spaces.specs.Column.{cell_of};
ghost use Rattle.graph_terms.specs.declared.table.Kernel.TheVariants.{Dot};
ghost use Rattle.graph_meaning.specs.Effect.{wrapped, wrapped_sum};
ghost use Rattle.kernel_table.specs.Kernels.{HoldsOverSpace, OverSpace, Makes};

use crate::source::source;
use crate::walk::{RunStep, set_each, write_runs};
use graph_model::graph::Graph;
use index_spaces::column::{Column, ColumnView};
use index_spaces::held::Held;
use index_spaces::laws::{points_are_listed, runs_of_spaces};
use index_spaces::space::Space;

/// Adds the sum of the products of two columns over `s` to each cell over `t`.
pub(crate) fn dot_column(
    graph: &Graph,
    held: &Held,
    before: Column,
    x: u32,
    y: u32,
    s: u32,
    t: u32,
) -> Column
    requires one { HoldsOverSpace graph.now held.now x s }
    requires other { HoldsOverSpace graph.now held.now y s }
    requires target { OverSpace graph.now before t }
    ensures { (z : ℕ) → Makes graph.now held.now before result (Dot x y z s t) }
{
    points_are_listed();
    let one = source(held, x);
    let other = source(held, y);
    let value = dot_points(&one, &other, graph.space(s));
    write_runs(before, graph.space(t), &mut AddValue { value })
}

pub(crate) fn dot_points(x: &ColumnView<'_>, y: &ColumnView<'_>, space: &Space) -> u64
    requires one { IsWithin space.now x.now.space }
    requires other { IsWithin space.now y.now.space }
    ensures { result ≡ wrapped_sum (λ p. cell_of x.now p * cell_of y.now p) (points space.now) }
{
    runs_of_spaces();
    let mut so_far = 0;
    for interval in space.intervals() {
        so_far = add_products(x.run(*interval), y.run(*interval), so_far);
    }
    so_far
}

/// The sum of a first value and the products of values at the same place, modulo 2^64.
fn add_products(one: &[u64], other: &[u64], first: u64) -> u64
    requires { length one.now ≡ length other.now }
    ensures { result ≡ wrapped (first
        + sum (map (λ k. slice_index one.now k * slice_index other.now k) (numbers_below (length one.now)))) }
{
    let mut so_far = first;
    for k in 0..one.len() {
        so_far = so_far.wrapping_add(one[k].wrapping_mul(other[k]));
    }
    so_far
}

/// Adds a value to each cell.
#[derive(Drop)]
struct AddValue {
    value: u64,
}

impl RunStep for AddValue {
    ghost value = { λ step space p cell. wrapped (cell + step.value) };

    ghost IsReady = { λ step space k. Unit {0} };

    fn write(&mut self, _space: &Space, _k: usize, cells: &mut [u64]) {
        let value = self.value;
        set_each(cells, |_, cell| cell.wrapping_add(value));
    }
}
