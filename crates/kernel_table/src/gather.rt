//! Gather: cells picked by the numbers in another column.

ghost use Rattle.std.specs.Prelude.{ℕ, ◌≡◌, ◌<◌, ◌%◌, length, slice_index};
ghost use Rattle.index_spaces.specs.Space.{IsWithin, point_at, space_size};
ghost use Rattle.index_spaces.specs.Column.{cell_of};
ghost use Rattle.graph_terms.specs.declared.table.Kernel.TheVariants.{Gather};
ghost use Rattle.kernel_table.specs.Kernels.{HoldsOverSpace, OverSpace, Makes};

use crate::source::source;
use crate::walk::{RunStep, run_of, write_runs};
use graph_model::graph::Graph;
use index_spaces::column::{Column, ColumnView};
use index_spaces::held::Held;
use index_spaces::laws::{rank_of_point, runs_of_spaces};
use index_spaces::space::Space;

/// Sets each cell over `s` to the cell of `y` at the point whose rank in `t` is the cell of `x`,
/// modulo the number of points there.
pub(crate) fn gather_column(
    graph: &Graph,
    held: &Held,
    before: Column,
    x: u32,
    y: u32,
    s: u32,
    t: u32,
) -> Column
    requires numbers { HoldsOverSpace graph.now held.now x s }
    requires source { HoldsOverSpace graph.now held.now y t }
    requires target { OverSpace graph.now before s }
    ensures { (z : ℕ) → Makes graph.now held.now before result (Gather x y z s t) }
{
    rank_of_point();
    let picks = graph.space(t);
    let _ = picks.intervals();
    let _ = picks.size();
    let numbers = source(held, x);
    let from = source(held, y);
    write_runs(
        before,
        graph.space(s),
        &mut PickedCells {
            numbers,
            from,
            picks,
        },
    )
}

/// Sets each cell to the one that a number picks.
#[derive(Drop)]
struct PickedCells<'a> {
    numbers: ColumnView<'a>,
    from: ColumnView<'a>,
    picks: &'a Space,
}

impl<'a> RunStep for PickedCells<'a> {
    ghost value = { λ step space p cell.
        cell_of step.from (point_at step.picks.now (cell_of step.numbers p % space_size step.picks.now)) };

    ghost IsReady = { λ step space k. IsWithin space step.numbers.space × IsWithin step.picks.now step.from.space };

    fn write(&mut self, space: &Space, k: usize, cells: &mut [u64]) {
        pick_all(
            cells,
            run_of(&self.numbers, space, k),
            &self.from,
            self.picks,
        );
    }
}

/// Writes for each number the cell that it picks: from side by side cells where the space is one
/// interval, and by look-ups otherwise.
fn pick_all(cells: &mut [u64], numbers: &[u64], y: &ColumnView<'_>, picks: &Space)
    requires size { length cells.old ≡ length numbers.now }
    requires within { IsWithin picks.now y.now.space }
    ensures { (k : ℕ) → k < length cells.old → slice_index cells.new k
        ≡ cell_of y.now (point_at picks.now (slice_index numbers.now k % space_size picks.now)) }
{
    runs_of_spaces();
    match picks.intervals() {
        [only] => pick_from(cells, numbers, y.run(*only)),
        _ => pick_each(cells, numbers, y, picks),
    }
}

/// Writes for each number the value at its place, modulo the number of values.
fn pick_from(cells: &mut [u64], numbers: &[u64], values: &[u64])
    requires size { length cells.old ≡ length numbers.now }
    requires some { 0 < length values.now }
    ensures { (k : ℕ) → k < length cells.old → slice_index cells.new k
        ≡ slice_index values.now (slice_index numbers.now k % length values.now) }
{
    let count = values.len() as u64;
    for k in 0..cells.len() {
        cells[k] = values[(numbers[k] % count) as usize];
    }
}

/// Writes for each number the cell that it picks by a look-up.
fn pick_each(cells: &mut [u64], numbers: &[u64], y: &ColumnView<'_>, picks: &Space)
    requires size { length cells.old ≡ length numbers.now }
    requires within { IsWithin picks.now y.now.space }
    ensures { (k : ℕ) → k < length cells.old → slice_index cells.new k
        ≡ cell_of y.now (point_at picks.now (slice_index numbers.now k % space_size picks.now)) }
{
    for k in 0..cells.len() {
        cells[k] = pick(numbers[k], y, picks);
    }
}

/// The cell of the point whose rank is a number modulo the number of points.
fn pick(number: u64, y: &ColumnView<'_>, picks: &Space) -> u64
    requires { IsWithin picks.now y.now.space }
    ensures { result ≡ cell_of y.now (point_at picks.now (number % space_size picks.now)) }
{
    rank_of_point();
    let _ = picks.intervals();
    let rank = number % picks.size();
    y.get(picks.point(rank as u32)).unwrap()
}
