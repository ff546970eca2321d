//! Stencil: the sum over a point and its two neighbors.

ghost use Rattle.std.specs.Prelude.{ℕ, ◌≡◌, ◌+◌, ◌-◌, ◌<◌, ◌≤◌, ◌^◌, cond, length, filter, slice_index, IsTrue};
ghost use Rattle.index_spaces.specs.Space.{IsWithin, has_point};
ghost use Rattle.index_spaces.specs.Column.{cell_of};
ghost use Rattle.index_spaces.specs.Run.{IsRun};
ghost use Rattle.graph_terms.specs.declared.table.Kernel.TheVariants.{Stencil};
ghost use Rattle.graph_meaning.specs.Effect.{around, wrapped, wrapped_sum};
ghost use Rattle.kernel_table.specs.Kernels.{HoldsOverSpace, OverSpace, Makes};

use crate::source::source;
use crate::walk::{RunStep, write_runs};
use graph_model::graph::Graph;
use index_spaces::column::{Column, ColumnView};
use index_spaces::held::Held;
use index_spaces::space::Space;

/// Sets each cell over `s` to the sum of the other column's cells at its point and the two beside
/// it, as far as these lie in `r`.
pub(crate) fn stencil_column(
    graph: &Graph,
    held: &Held,
    before: Column,
    x: u32,
    r: u32,
    s: u32,
) -> Column
    requires source { HoldsOverSpace graph.now held.now x r }
    requires target { OverSpace graph.now before s }
    ensures { (y : ℕ) → Makes graph.now held.now before result (Stencil x y r s) }
{
    let from = source(held, x);
    let read = graph.space(r);
    write_runs(before, graph.space(s), &mut WindowSums { from, read })
}

/// Sets each cell to the sum of a column's cells around its point.
#[derive(Drop)]
struct WindowSums<'a> {
    from: ColumnView<'a>,
    read: &'a Space,
}

impl<'a> RunStep for WindowSums<'a> {
    ghost value = { λ step space p cell. wrapped_sum (cell_of step.from) (filter (has_point step.read.now) (around p)) };

    ghost IsReady = { λ step space k. IsWithin step.read.now step.from.space };

    fn write(&mut self, space: &Space, k: usize, cells: &mut [u64]) {
        sum_windows(cells, space.intervals()[k].0, &self.from, self.read);
    }
}

/// Writes the sums for the points from the first on.
fn sum_windows(cells: &mut [u64], first: u32, x: &ColumnView<'_>, read: &Space)
    requires fits { first + length cells.old ≤ 2 ^ 32 }
    requires within { IsWithin read.now x.now.space }
    ensures { (k : ℕ) → k < length cells.old → slice_index cells.new k
        ≡ wrapped_sum (cell_of x.now) (filter (has_point read.now) (around (first + k))) }
{
    let count = cells.len();
    if count > 2 && has_run(read, first, count) {
        sum_run(cells, first, x, read);
    } else {
        sum_each(cells, first, x, read);
    }
}

/// Whether so many points from the first on lie in one interval of a space.
fn has_run(space: &Space, first: u32, count: usize) -> bool
    requires some { 1 ≤ count }
    requires fits { first + count ≤ 2 ^ 32 }
    ensures { IsTrue result → IsRun space.now (first, first + (count - 1)) }
{
    let last = first + (count - 1) as u32;
    let intervals = space.intervals();
    // halving, since a space may have thousands of intervals
    let k = intervals.partition_point(|interval| interval.1 < first);
    k < intervals.len() && intervals[k].0 <= first && last <= intervals[k].1
}

/// Writes the sums for the points of a run of the space that is read: the inner ones from side by
/// side cells, without a look-up each.
fn sum_run(cells: &mut [u64], first: u32, x: &ColumnView<'_>, read: &Space)
    requires some { 2 < length cells.old }
    requires fits { first + length cells.old ≤ 2 ^ 32 }
    requires run { IsRun read.now (first, first + (length cells.old - 1)) }
    requires within { IsWithin read.now x.now.space }
    ensures { (k : ℕ) → k < length cells.old → slice_index cells.new k
        ≡ wrapped_sum (cell_of x.now) (filter (has_point read.now) (around (first + k))) }
{
    let end = cells.len() - 1;
    let last = first + end as u32;
    sum_neighbors(cells, x.run((first, last)));
    cells[0] = window(x, read, first);
    cells[end] = window(x, read, last);
}

/// Writes at each place but the ends the sum of the values there and beside it, modulo 2^64.
fn sum_neighbors(cells: &mut [u64], values: &[u64])
    requires { length cells.old ≡ length values.now }
    ensures { (k : ℕ) → 0 < k → k + 1 < length cells.old → slice_index cells.new k
        ≡ wrapped (slice_index values.now (k - 1) + slice_index values.now k + slice_index values.now (k + 1)) }
{
    for k in 2..cells.len() {
        cells[k - 1] = values[k - 2]
            .wrapping_add(values[k - 1])
            .wrapping_add(values[k]);
    }
}

/// Writes the sums for the points from the first on, each by look-ups.
fn sum_each(cells: &mut [u64], first: u32, x: &ColumnView<'_>, read: &Space)
    requires fits { first + length cells.old ≤ 2 ^ 32 }
    requires within { IsWithin read.now x.now.space }
    ensures { (k : ℕ) → k < length cells.old → slice_index cells.new k
        ≡ wrapped_sum (cell_of x.now) (filter (has_point read.now) (around (first + k))) }
{
    for k in 0..cells.len() {
        cells[k] = window(x, read, first + k as u32);
    }
}

/// The sum of the cells at a point and the two beside it, modulo 2^64, as far as these lie in the
/// space.
fn window(x: &ColumnView<'_>, read: &Space, p: u32) -> u64
    requires { IsWithin read.now x.now.space }
    ensures { result ≡ wrapped_sum (cell_of x.now) (filter (has_point read.now) (around p)) }
{
    let point = u64::from(p);
    let left = if point == 0 {
        0
    } else {
        cell_or_zero(x, read, point - 1)
    };
    let here = cell_or_zero(x, read, point);
    let right = cell_or_zero(x, read, point + 1);
    left.wrapping_add(here).wrapping_add(right)
}

/// The cell of a point that is in the space, and 0 for any other number.
fn cell_or_zero(x: &ColumnView<'_>, read: &Space, q: u64) -> u64
    requires { IsWithin read.now x.now.space }
    ensures { result ≡ cond (has_point read.now q) (cell_of x.now q) 0 }
{
    let _ = read.intervals();
    match u32::try_from(q) {
        Ok(p) => cell_of_point(x, read, p),
        Err(_) => 0,
    }
}

fn cell_of_point(x: &ColumnView<'_>, read: &Space, p: u32) -> u64
    requires { IsWithin read.now x.now.space }
    ensures { result ≡ cond (has_point read.now p) (cell_of x.now p) 0 }
{
    if read.contains(p) {
        x.get(p).unwrap()
    } else {
        0
    }
}
