//! Hist: how often each rank comes among the numbers of a column.

ghost use Rattle.std.specs.Prelude.{ℕ, ◌≡◌, ◌+◌, ◌%◌, ◌==◌, cond, length, count_by};
ghost use Rattle.index_spaces.specs.Space.{IsWithin, points, rank, space_size};
ghost use Rattle.index_spaces.specs.Column.{cell_of};
ghost use Rattle.index_spaces.specs.Run.{WritesPoints};
ghost use Rattle.graph_terms.specs.declared.table.Kernel.TheVariants.{Hist};
ghost use Rattle.graph_meaning.specs.Effect.{wrapped};
ghost use Rattle.kernel_table.specs.Kernels.{HoldsOverSpace, OverSpace, Makes, column_over};

use crate::source::source;
use graph_model::graph::Graph;
use index_spaces::column::{Column, ColumnParts, ColumnView};
use index_spaces::held::Held;
use index_spaces::laws::{
    cells_are_written, point_of_rank, points_are_listed, rank_of_point, runs_of_spaces,
};
use index_spaces::space::Space;

/// Adds to the cell of each point of `t` how many of the other column's numbers over `s` are its
/// rank, modulo the number of points of `t`.
pub(crate) fn hist_column(
    graph: &Graph,
    held: &Held,
    before: Column,
    x: u32,
    s: u32,
    t: u32,
) -> Column
    requires source { HoldsOverSpace graph.now held.now x s }
    requires target { OverSpace graph.now before t }
    ensures { (y : ℕ) → Makes graph.now held.now before result (Hist x y s t) }
{
    points_are_listed();
    let bins = graph.space(t);
    let _ = bins.intervals();
    hist_points(&source(held, x), before, graph.space(s), bins)
}

fn hist_points(x: &ColumnView<'_>, y: Column, space: &Space, bins: &Space) -> Column
    requires here { IsWithin bins.now y.space }
    requires there { IsWithin space.now x.now.space }
    ensures { WritesPoints y result bins.now (λ q. wrapped (cell_of y q
        + count_by (λ p. cell_of x.now p % space_size bins.now == rank bins.now q) (points space.now))) }
{
    let mut parts = y.into_parts();
    let ColumnParts { space: over, cells } = &mut *parts;
    hist_cells(x, cells, over, space, bins);
    Column::from_parts(parts)
}

/// Counts the numbers of a column over `space` in the cells over `over`.
fn hist_cells(x: &ColumnView<'_>, cells: &mut [u64], over: &Space, space: &Space, bins: &Space)
    requires full { length cells.old ≡ space_size over.now }
    requires here { IsWithin bins.now over.now }
    requires there { IsWithin space.now x.now.space }
    ensures { WritesPoints (column_over over.now cells.old) (column_over over.now cells.new) bins.now
        (λ q. wrapped (cell_of (column_over over.now cells.old) q
        + count_by (λ p. cell_of x.now p % space_size bins.now == rank bins.now q) (points space.now))) }
{
    runs_of_spaces();
    for interval in space.intervals() {
        count_all(x.run(*interval), cells, over, bins);
    }
}

/// Counts each number at the point whose rank it is.
fn count_all(numbers: &[u64], cells: &mut [u64], over: &Space, bins: &Space)
    requires full { length cells.old ≡ space_size over.now }
    requires within { IsWithin bins.now over.now }
    ensures { WritesPoints (column_over over.now cells.old) (column_over over.now cells.new) bins.now
        (λ q. wrapped (cell_of (column_over over.now cells.old) q
        + count_by (λ n. n % space_size bins.now == rank bins.now q) numbers.now)) }
{
    for number in numbers {
        count_one(*number, cells, over, bins);
    }
}

/// Counts a number at the point whose rank it is.
fn count_one(number: u64, cells: &mut [u64], over: &Space, bins: &Space)
    requires full { length cells.old ≡ space_size over.now }
    requires within { IsWithin bins.now over.now }
    ensures { WritesPoints (column_over over.now cells.old) (column_over over.now cells.new) bins.now
        (λ q. cond (number % space_size bins.now == rank bins.now q)
        (wrapped (cell_of (column_over over.now cells.old) q + 1)) (cell_of (column_over over.now cells.old) q)) }
{
    cells_are_written();
    point_of_rank();
    rank_of_point();
    let _ = bins.intervals();
    let _ = over.intervals();
    let rank = number % bins.size();
    let place = over.rank(bins.point(rank as u32)).unwrap() as usize;
    cells[place] = cells[place].wrapping_add(1);
}
