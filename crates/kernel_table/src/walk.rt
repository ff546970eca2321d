//! The walk over the runs of a space that writes a column.

ghost use Rattle.std.specs.Prelude.{◌≡◌, ℕ, ◌+◌, ◌<◌, ◌≤◌, ◌^◌, List, length, map, slice_index};
ghost use Rattle.index_spaces.specs.Space.{interval_points, space_size, IsSpace, IsWithin};
ghost use Rattle.index_spaces.specs.Column.{cell_of};
ghost use Rattle.index_spaces.specs.Laws.{pair_at};
ghost use Rattle.index_spaces.specs.Run.{interval_size, WritesPoints};
ghost use Rattle.kernel_table.specs.Kernels.{column_over};

use index_spaces::column::{Column, ColumnParts, ColumnView};
use index_spaces::laws::{earlier_points, runs_are_written, runs_of_spaces, spaces_are_written};
use index_spaces::space::Space;

/// What is done to the cells of the runs of a space, one run after the other.
pub(crate) trait RunStep {
    // What it writes at a point of the space where this cell was.
    ghost value: { Self → List (ℕ × ℕ) → ℕ → ℕ → ℕ };

    // It may be done next to the run of this number.
    ghost IsReady: { Self → List (ℕ × ℕ) → ℕ → Type 0 };

    /// Writes the cells of the run of number `k`.
    fn write(&mut self, space: &Space, k: usize, cells: &mut [u64])
        requires place { k < length space.now }
        requires ready { IsReady self.old space.now k }
        requires size { length cells.old ≡ interval_size (pair_at space.now k) }
        requires fits { (pair_at space.now k).0 + length cells.old ≤ 2 ^ 32 }
        ensures ready { IsReady self.new space.now (k + 1) }
        ensures same { (p cell : ℕ) → value self.new space.now p cell ≡ value self.old space.now p cell }
        ensures cells { (j : ℕ) → j < length cells.old → slice_index cells.new j
            ≡ value self.old space.now ((pair_at space.now k).0 + j) (slice_index cells.old j) };
}

/// Writes the cells of a column at the points of a space, run by run.
pub(crate) fn write_runs<S: RunStep>(column: Column, space: &Space, step: &mut S) -> Column
    requires within { IsWithin space.now column.space }
    requires ready { S.IsReady step.old space.now 0 }
    ensures is_space { IsSpace space.now }
    ensures written { WritesPoints column result space.now (λ p. S.value step.old space.now p (cell_of column p)) }
{
    let _ = space.intervals();
    let mut parts = column.into_parts();
    let ColumnParts { space: over, cells } = &mut *parts;
    write_cells(over, cells, space, step);
    Column::from_parts(parts)
}

/// Writes the cells over `over` at the points of a space, run by run.
fn write_cells<S: RunStep>(over: &Space, cells: &mut Vec<u64>, space: &Space, step: &mut S)
    requires full { length cells.old.items ≡ space_size over.now }
    requires within { IsWithin space.now over.now }
    requires ready { S.IsReady step.old space.now 0 }
    ensures full { length cells.new.items ≡ space_size over.now }
    ensures written { WritesPoints (column_over over.now cells.old.items) (column_over over.now cells.new.items) space.now
        (λ p. S.value step.old space.now p (cell_of (column_over over.now cells.old.items) p)) }
{
    earlier_points();
    runs_of_spaces();
    runs_are_written();
    spaces_are_written();
    let intervals = space.intervals();
    for k in 0..intervals.len() {
        let start = over.start_of(intervals[k]) as usize;
        let size = (intervals[k].1 - intervals[k].0) as usize + 1;
        step.write(space, k, &mut cells[start..start + size]);
    }
}

/// The cells of a column in the run of number `k` of a space.
pub(crate) fn run_of<'a>(column: &'a ColumnView<'_>, space: &Space, k: usize) -> &'a [u64]
    requires place { k < length space.now }
    requires within { IsWithin space.now column.now.space }
    ensures size { length result.now ≡ interval_size (pair_at space.now k) }
    ensures cells { (j : ℕ) → j < length result.now → slice_index result.now j ≡ cell_of column.now ((pair_at space.now k).0 + j) }
    ensures run { result.now ≡ map (cell_of column.now) (interval_points (pair_at space.now k)) }
{
    runs_of_spaces();
    column.run(space.intervals()[k])
}

/// Sets each cell to what is given for its place and for the cell.
pub(crate) fn set_each<F: Fn(usize, u64) -> u64>(cells: &mut [u64], f: F)
    requires { (k : ℕ) → k < length cells.old → F.pre f k (slice_index cells.old k) }
    ensures { (k : ℕ) → k < length cells.old → F.post f k (slice_index cells.old k) (slice_index cells.new k) }
{
    for k in 0..cells.len() {
        cells[k] = f(k, cells[k]);
    }
}
