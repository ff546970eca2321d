//! What holds of changes in columns that are held, for callers to cite. No function here does anything.

ghost use Rattle.graph_meaning.specs.HeldCells.{CellsByPoint, SeenCells, ChangesByPoint, ColumnsOfChanges};

use index_spaces::laws::{point_of_rank, points_are_listed, points_ascend, rank_of_point};

/// A cell of a column that is held is the cell at its point.
pub fn cells_by_point()
    ensures { CellsByPoint }
{
    point_of_rank();
}

/// A line sees the cells of each access that is no sum.
pub fn seen_cells()
    ensures { SeenCells }
{}

/// A write of one held column at the points of a space is a change at each of the points.
pub fn changes_by_point()
    ensures { ChangesByPoint }
{
    points_are_listed();
    points_ascend();
    point_of_rank();
    rank_of_point();
}

/// Columns of a graph with some cells are, after changes, its columns with the cells after them.
pub fn columns_of_changes()
    ensures { ColumnsOfChanges }
{}
