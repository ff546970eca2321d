//! What holds of all spaces, for callers to cite. No function here does anything.

ghost use Rattle.index_spaces.specs.Laws.{PointsAreListed, PointsAscend, PointOfRank, RankOfPoint, SamePointsSameIntervals, FaultlessPairs, ReversedIsFirst, OrderIsFirst, IntervalsAscend, RunsOfSpaces, RunsAreWritten, CellsAreWritten, EarlierPoints, SpacesAreWritten};

/// A point is listed exactly where an interval has it.
pub fn points_are_listed()
    ensures { PointsAreListed }
{}

/// Each listed point is below the next.
pub fn points_ascend()
    ensures { PointsAscend }
{}

/// A point has a rank below the size, and is the point of that rank.
pub fn point_of_rank()
    ensures { PointOfRank }
{}

/// The point of a rank is in the space, and has that rank.
pub fn rank_of_point()
    ensures { RankOfPoint }
{}

/// Two spaces with the same points have the same intervals.
pub fn same_points_same_intervals()
    ensures { SamePointsSameIntervals }
{}

/// Pairs have no fault exactly where they make a space within the limits.
pub fn faultless_pairs()
    ensures { FaultlessPairs }
{}

/// A pair reported as reversed is the first that is not in place.
pub fn reversed_is_first()
    ensures { ReversedIsFirst }
{}

/// A pair reported as out of order is the first that is not in place, and is not reversed.
pub fn order_is_first()
    ensures { OrderIsFirst }
{}

/// Each interval begins at least two above the end of one before it.
pub fn intervals_ascend()
    ensures { IntervalsAscend }
{}

/// An interval of a space is a run of each space that has its points.
pub fn runs_of_spaces()
    ensures { RunsOfSpaces }
{}

/// A write of the cells at the ranks of a run is a write at its points.
pub fn runs_are_written()
    ensures { RunsAreWritten }
{}

/// A write of the cell at the rank of a point is a write at the point.
pub fn cells_are_written()
    ensures { CellsAreWritten }
{}

/// The points of an interval lie in none of the intervals before it.
pub fn earlier_points()
    ensures { EarlierPoints }
{}

/// A write of the first intervals of a space, and then of the next, is a write of one interval more.
pub fn spaces_are_written()
    ensures { SpacesAreWritten }
{}
