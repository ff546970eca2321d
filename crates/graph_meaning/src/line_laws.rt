//! What holds of the lines of every graph, for callers to cite. No function here does anything.

ghost use Rattle.graph_meaning.specs.LineLaws.{AccessesAreFew, AccessesFit, AllAccessesAreFew, AllAccessesFit, AccessesAreAmongAll, AccessesWithCells, AccessesOfOneKind, ColumnsDiffer, PhasesFit};

/// A line has few accesses.
pub fn accesses_are_few()
    ensures { AccessesAreFew }
{}

/// An access is of a column and over a space of the graph, and each point of the space is in the
/// column.
pub fn accesses_fit()
    ensures { AccessesFit }
{}

/// A line has few accesses, those to data counted too.
pub fn all_accesses_are_few()
    ensures { AllAccessesAreFew }
{}

/// Each of these is of a column of either kind, and over a space of the graph.
pub fn all_accesses_fit()
    ensures { AllAccessesFit }
{}

/// The accesses of a line to columns with cells are among all its accesses.
pub fn accesses_are_among_all()
    ensures { AccessesAreAmongAll }
{}

/// Those of all its accesses that are of a column with cells are among these.
pub fn accesses_with_cells()
    ensures { AccessesWithCells }
{}

/// A line accesses columns with cells alone, or columns of data alone.
pub fn accesses_of_one_kind()
    ensures { AccessesOfOneKind }
{}

/// No two accesses of a line are of one column.
pub fn columns_differ()
    ensures { ColumnsDiffer }
{}

/// The barrier of a phase is declared.
pub fn phases_fit()
    ensures { PhasesFit }
{}
