//! What holds of all graphs, for callers to cite. No function here does anything.

ghost use Rattle.explanations.specs.Paths.{PathsAreLists};

/// The paths of a graph are the lists of edges that are paths.
pub fn paths_are_lists()
    ensures { PathsAreLists }
{}
