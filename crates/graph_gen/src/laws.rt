//! What holds of all generated graphs, for callers to cite. No function here does anything.

ghost use Rattle.graph_gen.specs.Laws.{HaveTheirSize, AreAccepted};

/// A generated graph is a graph, and has as many lines as its size says.
pub fn made_graphs_have_their_size()
    ensures { HaveTheirSize }
{}

/// A generated graph is accepted: the six rules hold.
pub fn made_graphs_are_accepted()
    ensures { AreAccepted }
{}
