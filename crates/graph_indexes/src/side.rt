//! The two ends of an edge.

ghost use Rattle.std.specs.Prelude.{◌≡◌};
ghost use Rattle.graph_indexes.specs.Rows.{end_of};

use graph_terms::verb::Edge;

/// An end of an edge.
#[derive(Clone, Copy)]
pub enum Side {
    From,
    To,
}

impl Side {
    pub(crate) fn of(self, edge: &Edge) -> u32
        ensures { result ≡ end_of self edge.now }
    {
        match self {
            Side::From => edge.from,
            Side::To => edge.to,
        }
    }
}
