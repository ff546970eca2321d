//! What holds of every graph whose columns are cut, for callers to cite. No function here does anything.

ghost use Rattle.column_pieces.specs.Laws.{OutcomeOfPieces, TracesOfPieces, PiecesAreAccepted, PiecesCut, PiecesAreComponents};

use graph_meaning::laws::{changes_within_accesses, later_formats_keep_meaning};

/// The outcome of the graph of pieces, put together, is the outcome of the graph.
pub fn outcome_of_pieces()
    ensures { OutcomeOfPieces }
{
    changes_within_accesses();
}

/// A lawful trace of the graph of pieces is one of the graph.
pub fn traces_of_pieces()
    ensures { TracesOfPieces }
{}

/// Where a graph is accepted, the graph of pieces, in its format or in a later one, is too, with the
/// same need.
pub fn pieces_are_accepted()
    ensures { PiecesAreAccepted }
{
    later_formats_keep_meaning();
}

/// Pieces cut their graph.
pub fn pieces_cut()
    ensures { PiecesCut }
{}

/// A piece is a connected component of what the accesses of its column name, unless that column stays
/// whole.
pub fn pieces_are_components()
    ensures { PiecesAreComponents }
{}
