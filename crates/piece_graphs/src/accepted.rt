//! The graph of the pieces of an accepted graph.

ghost use Rattle.std.specs.Prelude.{◌≡◌};
ghost use Rattle.graph_terms.specs.Fits.{IsGraph};
ghost use Rattle.column_pieces.specs.Cut.{IsCut};
ghost use Rattle.column_pieces.specs.Pieces.{ArePieces, graph_of_pieces, cut_of};

use checked_graph::Checked;
use column_pieces::laws::{pieces_are_accepted, pieces_cut};
use column_pieces::pieces::Pieces;
use graph_model::graph::Graph;

/// The graph of the pieces of an accepted graph, which is accepted with the same need.
pub fn checked_pieces(checked: &Checked, graph: Graph, pieces: &Pieces) -> Checked
    requires pieces { ArePieces checked.now.graph pieces.now.unions.items pieces.now.pieces.items }
    requires graph { graph ≡ graph_of_pieces checked.now.graph pieces.now.unions.items pieces.now.pieces.items }
    ensures graph { result.graph ≡ graph_of_pieces checked.now.graph pieces.now.unions.items pieces.now.pieces.items }
    ensures need { result.need ≡ checked.now.need }
    ensures is_cut { IsCut checked.now.graph result.graph (cut_of checked.now.graph pieces.now.unions.items pieces.now.pieces.items) }
    ensures is_graph { IsGraph result.graph }
{
    pieces_are_accepted();
    pieces_cut();
    let _ = checked.graph().lines();
    let _ = graph.lines();
    Checked::new(graph, checked.need())
}
