//! Graphs whose columns are cut.

ghost use Rattle.std.specs.Prelude.{◌≡◌, ◌≤◌, length, true, None, IfOk, IfSome};
ghost use Rattle.piece_graphs.specs.declared.limits.TheConstants.{MAX_PIECES};
ghost use Rattle.column_pieces.specs.Pieces.{ArePieces, graph_of_pieces};
ghost use Rattle.piece_graphs.specs.Uncut.{AreOnce, OneEach, FewEach, AreInOrder, IsUncut};
ghost use Rattle.piece_graphs.specs.Numbered.{AreColumns, has_two};

use crate::built::graph_of_pieces;
use crate::numbered::{ColumnPieces, number};
use crate::over::pieces_over;
use column_parts::find_parts;
use column_pieces::pieces::{Piece, Pieces};
use graph_model::graph::Graph;
use index_spaces::NoMemory;
use std::alloc::Global;

/// A graph whose columns are pieces of those of another.
#[derive(Drop)]
pub struct CutGraph {
    /// The graph of pieces, in format 3.
    pub graph: Graph,
    /// The pieces, each by the number of its column there.
    pub pieces: Pieces,
}

/// The pieces of a graph, and the graph of pieces. A column stays one piece where more than
/// `MAX_COLUMN_PIECES` of its spaces lie apart. `None` where no column has two pieces, where all
/// have more than `MAX_PIECES`, or where the graph of pieces would pass a limit or give a name twice.
/// It has an instance for each space of a piece, with a field for each piece over it.
pub fn cut_columns(alloc: Global, graph: &Graph) -> Result<Option<CutGraph>, NoMemory>
    ensures pieces { IfOk result (λ o. IfSome o (λ x. ArePieces graph.now x.pieces.unions.items x.pieces.pieces.items)) }
    ensures once { IfOk result (λ o. IfSome o (λ x. AreOnce x.pieces.pieces.items)) }
    ensures few_each { IfOk result (λ o. IfSome o (λ x. FewEach x.pieces.pieces.items)) }
    ensures few { IfOk result (λ o. IfSome o (λ x. length x.pieces.pieces.items ≤ MAX_PIECES)) }
    ensures order { IfOk result (λ o. IfSome o (λ x. AreInOrder x.pieces.pieces.items)) }
    ensures graph { IfOk result (λ o. IfSome o (λ x. x.graph ≡ graph_of_pieces graph.now x.pieces.unions.items x.pieces.pieces.items)) }
    ensures cut { IfOk result (λ o. IfSome o (λ x. OneEach x.pieces.pieces.items → ⊥)) }
    ensures none { IfOk result (λ o. o ≡ None → IsUncut graph.now) }
{
    let _ = graph.lines();
    let parts = find_parts(alloc, graph)?;
    let own = pieces_over(alloc, graph, &parts)?;
    if !has_two(&own.lists) {
        return Ok(None);
    }
    match number(alloc, own)? {
        Some(columns) => cut_by(alloc, graph, columns),
        None => Ok(None),
    }
}

/// Whether a column has two pieces.
fn has_two(lists: &[Vec<Piece>]) -> bool
    ensures { result ≡ has_two lists.now }
{
    lists.iter().any(|own| own.len() > 1)
}

/// The graph of these pieces, where it is a graph.
fn cut_by(alloc: Global, graph: &Graph, columns: ColumnPieces) -> Result<Option<CutGraph>, NoMemory>
    requires columns { AreColumns graph.now columns }
    requires two { OneEach columns.pieces.items → ⊥ }
    ensures pieces { IfOk result (λ o. IfSome o (λ x. ArePieces graph.now x.pieces.unions.items x.pieces.pieces.items)) }
    ensures once { IfOk result (λ o. IfSome o (λ x. AreOnce x.pieces.pieces.items)) }
    ensures few_each { IfOk result (λ o. IfSome o (λ x. FewEach x.pieces.pieces.items)) }
    ensures few { IfOk result (λ o. IfSome o (λ x. length x.pieces.pieces.items ≤ MAX_PIECES)) }
    ensures order { IfOk result (λ o. IfSome o (λ x. AreInOrder x.pieces.pieces.items)) }
    ensures graph { IfOk result (λ o. IfSome o (λ x. x.graph ≡ graph_of_pieces graph.now x.pieces.unions.items x.pieces.pieces.items)) }
    ensures cut { IfOk result (λ o. IfSome o (λ x. OneEach x.pieces.pieces.items → ⊥)) }
    ensures none { IfOk result (λ o. o ≡ None → IsUncut graph.now) }
{
    let _ = graph.lines();
    match graph_of_pieces(alloc, graph, &columns)? {
        Some(cut) => Ok(Some(CutGraph {
            graph: cut,
            pieces: Pieces {
                unions: columns.unions,
                pieces: columns.pieces,
            },
        })),
        None => Ok(None),
    }
}
