//! The graph of pieces, item by item.

ghost use Rattle.std.specs.Prelude.{◌≡◌, ◌++◌, filter, None, IfOk, IfSome};
ghost use Rattle.graph_terms.specs.Fits.{IsGraph};
ghost use Rattle.column_pieces.specs.Pieces.{is_kept, union_decls, graph_of_pieces};
ghost use Rattle.piece_graphs.specs.Items.{of_decls};
ghost use Rattle.piece_graphs.specs.Numbered.{AreColumns};

use crate::decls::{kept_decls, with_pieces, with_unions};
use crate::lines::with_lines;
use crate::numbered::ColumnPieces;
use graph_model::graph::Graph;
use index_spaces::NoMemory;
use std::alloc::Global;

/// The graph of these pieces. `None` exactly where it is no graph.
pub(crate) fn graph_of_pieces(
    alloc: Global,
    graph: &Graph,
    columns: &ColumnPieces,
) -> Result<Option<Graph>, NoMemory>
    requires columns { AreColumns graph.now columns.now }
    ensures some { IfOk result (λ o. IfSome o (λ g. g ≡ graph_of_pieces graph.now columns.now.unions.items columns.now.pieces.items)) }
    ensures none { IfOk result (λ o. o ≡ None → IsGraph (graph_of_pieces graph.now columns.now.unions.items columns.now.pieces.items) → ⊥) }
{
    match kept_decls(alloc, graph)? {
        Some(kept) => with_items(alloc, kept, graph, columns),
        None => Ok(None),
    }
}

/// The same, over the declarations that are kept.
fn with_items(
    alloc: Global,
    kept: Graph,
    graph: &Graph,
    columns: &ColumnPieces,
) -> Result<Option<Graph>, NoMemory>
    requires columns { AreColumns graph.now columns.now }
    requires kept { kept ≡ of_decls (filter is_kept graph.now.decls) }
    ensures some { IfOk result (λ o. IfSome o (λ g. g ≡ graph_of_pieces graph.now columns.now.unions.items columns.now.pieces.items)) }
    ensures none { IfOk result (λ o. o ≡ None → IsGraph (graph_of_pieces graph.now columns.now.unions.items columns.now.pieces.items) → ⊥) }
{
    match with_unions(alloc, kept, &columns.unions)? {
        Some(spaces) => with_instances(alloc, spaces, graph, columns),
        None => Ok(None),
    }
}

/// The same, over these and the unions.
fn with_instances(
    alloc: Global,
    spaces: Graph,
    graph: &Graph,
    columns: &ColumnPieces,
) -> Result<Option<Graph>, NoMemory>
    requires columns { AreColumns graph.now columns.now }
    requires spaces { spaces ≡ of_decls (filter is_kept graph.now.decls ++ union_decls 0 columns.now.unions.items) }
    ensures some { IfOk result (λ o. IfSome o (λ g. g ≡ graph_of_pieces graph.now columns.now.unions.items columns.now.pieces.items)) }
    ensures none { IfOk result (λ o. o ≡ None → IsGraph (graph_of_pieces graph.now columns.now.unions.items columns.now.pieces.items) → ⊥) }
{
    match with_pieces(alloc, spaces, &columns.pieces)? {
        Some(cut) => with_lines(alloc, cut, graph, columns),
        None => Ok(None),
    }
}
