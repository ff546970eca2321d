//! Puts the columns of pieces together.

ghost use Rattle.std.specs.Prelude.{◌≡◌, length, map, IfOk};
ghost use Rattle.basics.specs.Lists.{numbers_below};
ghost use Rattle.index_spaces.specs.Space.{space_size, IsWithin};
ghost use Rattle.index_spaces.specs.Column.{cell_of};
ghost use Rattle.index_spaces.specs.Run.{WritesPoints};
ghost use Rattle.graph_terms.specs.Graph.{columns};
ghost use Rattle.graph_meaning.specs.Effect.{zero_cells};
ghost use Rattle.graph_meaning.specs.Evaluation.{column_of};
ghost use Rattle.column_pieces.specs.Joined.{joined, joined_column};
ghost use Rattle.column_pieces.specs.Pieces.{ArePieces, cut_of};
ghost use Rattle.joined_columns.specs.Over.{AreOver};

use column_pieces::pieces::{Piece, Pieces};
use graph_model::graph::Graph;
use graph_terms::lists::ColumnList;
use graph_terms::outcome::Outcome;
use index_spaces::NoMemory;
use index_spaces::column::Column;
use index_spaces::laws::{rank_of_point, runs_of_spaces, spaces_are_written};
use index_spaces::room::{push_within, with_room};
use index_spaces::space::Space;
use std::alloc::Global;

/// The outcome of a graph of pieces with columns in place of pieces. A cell is that of its piece, and 0
/// where no piece has it. Ends, answers, phases and the trace are moved.
pub fn join(
    alloc: Global,
    graph: &Graph,
    cut: &Pieces,
    mut outcome: Outcome,
) -> Result<Outcome, NoMemory>
    requires pieces { ArePieces graph.now cut.now.unions.items cut.now.pieces.items }
    requires over { AreOver graph.now cut.now.unions.items cut.now.pieces.items outcome.columns }
    ensures { IfOk result (λ o. o ≡ joined graph.now (cut_of graph.now cut.now.unions.items cut.now.pieces.items) outcome) }
{
    outcome.columns = joined_columns(alloc, graph, &cut.unions, &cut.pieces, &outcome.columns)?;
    Ok(outcome)
}

/// The columns of a graph with the cells of its pieces. The last piece is put first: where two have a
/// cell, it is that of the first.
fn joined_columns(
    alloc: Global,
    graph: &Graph,
    unions: &[Space],
    pieces: &[Piece],
    parts: &ColumnList,
) -> Result<ColumnList, NoMemory>
    requires pieces { ArePieces graph.now unions.now pieces.now }
    requires over { AreOver graph.now unions.now pieces.now parts.now }
    ensures { IfOk result (λ joined. joined ≡
        map (joined_column graph.now (cut_of graph.now unions.now pieces.now) parts.now) (numbers_below (length (columns graph.now)))) }
{
    rank_of_point();
    let _ = graph.lines();
    let _ = graph.columns();
    let mut joined = zeroed_columns(alloc, graph)?;
    let mut left = parts.len();
    while left > 0 {
        left -= 1;
        let column = pieces[left as usize].column as usize;
        put_part(&mut joined[column], parts.at(left));
    }
    Ok(ColumnList { items: joined })
}

/// The columns of a graph, each cell 0.
fn zeroed_columns(alloc: Global, graph: &Graph) -> Result<Vec<Column>, NoMemory>
    ensures { IfOk result (λ zeroed. zeroed.items ≡ map (column_of graph.now zero_cells) (numbers_below (length (columns graph.now)))) }
{
    let count = graph.columns();
    let mut zeroed = with_room(alloc, count as usize)?;
    for c in 0..count {
        let column = Column::zeroed(alloc, graph.column_space(c))?;
        push_within(&mut zeroed, column);
    }
    Ok(zeroed)
}

/// Writes the cells of a part of a column into it.
fn put_part(whole: &mut Column, part: &Column)
    requires { IsWithin part.now.space whole.old.space }
    ensures cells { WritesPoints whole.old whole.new part.now.space (cell_of part.now) }
    ensures full { length whole.new.cells ≡ space_size whole.new.space }
{
    runs_of_spaces();
    spaces_are_written();
    for interval in part.space().intervals() {
        whole.copy_run(&part.view(), *interval);
    }
    let _ = whole.space();
}
