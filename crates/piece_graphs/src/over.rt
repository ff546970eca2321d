//! The pieces of each column, over the parts into which its accesses fall.

ghost use Rattle.std.specs.Prelude.{◌≡◌, ◌+◌, ◌<◌, ℕ, length, Contains, IfOk};
ghost use Rattle.graph_terms.specs.Graph.{named_spaces};
ghost use Rattle.column_parts.specs.declared.parts.Part.TheVariants.{Declared};
ghost use Rattle.column_parts.specs.Parts.{spaces_of, AreFound};
ghost use Rattle.piece_graphs.specs.Over.{IsPieceOf, AreOver, AreOwnPieces};

use column_parts::parts::Part;
use column_pieces::pieces::Piece;
use graph_model::graph::Graph;
use index_spaces::NoMemory;
use index_spaces::room::{push, with_room};
use index_spaces::space::Space;
use space_unions::copy_of;
use std::alloc::Global;

/// The pieces of each column, and the unions that some of them are over.
#[derive(Drop)]
pub(crate) struct OwnPieces {
    /// The pieces of each column.
    pub lists: Vec<Vec<Piece>>,
    /// The unions, numbered behind the spaces of the graph.
    pub unions: Vec<Space>,
}

/// The pieces of each column of a graph: one over each part.
pub(crate) fn pieces_over(
    alloc: Global,
    graph: &Graph,
    parts: &[Vec<Part>],
) -> Result<OwnPieces, NoMemory>
    requires { AreFound graph.now (spaces_of graph.now parts.now) (length graph.now.lines) }
    ensures { IfOk result (λ x. AreOwnPieces graph.now x.unions.items x.lists.items) }
{
    let _ = graph.lines();
    let mut unions = Vec::new(alloc);
    let mut lists = with_room(alloc, parts.len())?;
    for column in 0..graph.columns() {
        push(
            &mut lists,
            own_pieces(alloc, graph, &parts[column as usize], column, &mut unions)?,
        )?;
    }
    Ok(OwnPieces { lists, unions })
}

/// The pieces of a column, over its parts. Unions are put behind those of the columns before.
fn own_pieces(
    alloc: Global,
    graph: &Graph,
    own: &[Part],
    column: u32,
    unions: &mut Vec<Space>,
) -> Result<Vec<Piece>, NoMemory>
    requires { (s : ℕ) → Contains own.now (Declared s) → s < length (named_spaces graph.now) }
    ensures { IfOk result (λ v. AreOver graph.now column own.now unions.old.items unions.new.items v.items) }
{
    let mut pieces = with_room(alloc, own.len())?;
    for part in own {
        push(&mut pieces, piece_of(alloc, graph, part, column, unions)?)?;
    }
    Ok(pieces)
}

/// The piece over a part.
fn piece_of(
    alloc: Global,
    graph: &Graph,
    part: &Part,
    column: u32,
    unions: &mut Vec<Space>,
) -> Result<Piece, NoMemory>
    ensures { IfOk result (λ x. IsPieceOf (length (named_spaces graph.now)) column part.now unions.old.items unions.new.items x) }
{
    match part {
        Part::Declared(s) => Ok(Piece { column, space: *s }),
        Part::Union(space) => {
            let _ = space.intervals();
            let number = next_number(graph, unions)?;
            push(unions, copy_of(alloc, space)?)?;
            Ok(Piece {
                column,
                space: number,
            })
        }
    }
}

/// The number of the next union.
fn next_number(graph: &Graph, unions: &[Space]) -> Result<u32, NoMemory>
    ensures { IfOk result (λ s. s ≡ length (named_spaces graph.now) + length unions.now) }
{
    let spaces = graph.spaces();
    // Spaces are numbered by 32 bits.
    if unions.len() > (u32::MAX - spaces) as usize {
        return Err(NoMemory);
    }
    Ok(spaces + unions.len() as u32)
}
