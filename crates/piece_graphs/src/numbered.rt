//! The numbers of the pieces of all columns.

ghost use Rattle.std.specs.Prelude.{◌≡◌, ◌<◌, ◌≤◌, [], ◌++◌, ℕ, length, Contains, None, IfOk, IfSome, OnOk};
ghost use Rattle.std.specs.List.Sorted.{IsPermutation, IsNonDecreasingBy};
ghost use Rattle.column_pieces.specs.declared.pieces.Piece.{Piece};
ghost use Rattle.piece_graphs.specs.declared.limits.TheConstants.{MAX_PIECES};
ghost use Rattle.piece_graphs.specs.Uncut.{AreInOrder};
ghost use Rattle.piece_graphs.specs.Numbered.{all_pieces, AreKnown, ArePlaces, AreNumbered, IsPlaced};

use crate::limits::MAX_PIECES;
use crate::over::OwnPieces;
use column_pieces::pieces::Piece;
use index_spaces::NoMemory;
use index_spaces::room::{push, with_room};
use index_spaces::space::Space;
use std::alloc::Global;

/// A piece of a column, as one of those of all columns.
#[derive(Clone, Copy)]
pub(crate) struct Place {
    /// The number of its space.
    pub space: u32,
    /// Its number.
    pub number: u32,
}

/// The pieces of a graph, and their numbers.
#[derive(Drop)]
pub(crate) struct ColumnPieces {
    /// The unions that some of them are over.
    pub unions: Vec<Space>,
    /// The pieces of all columns, in the order of their spaces: those over one space follow one another.
    pub pieces: Vec<Piece>,
    /// The pieces of each column, with their numbers.
    pub places: Vec<Vec<Place>>,
}

/// Numbers the pieces of all columns. `None` where there are more than a graph is cut into.
pub(crate) fn number(alloc: Global, own: OwnPieces) -> Result<Option<ColumnPieces>, NoMemory>
    requires known { AreKnown own.lists.items }
    ensures unions { IfOk result (λ o. IfSome o (λ x. x.unions ≡ own.unions)) }
    ensures numbered { IfOk result (λ o. IfSome o (AreNumbered own.lists.items)) }
    ensures none { IfOk result (λ o. o ≡ None → MAX_PIECES < length (all_pieces own.lists.items)) }
{
    match put_together(alloc, &own.lists)? {
        Some(pieces) => Ok(Some(with_places(alloc, own, pieces)?)),
        None => Ok(None),
    }
}

/// The same, over the pieces of all columns.
fn with_places(
    alloc: Global,
    own: OwnPieces,
    mut pieces: Vec<Piece>,
) -> Result<ColumnPieces, NoMemory>
    requires known { AreKnown own.lists.items }
    requires pieces { pieces.items ≡ all_pieces own.lists.items }
    requires few { length pieces.items ≤ MAX_PIECES }
    ensures unions { IfOk result (λ x. x.unions ≡ own.unions) }
    ensures numbered { IfOk result (AreNumbered own.lists.items) }
{
    put_in_order(&mut pieces)?;
    let places = places_of(alloc, own.lists.len(), &pieces)?;
    Ok(ColumnPieces {
        unions: own.unions,
        pieces,
        places,
    })
}

/// The pieces of all columns, one column after another. `None` where there are more than a graph is
/// cut into.
fn put_together(alloc: Global, lists: &[Vec<Piece>]) -> Result<Option<Vec<Piece>>, NoMemory>
    ensures pieces { IfOk result (λ o. IfSome o (λ v. v.items ≡ all_pieces lists.now)) }
    ensures few { IfOk result (λ o. IfSome o (λ v. length v.items ≤ MAX_PIECES)) }
    ensures none { IfOk result (λ o. o ≡ None → MAX_PIECES < length (all_pieces lists.now)) }
{
    let mut pieces: Vec<Piece> = Vec::new(alloc);
    for own in lists {
        put_all(&mut pieces, own)?;
        if pieces.len() > MAX_PIECES as usize {
            return Ok(None);
        }
    }
    Ok(Some(pieces))
}

/// Puts the pieces of a column at the end.
fn put_all(pieces: &mut Vec<Piece>, own: &[Piece]) -> Result<(), NoMemory>
    ensures { OnOk result (pieces.new.items ≡ pieces.old.items ++ own.now) }
{
    match pieces.extend_from_slice(own) {
        Ok(()) => Ok(()),
        Err(_) => Err(NoMemory),
    }
}

/// Puts pieces in the order of their spaces. Those over one space stay in the order of their columns.
fn put_in_order(pieces: &mut Vec<Piece>) -> Result<(), NoMemory>
    ensures same { IsPermutation pieces.old.items pieces.new.items }
    ensures order { OnOk result (AreInOrder pieces.new.items) }
{
    match pieces.sort_by_key(|piece| piece.space) {
        Ok(()) => Ok(()),
        Err(_) => Err(NoMemory),
    }
}

/// The pieces of each of so many columns, with their numbers.
fn places_of(alloc: Global, columns: usize, pieces: &[Piece]) -> Result<Vec<Vec<Place>>, NoMemory>
    requires known { (x : Piece) → Contains pieces.now x → x.column < columns }
    requires few { length pieces.now ≤ MAX_PIECES }
    ensures { IfOk result (λ v. ArePlaces columns pieces.now v.items) }
{
    let mut places = no_places(alloc, columns)?;
    for k in 0..pieces.len() {
        put_place(&mut places, pieces[k], k as u32)?;
    }
    Ok(places)
}

/// Columns without pieces.
fn no_places(alloc: Global, columns: usize) -> Result<Vec<Vec<Place>>, NoMemory>
    ensures { IfOk result (λ v. ArePlaces columns [] v.items) }
{
    let mut places = with_room(alloc, columns)?;
    for _column in 0..columns {
        push(&mut places, Vec::new(alloc))?;
    }
    Ok(places)
}

/// Puts a piece with its number behind those of its column.
fn put_place(places: &mut Vec<Vec<Place>>, piece: Piece, number: u32) -> Result<(), NoMemory>
    requires { piece.column < length places.old.items }
    ensures { OnOk result (IsPlaced places.old.items places.new.items piece number) }
{
    push(
        &mut places[piece.column as usize],
        Place {
            space: piece.space,
            number,
        },
    )
}
