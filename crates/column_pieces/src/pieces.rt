//! Pieces of columns.

use index_spaces::space::Space;

/// The most pieces of one column: where more lie apart, it stays whole.
pub const MAX_COLUMN_PIECES: u32 = 64;

/// A piece of a column: its cells at the points of a space.
#[derive(Clone, Copy, Debug, PartialEq, Eq)]
pub struct Piece {
    /// The number of the column.
    pub column: u32,
    /// The number of the space: a declared one, or a union, which are numbered behind those.
    pub space: u32,
}

/// The pieces of the columns of a graph.
#[derive(Drop)]
pub struct Pieces {
    /// The unions that pieces are over, numbered behind the spaces of the graph.
    pub unions: Vec<Space>,
    /// The pieces.
    pub pieces: Vec<Piece>,
}
