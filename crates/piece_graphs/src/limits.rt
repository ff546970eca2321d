//! How far columns are cut.

/// The most pieces of all columns of a graph: with more, none is cut.
pub const MAX_PIECES: u32 = 4096;
