//! How much is told at most.

/// Bytes of a line, or of a word of one: of a longer one a part is told, with `..` where bytes are left
/// out.
pub const MAX_SHOWN: usize = 200;

/// A word that stands further behind the front of a long line is told without that front.
pub const NEAR_FRONT: usize = 100;

/// Bytes before such a word that are told.
pub const BEFORE_WORD: usize = 32;

/// Edges of a path: of a longer one both ends are told, and how many lie between.
pub const MAX_PATH: usize = 32;

/// Edges of an end of a long path.
pub const HALF_PATH: usize = 16;

/// Names of a refused line: of more the first are told, and how many more there are.
pub const MAX_NAMES: usize = 16;

/// Bytes of an answer: of a longer one the front is told, and a line `..` behind it.
pub const MAX_ANSWER: usize = 65_536;

/// The same where all is asked for.
pub const MAX_WHOLE: usize = 16_777_216;
