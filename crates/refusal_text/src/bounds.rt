//! How much is told at most.

/// Acquires in whose sections a line lies: of more the first are told, and how many more there are.
pub const MAX_SECTIONS: usize = 16;
