//! The limits of sessions.

/// The most lines that a session records, of all its graphs. A slot serves at most so often, so that
/// none retires.
pub const MAX_RECORDED: u32 = 8_191;

/// The last generation of a slot, from 0.
pub const LAST_GEN: u32 = 8_191;
