//! The limits of a session's text.

/// The most graphs.
pub const MAX_GRAPHS: u32 = 64;

/// The most operation lines and links of all graphs.
pub const MAX_SESSION_LINES: u32 = 8_191;
