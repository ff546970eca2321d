//! The limits of spaces.

/// The most intervals and points that a space may have where it is declared.
#[derive(Clone, Copy, Debug, PartialEq, Eq)]
pub struct SpaceLimits {
    /// Intervals.
    pub intervals: u32,
    /// Points.
    pub points: u64,
}

/// The most intervals of a space in formats 1 and 2.
pub const MAX_INTERVALS: u32 = 64;

/// The most intervals of a space in format 3.
pub const MAX_INTERVALS_OF_THREE: u32 = 4_096;

/// The most points of a space in formats 1 and 2.
pub const MAX_POINTS: u64 = 1_048_576;

/// The most points of a space in format 3: all that there are.
pub const MAX_POINTS_OF_THREE: u64 = 4_294_967_296;

/// The greatest point that a space may have.
pub const LAST_POINT: u32 = 4_294_967_295;
