//! The limits of graphs: the greatest quantities that a graph of a format may have.

ghost use Rattle.std.specs.Prelude.{◌≡◌};
ghost use Rattle.graph_terms.specs.Limits.{limits};

use crate::format::Format;
use index_spaces::limits::{
    MAX_INTERVALS, MAX_INTERVALS_OF_THREE, MAX_POINTS, MAX_POINTS_OF_THREE, SpaceLimits,
};

/// The most bytes of a graph's text in formats 1 and 2, also up to its closing line, and of a text
/// that is no graph's.
pub const MAX_TEXT: u64 = 1_048_576;

/// The same in format 3.
pub const MAX_TEXT_OF_THREE: u64 = 16_777_216;

/// The most spaces where the text has more bytes than formats 1 and 2 allow: what fits there, fits in
/// format 3 too.
pub const MAX_SPACES: u64 = 65_536;

/// The most instances in formats 1 and 2.
pub const MAX_INSTS: u64 = 64;

/// The same in format 3.
pub const MAX_INSTS_OF_THREE: u64 = 1_024;

/// The most columns in formats 1 and 2.
pub const MAX_COLUMNS: u64 = 256;

/// The same in format 3.
pub const MAX_COLUMNS_OF_THREE: u64 = 4_096;

/// The most cells of all columns in formats 1 and 2.
pub const MAX_CELLS: u64 = 4_194_304;

/// The same in format 3.
pub const MAX_CELLS_OF_THREE: u64 = 16_777_216;

/// The most reservations in formats 1 and 2.
pub const MAX_LOCKS: u64 = 64;

/// The same in format 3.
pub const MAX_LOCKS_OF_THREE: u64 = 1_024;

/// The most barriers in formats 1 and 2.
pub const MAX_BARRIERS: u64 = 64;

/// The same in format 3.
pub const MAX_BARRIERS_OF_THREE: u64 = 1_024;

/// The most lines in formats 1 and 2.
pub const MAX_LINES: u64 = 8_192;

/// The same in format 3.
pub const MAX_LINES_OF_THREE: u64 = 65_536;

/// The most edges in formats 1 and 2.
pub const MAX_EDGES: u64 = 65_536;

/// The same in format 3.
pub const MAX_EDGES_OF_THREE: u64 = 524_288;

/// The most columns with cells that a line accesses.
pub const MOST_ACCESSES: u32 = 3;

/// The most accesses of a call, and so of a line.
pub const MAX_CALL_ACCESSES: u32 = 8;

/// How many accesses of a call are compared with each other, to tell that two of them meet: more than
/// a call may have, so that a line of a million is refused at once.
pub const MAX_COMPARED_ACCESSES: u32 = 64;

/// The most values of a call.
pub const MAX_CALL_VALUES: u32 = 4;

/// The most events that a merge names in formats 1 and 2.
pub const MAX_EVENTS: u32 = 64;

/// The most events that a merge names in format 3, and the most behind `on`.
pub const MAX_EVENTS_OF_THREE: u32 = 4_096;

/// The most arrivals that a phase counts in formats 1 and 2.
pub const MAX_COUNT: u32 = 8_192;

/// The same in format 3.
pub const MAX_COUNT_OF_THREE: u32 = 65_536;

/// The greatest quantities of a graph.
#[derive(Clone, Copy, Debug, PartialEq, Eq)]
pub struct Limits {
    /// Bytes of the text, also up to its closing line.
    pub text: u64,
    /// Instances.
    pub insts: u64,
    /// Columns of all instances and all data.
    pub columns: u64,
    /// Cells of all columns.
    pub cells: u64,
    /// Reservations.
    pub locks: u64,
    /// Barriers.
    pub barriers: u64,
    /// Operation lines.
    pub lines: u64,
    /// Edges.
    pub edges: u64,
    /// Events that a merge names, and events behind `on`.
    pub events: u32,
    /// Arrivals that a phase counts, and what one arrival counts for.
    pub count: u32,
    /// Intervals and points of one space.
    pub space: SpaceLimits,
}

impl Limits {
    /// The greatest quantities of the graphs of a format.
    pub fn of(format: Format) -> Limits
        ensures { result ≡ limits format }
    {
        match format {
            Format::One => limits_before_three(),
            Format::Two => limits_before_three(),
            Format::Three => limits_of_three(),
        }
    }
}

/// The greatest quantities in formats 1 and 2.
fn limits_before_three() -> Limits
    ensures { result ≡ limits Format.One }
{
    Limits {
        text: MAX_TEXT,
        insts: MAX_INSTS,
        columns: MAX_COLUMNS,
        cells: MAX_CELLS,
        locks: MAX_LOCKS,
        barriers: MAX_BARRIERS,
        lines: MAX_LINES,
        edges: MAX_EDGES,
        events: MAX_EVENTS,
        count: MAX_COUNT,
        space: SpaceLimits {
            intervals: MAX_INTERVALS,
            points: MAX_POINTS,
        },
    }
}

/// The greatest quantities in format 3.
fn limits_of_three() -> Limits
    ensures { result ≡ limits Format.Three }
{
    Limits {
        text: MAX_TEXT_OF_THREE,
        insts: MAX_INSTS_OF_THREE,
        columns: MAX_COLUMNS_OF_THREE,
        cells: MAX_CELLS_OF_THREE,
        locks: MAX_LOCKS_OF_THREE,
        barriers: MAX_BARRIERS_OF_THREE,
        lines: MAX_LINES_OF_THREE,
        edges: MAX_EDGES_OF_THREE,
        events: MAX_EVENTS_OF_THREE,
        count: MAX_COUNT_OF_THREE,
        space: SpaceLimits {
            intervals: MAX_INTERVALS_OF_THREE,
            points: MAX_POINTS_OF_THREE,
        },
    }
}
