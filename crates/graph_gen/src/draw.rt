//! Draws.

ghost use Rattle.std.specs.Prelude.{◌≡◌};
ghost use Rattle.graph_gen.specs.MadeGraph.{next_state, row_at, draw_of};

/// The rows of the table of lines.
#[derive(Clone, Copy)]
pub(crate) enum Row {
    /// Fills the column.
    Fill,
    /// Counts up in the column.
    Iota,
    /// Faults where a cell of the column is large.
    Expect,
    /// Ignores what failed in the column.
    Settle,
    /// Copies the column into the other.
    Copy,
    /// Adds the column to the other.
    Sum,
    /// Waits for a user event.
    Event,
    /// Adds the column to the column of the sums, in a section.
    Section,
}

/// What one draw tells.
#[derive(Clone, Copy)]
pub(crate) struct Draw {
    pub(crate) row: Row,
    pub(crate) column: u32,
    pub(crate) other: u32,
    pub(crate) value: u64,
}

/// The state after a draw.
pub(crate) fn next_state(state: u64) -> u64
    ensures { result ≡ next_state state }
{
    state
        .wrapping_mul(6364136223846793005)
        .wrapping_add(1442695040888963407)
}

impl Draw {
    /// What a state tells.
    pub(crate) fn of(state: u64) -> Draw
        ensures { result ≡ draw_of state }
    {
        let upper = state >> 32;
        Draw {
            row: row_at(upper % 8),
            column: (upper / 8 % 8) as u32,
            other: (upper / 64 % 8) as u32,
            value: upper / 65536,
        }
    }
}

/// The row of a number below 8.
fn row_at(number: u64) -> Row
    ensures { result ≡ row_at number }
{
    match number {
        0 => Row::Fill,
        1 => Row::Iota,
        2 => Row::Expect,
        3 => Row::Settle,
        4 => Row::Copy,
        5 => Row::Sum,
        6 => Row::Event,
        _ => Row::Section,
    }
}
