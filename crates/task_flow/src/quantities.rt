//! The greatest quantities of the graph that is made, by its format.

ghost use Rattle.std.specs.Prelude.{◌≡◌, ◌≤◌};
ghost use Rattle.graph_terms.specs.Limits.{limits};
ghost use Rattle.task_flow.specs.Construction.{most_on};

use graph_terms::format::Format;
use graph_terms::limits::{Limits, MAX_EVENTS_OF_THREE, MAX_LINES, MAX_LINES_OF_THREE};

/// The most lines.
pub(crate) fn most_lines(format: Format) -> u32
    ensures lines { result ≡ (limits format).lines }
    ensures few { result ≤ 65536 }
{
    match format {
        Format::One | Format::Two => MAX_LINES as u32,
        Format::Three => MAX_LINES_OF_THREE as u32,
    }
}

/// The most reservations.
pub(crate) fn most_locks(format: Format) -> u64
    ensures { result ≡ (limits format).locks }
{
    Limits::of(format).locks
}

/// The most events behind the `on` of a line.
pub(crate) fn most_on(format: Format) -> u32
    ensures { result ≡ most_on format }
{
    match format {
        Format::One | Format::Two => 1,
        Format::Three => MAX_EVENTS_OF_THREE,
    }
}
