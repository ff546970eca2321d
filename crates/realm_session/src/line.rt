//! What is recorded of a line.

use event_table::Handle;
use graph_terms::outcome::End;

/// The event of a line, and how the line ended.
#[derive(Clone, Copy, Debug, PartialEq, Eq)]
pub struct Line {
    pub handle: Handle,
    pub end: End,
}
