//! The last line of each column.

ghost use Rattle.std.specs.Prelude.{◌≡◌, ◌<◌, replicate, None, Some, slice_set};
ghost use Rattle.graph_gen.specs.MadeGraph.{last_of, lasts_after};

use crate::draw::{Draw, Row};
use graph_terms::limits::MAX_LINES;

/// The last line of each of the eight columns, where there is one.
#[derive(Clone, Copy)]
pub(crate) struct Lasts {
    lines: [Option<u32>; 8],
}

impl Lasts {
    /// No column has one.
    pub(crate) fn none() -> Lasts
        ensures { result.lines ≡ replicate 8 None }
    {
        Lasts { lines: [None; 8] }
    }

    /// The last line of a column.
    pub(crate) fn of(&self, column: u32) -> Option<u32>
        requires { column < 8 }
        ensures { result ≡ last_of self.now.lines column }
    {
        self.lines[column as usize]
    }

    /// The last lines after a row whose first line has this number.
    pub(crate) fn after(&self, row: Row, draw: &Draw, first: u32) -> Lasts
        requires few { first < MAX_LINES }
        requires column { draw.now.column < 8 }
        requires other { draw.now.other < 8 }
        ensures { result.lines ≡ lasts_after row draw.now self.now.lines first }
    {
        match row {
            Row::Copy | Row::Sum => self
                .with(draw.column, first + 1)
                .with(draw.other, first + 1),
            Row::Section => self.with(draw.column, first + 3),
            _ => self.with(draw.column, first),
        }
    }

    /// The same but for one column.
    fn with(&self, column: u32, line: u32) -> Lasts
        requires { column < 8 }
        ensures { result.lines ≡ slice_set self.now.lines column (Some line) }
    {
        let mut lines = self.lines;
        lines[column as usize] = Some(line);
        Lasts { lines }
    }
}
