//! How far lines have come.

use graph_terms::outcome::End;

/// How far a line has come, with its end where it has one.
#[derive(Clone, Copy, Debug, PartialEq, Eq)]
pub enum Progress {
    Unissued,
    Issued,
    Out,
    Ended(End),
}
