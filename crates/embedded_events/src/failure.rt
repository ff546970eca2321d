//! Why the program ends early.

use event_table::NoMemory;
use std::io;

/// Why the program ends early.
#[derive(Clone, Copy, Debug, PartialEq, Eq)]
pub(crate) enum Failure {
    /// Each slot is pending or retired.
    Full,
    /// Memory ran out.
    NoMemory,
    /// The standard output can't be written.
    Output,
}

impl From<NoMemory> for Failure {
    fn from(_: NoMemory) -> Failure {
        Failure::NoMemory
    }
}

impl From<io::Error> for Failure {
    fn from(_: io::Error) -> Failure {
        Failure::Output
    }
}
