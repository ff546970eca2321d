//! Why the rows are not run to their end.

use std::alloc::{AllocError, AllocFailed};
use std::io;

/// Why the rows are not run to their end.
#[derive(Drop)]
pub(crate) enum Fault {
    /// The standard input can't be read, or is no text.
    Input,
    /// A line of the file that can't be read, by its number, and why.
    Line(u32, &'static str),
    /// Memory ran out, or the standard output failed.
    Io(io::Error),
}

impl From<io::Error> for Fault {
    fn from(error: io::Error) -> Fault {
        Fault::Io(error)
    }
}

impl From<AllocError> for Fault {
    fn from(error: AllocError) -> Fault {
        Fault::Io(io::Error::from(error))
    }
}

impl<T: Drop> From<AllocFailed<T>> for Fault {
    fn from(failed: AllocFailed<T>) -> Fault {
        Fault::from(AllocError::from(failed))
    }
}
