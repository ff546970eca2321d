//! How far a task has come.

/// How far a task has come.
#[derive(Clone, Copy, PartialEq, Eq, Debug, Drop)]
pub enum Status {
    /// It was inserted and has not started.
    Waiting,
    /// Its body runs.
    Running,
    /// Its body has returned.
    Done,
    /// Its body has returned, and said that it failed.
    Faulted,
    /// Its body was not run: a task that it depends on faulted or was cancelled.
    Cancelled,
}
