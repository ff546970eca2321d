//! The numbers of the answers.

ghost use Rattle.std.specs.Prelude.{◌≡◌};
ghost use Rattle.realm_tasks_c.specs.Windows.{status_number};

use task_order::status::Status;

/// What was asked for was done.
pub const DONE: u32 = 0;

/// No task may start.
pub const NONE: u32 = 4;

/// Memory ran out.
pub const NO_MEMORY: u32 = 7;

/// The handle is empty.
pub const EMPTY: u32 = 12;

/// There is no such task or piece, the task does not run, or there are as many as there may be.
pub const RANGE: u32 = 15;

/// Tasks are left that have not ended.
pub const WORK_OUT: u32 = 17;

/// The handle that is to be filled holds something.
pub const FILLED: u32 = 21;

/// The number of how far a task has come.
pub(crate) fn status_number(status: Status) -> u32
    ensures { result ≡ status_number status }
{
    match status {
        Status::Waiting => 0,
        Status::Running => 1,
        Status::Done => 2,
        Status::Faulted => 3,
        Status::Cancelled => 4,
    }
}
