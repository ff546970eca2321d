//! What the calls of a window say of the run that its bodies make, for callers to cite: whatever threads take
//! its tasks, the calls of a window make a run of `task_order`. No function here does anything. `X` is what a
//! piece of memory holds.

ghost use Rattle.task_window.specs.Laws.{RunsBegin, InsertsKeepRuns, TakesStart, TakesCancel, BodiesWrite, EndsEnd};

/// Nothing has run in a window without tasks.
pub fn runs_begin<X>()
    ensures { RunsBegin X }
{}

/// A task that is inserted has not started.
pub fn inserts_keep_runs<X>()
    ensures { InsertsKeepRuns X }
{}

/// A task that is taken and is not cancelled starts.
pub fn takes_start<X>()
    ensures { TakesStart X }
{}

/// A task that is taken and is cancelled is over.
pub fn takes_cancel<X>()
    ensures { TakesCancel X }
{}

/// A task that runs changes what it may.
pub fn bodies_write<X>()
    ensures { BodiesWrite X }
{}

/// A task whose body has returned ends.
pub fn ends_end<X>()
    ensures { EndsEnd X }
{}
