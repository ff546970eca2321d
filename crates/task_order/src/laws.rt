//! What is proved of tasks and of runs of them, for callers to cite. No function here does anything.

ghost use Rattle.task_order.specs.Laws.{DependsByPieces, PathsAreChains, SourcesSuffice, LostBySources, RunsAreSequential, RunsGoOn, SomeRunEnds, RunsStay, HistoriesAreRuns, HistoriesAreSequential};

/// A task depends on those before it with which it conflicts at some piece.
pub fn depends_by_pieces()
    ensures { DependsByPieces }
{}

/// Sources lead from one task to another exactly where dependences do.
pub fn paths_are_chains()
    ensures { PathsAreChains }
{}

/// Where each source of a task that waits no more has ended: if all sources of a task have ended, each
/// task that it depends on has.
pub fn sources_suffice()
    ensures { SourcesSuffice }
{}

/// Where moreover each task that has ended and depends on a lost one was cancelled: a task whose sources
/// have all ended depends on a lost one exactly where one of its sources is lost.
pub fn lost_by_sources()
    ensures { LostBySources }
{}

/// Whatever the memory holds at first, and in whatever order tasks start, change memory and end, a run
/// agrees with the tasks one after the other, if their bodies keep to their accesses. `X` is what a piece
/// of memory holds.
pub fn runs_are_sequential<X>()
    ensures { RunsAreSequential X }
{}

/// Where no task runs, one may start or be cancelled, or all have ended.
pub fn runs_go_on()
    ensures { RunsGoOn }
{}

/// Whatever the bodies do, some run ends.
pub fn some_run_ends<X>()
    ensures { SomeRunEnds X }
{}

/// A run of tasks is a run of these and of any later ones.
pub fn runs_stay<X>()
    ensures { RunsStay X }
{}

/// Each history, in which tasks are inserted while others run, is a run of the tasks inserted so far.
pub fn histories_are_runs<X>()
    ensures { HistoriesAreRuns X }
{}

/// Whenever all tasks inserted so far have ended, they have left all as they do one after the other, if
/// their bodies and those of the tasks inserted later keep to their accesses.
pub fn histories_are_sequential<X>()
    ensures { HistoriesAreSequential X }
{}
