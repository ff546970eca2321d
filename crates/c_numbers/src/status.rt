//! The numbers of the answers: first those that are the program's exit status too, but `NO_ROOM`, then those of the calls
//! on runs, and last those that tell of a handle, or a number, that a call can't be given.

/// What was asked for was done.
pub const DONE: u32 = 0;

/// A number is beyond its limit.
pub const USAGE: u32 = 2;

/// The bytes are no text of a graph, or behind it of a trace.
pub const UNREAD: u32 = 3;

/// The graph breaks a rule.
pub const UNFIT: u32 = 4;

/// The buffer has no room for all of the text.
pub const NO_ROOM: u32 = 6;

/// Memory ran out.
pub const NO_MEMORY: u32 = 7;

/// A run has fewer event slots than its graph needs.
pub const SLOTS: u32 = 8;

/// There are more bytes than a text may have.
pub const TOO_LONG: u32 = 9;

/// The trace is not lawful.
pub const UNLAWFUL: u32 = 10;

/// A line waits for another one.
pub const NOT_YET: u32 = 1;

/// The reservation of a line is with other lines.
pub const BUSY_LOCK: u32 = 2;

/// A column of a line is with another line.
pub const BUSY_COLUMN: u32 = 3;

/// There is none left.
pub const NONE: u32 = 4;

/// Each slot is pending.
pub const FULL: u32 = 5;

/// A line is not issued, is out, or has ended.
pub const OVER: u32 = 9;

/// A line never comes.
pub const NEVER: u32 = 10;

/// A handle holds something of another kind than the call asks for.
pub const WRONG: u32 = 11;

/// A handle is empty.
pub const EMPTY: u32 = 12;

/// A handle was put back or freed. No call here answers it, since none knows what a handle was.
pub const USED_UP: u32 = 13;

/// Work is of another run. No call here answers it.
pub const OTHER_RUN: u32 = 14;

/// The graph has no line, or no column, of this number.
pub const RANGE: u32 = 15;

/// Work is to be put back that was not performed.
pub const UNPERFORMED: u32 = 16;

/// A report is asked for while work is out.
pub const WORK_OUT: u32 = 17;

/// A handle is in a call of another thread. No call here answers it.
pub const IN_USE: u32 = 18;

/// A run has given its report.
pub const REPORTED: u32 = 19;

/// Work was performed before.
pub const PERFORMED: u32 = 20;

/// A handle that is to be filled is not empty.
pub const FILLED: u32 = 21;

/// A closed table of events is used by another thread than the one that closed it. No call here answers it.
pub const OTHER_THREAD: u32 = 23;

/// The loop over a run has left a line that comes. No call here answers it.
pub const FORGOTTEN: u32 = 24;

/// A call of the graph has a word that is not in the table of bodies. No call here answers it.
pub const NO_BODY: u32 = 25;

/// A report is asked for while a call is left whose body was not run.
pub const CALLS_LEFT: u32 = 26;

/// The body of a task calls the runtime that runs it. Neither this nor what follows is answered by a call here.
pub const IN_BODY: u32 = 27;

/// A byte of a datum is in another datum of the runtime.
pub const OVERLAP: u32 = 28;

/// Two uses of a task are of one datum, but for different tiles.
pub const MEET: u32 = 29;

/// A task that was inserted with a datum has not ended, or is of the present window.
pub const NEEDED: u32 = 30;
