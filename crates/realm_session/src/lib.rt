//! The events of many graphs, one after the other, in one table of events whose slots serve again.
//!
//! A `Session` has the table, and its one `Recorder` records graph after graph how their lines ended. A
//! handle of a recorded line answers for its own line for good, whatever its slot has served since, and
//! threads ask for handles by seats of their own while more graphs are recorded.
#![tactic(auto)]

mod entering;
mod limits;
mod line;
mod recorder;
mod refusal;
mod room;
mod session;

pub use event_table::{Answer, Handle, Left, NoMemory};
pub use limits::{LAST_GEN, MAX_RECORDED};
pub use line::Line;
pub use recorder::Recorder;
pub use refusal::RecordRefusal;
pub use session::Session;
pub use shared_events::Seat;
