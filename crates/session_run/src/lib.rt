//! Running the graphs of a session, one after the other, each with its links as lines.
#![tactic(auto)]

mod ended;
pub mod laws;
mod linking;
mod report;
mod running;
mod session;

pub use ended::Ended;
pub use report::put_session;
pub use running::RanGraph;
pub use session::{RunFault, UnfitGraph, run_session};
