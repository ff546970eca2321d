//! The core of a run: its lines may be taken and put back in any order, with any amount of work
//! out, and where nothing is out and nothing can be taken it is the evaluation of the graph.
#![tactic(auto)]

mod answers;
mod run;
mod work;

pub use answers::Attempt;
pub use event_table::limits::MAX_SLOTS;
pub use run::Core;
pub use run::rest::Resting;
pub use run_parts::{Issue, LineState, RunParts, RunRoom, Stage, StateList, Thing};
pub use work::{Finished, Work};
