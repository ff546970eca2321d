//! What a core of a run and the words of a run share: how far lines have come, what calls answer of
//! them, the states that a run leaves, and memory for the lists of a core.
#![tactic(auto)]

mod answers;
mod limits;
mod locks;
mod parts;
mod progress;
mod room;
mod states;

pub use answers::{Issue, Stage, Thing};
pub use limits::last_gen_for;
pub use locks::LockState;
pub use parts::RunParts;
pub use progress::Progress;
pub use room::{OutcomeRoom, RunRoom};
pub use states::{LineState, StateList};
