//! The evaluation of a graph on one thread: again and again the lowest line that is ready ends.
#![tactic(auto)]

pub mod evaluation;
mod numbers;
mod perform;
mod phases;
mod state;
mod waiting;
