//! What handles of runs and of the work of lines hold, for callers in C, and what is done to it.
#![tactic(auto)]

pub mod calls;
pub mod held;
pub mod inside;
pub mod run;
pub mod token;
pub mod verdicts;
