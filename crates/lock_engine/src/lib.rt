//! A run by several workers, which take turns at one core.
#![tactic(auto)]

mod calls;
mod kept_core;
mod later_lines;
mod lock;
mod next_line;
mod notes;
mod plays;
mod search;
mod sleepers;
mod turn;
mod view;
mod workers;

pub use turn::{Turn, run_turn};
