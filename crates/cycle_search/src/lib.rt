//! An order of the lines by their edges, and the least line that has a path to itself.
#![tactic(auto)]

pub mod cycle;
pub mod order;
mod ranks;
