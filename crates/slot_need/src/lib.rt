//! The need of a graph: how many slots serve any run of it, and at which line so many may be open.
#![tactic(auto)]

mod high_numbers;
pub mod need;
mod reservations;
