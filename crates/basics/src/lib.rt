//! What crates of several layers share: numbers that words spell, and facts on lists, counts
//! and sums.
#![tactic(auto)]

mod numbers;

pub use numbers::number_up_to;
