//! What a run of a graph of pieces gives, put together.
#![tactic(auto)]

pub mod joining;
pub mod laws;
