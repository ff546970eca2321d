//! Graphs whose columns are cut into pieces.
#![tactic(auto)]

pub mod laws;
pub mod pieces;
