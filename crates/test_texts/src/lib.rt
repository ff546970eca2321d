//! What the crates of tests share: texts of graphs, their reports, and how a test tells of a call that was refused memory.
#![tactic(auto)]

pub mod generated;
pub mod graphs;
pub mod memory;
pub mod reports;
pub mod tiles;
