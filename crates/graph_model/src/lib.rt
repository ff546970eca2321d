//! Graphs of operations, each made of items that fit.
#![tactic(auto)]

pub mod graph;
