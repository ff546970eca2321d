//! The columns of a graph, each at home, out, or lent by shares to the lines that only read it.
#![tactic(auto)]

pub mod lent;
pub mod lines;
pub mod shared_homes;
