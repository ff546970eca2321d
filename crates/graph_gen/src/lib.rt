//! Graphs that are generated from a seed.
#![tactic(auto)]

mod declarations;
mod draw;
mod lasts;
pub mod laws;
mod line;
pub mod make;
mod row;
