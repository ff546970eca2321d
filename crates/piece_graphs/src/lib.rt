//! The pieces of a graph, and the graph of pieces.
#![tactic(auto)]

mod accepted;
mod built;
mod cut;
mod decls;
pub mod limits;
mod lines;
mod numbered;
mod over;
mod within;

pub use accepted::checked_pieces;
pub use cut::{CutGraph, cut_columns};
