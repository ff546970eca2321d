//! The parts into which the accesses of a column fall.
#![tactic(auto)]

mod accessed;
mod column;
mod found;
pub mod parts;
mod wholes;

pub use found::find_parts;
