//! What sweeps over the lines of a graph stand on: bits of words, notes of lines, their places in an
//! order, the sections in which they lie.
#![tactic(auto)]

pub mod bits;
pub mod line_sections;
pub mod notes;
pub mod places;
pub mod reservations;
