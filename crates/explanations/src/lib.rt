//! Why a graph is refused, or why a line of it waits, as certificates that can be followed by hand:
//! paths, cycles, and points that two lines share.
#![tactic(auto)]

pub mod laws;
pub mod meetings;
pub mod paths;
pub mod races;
pub mod reaches;
mod search;
pub mod sections;
mod trail;
