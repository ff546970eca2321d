//! What the words of a line stand for in the graph above it, each in its place, and what refuses
//! them.
#![tactic(auto)]

pub mod checks;
pub mod events;
pub mod faults;
pub mod known;
pub mod lookup;
pub mod parts;
pub mod recent;
pub mod seen;
