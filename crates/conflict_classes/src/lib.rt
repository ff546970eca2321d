//! Which accesses of lines conflict: the classes of accesses of one column, one space and one mode, and
//! which of these conflict and which are guarded.
#![tactic(auto)]

pub mod clash;
mod class_conflicts;
mod classes;
mod guards;
pub mod lookups;
