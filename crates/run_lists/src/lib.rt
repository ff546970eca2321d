//! The lists of a run, by line, column and reservation: the events of its lines, the values of
//! phases, who holds the reservations, which lines took the columns, what sources say of a line.
#![tactic(auto)]

pub mod columns;
pub mod events;
pub mod holders;
pub mod lists;
pub mod phases;
pub mod sources;
