//! The state of a run of a graph as plain data: how far each line has come, where each column is,
//! which reservations are held and what time it is. The definitions stand in `specs/`; the functions
//! of [`laws`] state what is proved of them.
#![tactic(auto)]

pub mod laws;
