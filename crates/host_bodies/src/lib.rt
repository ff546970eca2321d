//! A host that performs the operations of a graph itself, on memory of its own and in any order that
//! their preconditions allow. The definitions stand in `specs/`; the functions of [`laws`] state what
//! is proved of them.
#![tactic(auto)]

pub mod laws;
