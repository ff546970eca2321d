//! Tasks in the order of a program: what they mean, when a graph means the same, and the sources of
//! each line, by rows of bits and the uses of the columns.
#![tactic(auto)]

mod asked;
pub mod bits;
mod ends;
pub mod laws;
mod row;
pub mod rows;
pub mod sources;
pub mod ties;
mod uses;
