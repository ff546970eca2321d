//! The words and lines of the text of a graph: how bytes are cut into words, the kind of an operation
//! line by its words, and what words spell.
#![tactic(auto)]

pub mod calls;
pub mod comments;
pub mod cuts;
pub mod intervals;
pub mod limits;
pub mod names;
pub mod numbers;
pub mod words;
