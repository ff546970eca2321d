//! The numbers that the libraries for C answer.
#![tactic(auto)]

pub mod status;
