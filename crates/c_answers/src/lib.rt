//! What the libraries for C share of their answers beside the numbers: what is told of a text, texts, and how one is
//! handed out in a caller's buffer.
#![tactic(auto)]

pub mod buffer;
pub mod need;
pub mod reading;
pub mod texts;
pub mod verdict;
