//! What a graph keeps beside its items, to answer quickly, and lists in which an item stands twice.
#![tactic(auto)]

mod chains;
pub mod counts;
pub mod mark;
pub mod names;
pub mod repeats;
pub mod rows;
pub mod side;
mod stock;
pub mod tables;
