//! Advice on how to order two lines that race, which is tried before it is given.
#![tactic(auto)]

mod advice;
mod applied;
pub mod form;
mod orders;
mod tried;

pub use advice::advise;
