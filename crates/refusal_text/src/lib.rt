//! Why a graph is refused, as text for people, a fact on each line.
#![tactic(auto)]

pub mod bounds;
mod conflict;
mod lines;
mod orders;
mod refused;

pub use refused::put_explanation;
