//! Which of some spaces hang together by points that they have in common.
#![tactic(auto)]

pub mod classes;
pub mod points;
mod spans;
mod sweep;

pub use classes::{classes_of, firsts};
pub use points::points_of;
