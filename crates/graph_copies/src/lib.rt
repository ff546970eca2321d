//! Copies of declarations and lines, to make graphs that differ from one another in a line.
#![tactic(auto)]

mod decls;
mod lines;
mod lists;

pub use decls::{copy_of_decl, declared};
pub use lines::copy_of_line;
