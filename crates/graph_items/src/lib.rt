//! What an item asks for by itself: the edges that a line gives, and the tests that look at no graph.
#![tactic(auto)]

pub mod calls;
pub mod decls;
pub mod edges;
pub mod lines;
