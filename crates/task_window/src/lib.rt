//! A window of inserted tasks: which waits for which, which may start, which are cancelled. The order of the
//! tasks and what holds of their runs stand in `task_order`.
#![tactic(auto)]

mod chains;
pub mod laws;
mod links;
mod pieces;
mod queue;
#[cfg(test)]
mod tests;
pub mod window;
