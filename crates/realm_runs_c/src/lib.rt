//! Runs of graphs, for callers in C, whose threads perform the lines.
#![tactic(auto)]

mod calls;
mod reporting;
mod running;
mod starting;
