//! Tests of calls that no row of `row_runner` makes, by public calls alone: of the crates below the run, of what explains
//! a graph, and of the command line; and each call that takes memory. It has no code of its own, so that its tests are
//! proved once, and those crates are proved without them.
#![tactic(auto)]

#[cfg(test)]
mod audit_memory_tests;
#[cfg(test)]
mod comment_tests;
#[cfg(test)]
mod explain_memory_tests;
#[cfg(test)]
mod flow_memory_tests;
#[cfg(test)]
mod graph_memory_tests;
#[cfg(test)]
mod graph_tests;
#[cfg(test)]
mod io_tests;
#[cfg(test)]
mod path_tests;
#[cfg(test)]
mod race_tests;
#[cfg(test)]
mod reach_tests;
#[cfg(test)]
mod reader_tests;
#[cfg(test)]
mod session_memory_tests;
#[cfg(test)]
mod timeline_memory_tests;
#[cfg(test)]
mod word_tests;
