//! Tests of runs: graphs whose lines are attempted in chosen orders, workers with hints of many kinds, and each call of an
//! engine that takes memory; by public calls alone. It has no code of its own, so that its tests are proved once, and the
//! crates below are proved without them.
#![tactic(auto)]

#[cfg(test)]
mod core_tests;
#[cfg(test)]
mod engine_memory_tests;
#[cfg(test)]
mod free_tests;
#[cfg(test)]
mod graphs;
#[cfg(test)]
mod hint_tests;
#[cfg(test)]
mod orders;
#[cfg(test)]
mod outcomes;
#[cfg(test)]
mod piece_tests;
#[cfg(test)]
mod prepared;
#[cfg(test)]
mod turn_tests;
#[cfg(test)]
mod word_tests;
