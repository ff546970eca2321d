//! Tests of `realm_top::realm` that no row makes: gates that look at the workers of a run, and each call of `realm` that
//! takes memory. It has no code of its own. The tests of engines stand apart, so that they don't wait for `realm_top`.
#![tactic(auto)]

#[cfg(test)]
mod gate_tests;
#[cfg(test)]
mod realm_memory_tests;
#[cfg(test)]
mod row;
