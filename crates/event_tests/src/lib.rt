//! Tests of what threads share and of who waits for whom, in chosen orders, by public calls alone: tables of events,
//! sessions, hints with a deque for each worker, workers that sleep and a value that is lent; and of spaces. It has no code of its own, so that its tests
//! are proved once, and the crates below are proved without them.
#![tactic(auto)]

#[cfg(test)]
mod asking;
#[cfg(test)]
mod bound_tests;
#[cfg(test)]
mod lending_tests;
#[cfg(test)]
mod memory_tests;
#[cfg(test)]
mod session_tests;
#[cfg(test)]
mod session_thread_tests;
#[cfg(test)]
mod shared_tests;
#[cfg(test)]
mod shared_thread_tests;
#[cfg(test)]
mod space_tests;
#[cfg(test)]
mod steal_tests;
#[cfg(test)]
mod table_tests;
#[cfg(test)]
mod waiting_tests;
