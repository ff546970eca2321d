//! Hints of each worker's own, from which the others steal: a deque for each, with a count of how often
//! each number was put in and taken, and a tally of all of them in the end.
#![tactic(auto)]

mod closing;
mod counts;
mod deque;
mod deque_counts;
mod deque_rule;
mod deque_view;
mod home_hints;
mod home_list;
mod home_queues;
mod laws;
mod opening;
mod room;
mod tally;

pub use home_hints::HomeHints;
pub use home_list::HomeList;
pub use home_queues::{HomeQueues, NoMemory};
pub use laws::still_listed;
pub use tally::Tally;
