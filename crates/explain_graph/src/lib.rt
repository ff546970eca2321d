//! What the checker says of a graph, and why it is so, as data that can be followed by hand.
#![tactic(auto)]

pub mod causes;
pub mod explanation;
pub mod reasons;
pub mod ways;

pub use causes::{Cause, cause_of};
pub use explanation::{Explanation, explain};
pub use ways::{Way, longest_ways};
