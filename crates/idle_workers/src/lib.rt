//! How workers that share a run wait where they find no line: a short spin first, then sleep until
//! another worker tells them of more. Nothing rests on it but speed, and it is meant that no worker sleeps for
//! ever while others leave: a worker that looks in vain or leaves early changes no outcome.
#![tactic(auto)]

mod spinning;
mod waiting;

pub use spinning::spin;
pub use waiting::Waiting;
