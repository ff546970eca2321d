//! What is answered without a run: of a text that is refused, of a graph that breaks a rule, of an accepted graph, of a
//! graph alone and of a trace behind one. Each answer is a status and a text, which is written and flushed.
#![tactic(auto)]

pub mod accepted;
pub mod auditing;
pub mod evaluating;
mod planning;
mod refusal;
pub mod refusing;
pub mod status;
pub mod summary;
mod unlawful;
pub mod upgrading;
