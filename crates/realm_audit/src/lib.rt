//! Traces that come from outside: reading their text, and whether they are lawful.
#![tactic(auto)]

mod acquires;
mod ends;
mod faults;
pub mod input_parts;
pub mod lawful;
pub mod laws;
mod prefix;
pub mod reading;
pub mod refusal;
mod sections;
mod writing;

pub use input_parts::{newlines, parts};
pub use lawful::audit;
pub use reading::{TraceRefusal, read_trace};
pub use refusal::AuditRefusal;
pub use writing::put_trace;
