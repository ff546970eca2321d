//! What the checker says of a text, and why it is so, as text for people.
#![tactic(auto)]

mod accepted;
pub mod answer;
mod columns;
mod fields;
pub mod flows;
mod missing;
pub mod program;

pub use answer::{Answer, Verdict, explain_bytes, explain_in};
pub use flows::explain_input;
pub use program::{Status, run};
