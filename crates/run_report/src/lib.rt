//! The report of an outcome, and lines of words.
#![tactic(auto)]

mod report;
mod words;

pub use report::{put_evaluation, put_report};
pub use words::put_words;
