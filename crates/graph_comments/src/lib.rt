//! Lines of a text that say nothing: the text without them, and the numbers of the lines that stay.
#![tactic(auto)]

mod bare;
pub mod laws;
mod lines;
mod numbers;

pub use bare::bare_text;
pub use lines::{is_closing, is_comment};
pub use numbers::number_in_whole;
