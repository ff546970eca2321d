//! Which word of a refused line is refused, which line above it has ended what that word names, or which word of it that one meets, and which quantity the line brings above its greatest value.
#![tactic(auto)]

mod declared;
mod ends;
pub mod laws;
pub mod limits;
mod meets;
mod operations;
mod outside;
mod places;
mod refused;
mod repeats;
mod seen_words;
mod spelled;

pub use ends::ended_by;
pub use limits::{Quantity, passed_limit};
pub use meets::met_word;
pub use places::{LineWords, WordPlace, place_at};
pub use refused::refused_word;
