//! What a line does to the columns that are held for it, and how ends and arrivals pass on.
#![tactic(auto)]

mod copies;
pub mod effects;
pub mod homes;
pub mod moving;
pub mod passing;
