//! What a program does with its streams: it reads its input to the end, and delivers a text with the status by which it ends.
#![tactic(auto)]

pub mod delivery;
pub mod status;

pub use delivery::{flush, put_text, put_too_long};
pub use status::ProgramStatus;
