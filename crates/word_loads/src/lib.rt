//! What a line holds of its columns: taken with no lock, performed, and put back, with all that ends it.
#![tactic(auto)]

mod loads;
mod performing;
mod putting;
mod taking;

pub use loads::Load;
pub use performing::perform;
pub use putting::{end_event, end_work, free_lock};
pub use taking::take_rest;
