//! What is told of a line that has no form: what no line has in it, the forms of its verb and where it leaves them, and the words next to one that is none.
#![tactic(auto)]

mod advice;
pub mod blanks;
pub mod calls;
mod files;
pub mod follow;
mod form;
pub mod hint;
mod left;
mod nearest;
pub mod putting;
pub mod splitting;
mod twice;
mod vocabulary;

pub use advice::line_advice;
pub use form::{FORMS, Form};
