//! From the text of a session to its graphs and links.
//!
//! A session's text has graphs, one after the other. A link of a graph ends a user line of it as an
//! operation of an earlier graph ended.
#![tactic(auto)]

mod cuts;
pub mod entry;
pub mod laws;
pub mod limits;
mod links;
mod reader;
mod so_far;
mod words;

pub use entry::{Entry, Link};
pub use links::find_line;
pub use reader::read_session;
