//! Writing the text of a graph, and the words of reports.
#![tactic(auto)]

mod calls;
mod word_kinds;
mod writer;

pub use word_kinds::{put_column_name, put_interval};
pub use writer::put_graph;
