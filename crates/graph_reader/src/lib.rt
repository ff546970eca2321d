//! From the text of a graph to the graph.
#![tactic(auto)]

mod calls;
mod decls;
mod forms;
mod item;
pub mod laws;
mod lines;
mod merges;
mod reader;

use graph_terms::why::Why;
pub use reader::{Reading, Unread, read_graph, read_text};

/// Why bytes are not read as a graph.
#[derive(Clone, Copy, Debug, PartialEq, Eq)]
pub enum ReadRefusal {
    Line { number: u32, why: Why },
    NoMemory,
}
