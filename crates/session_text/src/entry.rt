//! The graphs of a session, and their links.

use graph_model::graph::Graph;
use graph_terms::lists::ItemList;
use graph_terms::name::Name;

/// A line that ends a user line of its graph as an operation of an earlier graph ended.
#[derive(Clone, Copy)]
pub struct Link {
    /// Its own name.
    pub line: Name,
    /// The user line that it ends.
    pub user: Name,
    /// The earlier graph.
    pub graph: Name,
    /// The line or the link of that graph.
    pub op: Name,
}

/// A graph with its name and its links.
#[derive(Drop)]
pub struct Entry {
    pub name: Name,
    pub graph: Graph,
    pub links: ItemList<Link>,
}
