//! Parts of columns.

use index_spaces::space::Space;

/// The points of some accesses of a column that hang together.
#[derive(Drop)]
pub enum Part {
    /// Those of a declared space, by its number.
    Declared(u32),
    /// Those of several spaces. No access names them all.
    Union(Space),
}
