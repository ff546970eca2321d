//! What a task uses of memory.

/// Consecutive pieces of memory that a task uses. A task that may change them may read them too.
#[repr(C)]
#[derive(Clone, Copy, PartialEq, Eq, Debug, Drop)]
pub struct Access {
    /// The first piece.
    pub first: u32,
    /// How many pieces.
    pub count: u32,
    /// Whether the task may change them; else it only reads them.
    pub writes: bool,
}
