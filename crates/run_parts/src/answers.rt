//! What calls answer of lines.

/// What an issue answers.
#[derive(Clone, Copy, Debug, PartialEq, Eq)]
pub enum Issue {
    /// This line has got its handle.
    Issued(u32),
    /// No slot is free.
    NoSlot,
    /// No line is left.
    All,
    /// Somebody else is issuing. A core never answers it.
    Other,
}

/// How far a line has come.
#[derive(Clone, Copy, Debug, PartialEq, Eq)]
pub enum Stage {
    Unissued,
    Issued,
    Out,
    Ended,
}

/// What a line can't have yet: a reservation or a column.
#[derive(Clone, Copy, Debug, PartialEq, Eq)]
pub enum Thing {
    Lock(u32),
    Column(u32),
}
