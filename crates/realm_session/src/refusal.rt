//! Why a graph is not recorded.

/// Why a graph is not recorded. Nothing is changed then.
#[derive(Clone, Copy, Debug, PartialEq, Eq)]
pub enum RecordRefusal {
    /// There would be more than 8,191 lines in all.
    Full,
    /// So many slots are needed, more than there are: one, and one for each line that waits.
    Slots(u32),
    /// Memory ran out.
    NoMemory,
}
