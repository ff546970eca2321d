//! What a name stands for.

/// What a name of a graph stands for: a space, a reservation, a barrier or a line by its number,
/// or an instance or data by the number of its declaration.
#[derive(Clone, Copy, Debug, PartialEq, Eq)]
pub enum Found {
    Space(u32),
    Inst(u32),
    Data(u32),
    Lock(u32),
    Barrier(u32),
    Line(u32),
}
