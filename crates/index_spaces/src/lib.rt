//! Spaces of one dimension, and columns of cells over them.
#![tactic(auto)]

pub mod column;
pub mod held;
pub mod laws;
pub mod limits;
pub mod room;
pub mod shares;
pub mod space;

/// How two values become one.
#[derive(Clone, Copy, Debug, PartialEq, Eq)]
pub enum Op {
    Sum,
    Min,
    Max,
}

/// Memory ran out.
#[derive(Clone, Copy, Debug, PartialEq, Eq)]
pub struct NoMemory;
