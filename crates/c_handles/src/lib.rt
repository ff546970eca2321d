//! What the libraries for C share of their handles: a pointer that owns a box, or is null. The handles themselves
//! stand in those libraries, since C takes no struct with type parameters.
#![tactic(auto)]

mod box_or_null;
mod parts;

pub use box_or_null::BoxOrNull;
pub use parts::Parts;
