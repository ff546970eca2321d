//! Generational events. One slot stands for one untriggered event and for its many earlier
//! generations, and a handle that is kept for any time answers for its own generation.
//!
//! `EventTable` is a table of one thread: a map from handles to answers, with numbered waiters that
//! are placed on pending handles and caught as these end. `Left` is what a closed table leaves: such
//! a map as well, over words that no longer change.
#![tactic(auto)]

mod chain;
mod handle;
mod left;
pub mod limits;
mod room;
mod table;
pub mod word;

pub use handle::{Answer, Fate, Handle, NO_EVENT, Shape, WatchNow};
pub use left::Left;
pub use table::EventTable;

/// Memory ran out.
#[derive(Clone, Copy, Debug, PartialEq, Eq)]
pub struct NoMemory;
