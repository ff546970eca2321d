//! What is told of a word that is refused: what kind of word stands there, and how that is spelled.
#![tactic(auto)]

mod marked;
mod order;
mod slot;

pub use marked::word_advice;
pub use order::OrderFault;
pub use slot::Slot;
