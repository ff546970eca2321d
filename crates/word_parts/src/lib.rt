//! What a run in words begins with, and what it leaves: its first words and slots, room for its end,
//! and the parts that the last words and slots show.
#![tactic(auto)]

mod closed_slots;
mod closed_words;
mod closing;
mod closing_room;
mod freeing;
mod opening;
mod preparing;

pub use closing::leave;
pub use closing_room::ClosingRoom;
pub use opening::{Begun, begin};
