//! A table of generational events that threads share with no lock: creating, watching, ending and
//! looking are single steps on words, of which none waits. What it leaves at its end is a map from
//! handles to answers, as a table of one thread is.
#![tactic(auto)]

mod ending;
mod events;
mod giving;
mod laws;
mod looking;
mod making;
mod plays;
mod tokens;
mod view;
mod watching;

pub use events::Events;
pub use laws::{one_place, pending_while_held};
pub use tokens::{Caught, Maker, Pending, Receipt, Seat, Waiter, WaiterSet, Watch};
pub use view::View;
