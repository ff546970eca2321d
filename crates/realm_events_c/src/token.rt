//! What a handle of C holds.

use crate::owed::{Ended, Owed};
use crate::owner::Owner;
use crate::place::Place;
use event_table::Left;
use shared_events::{Receipt, Waiter};

/// What a handle of C holds. `Empty` stands for a moment alone, while the value moves.
#[derive(Drop)]
pub enum Token {
    Place(Place),
    Owner(Owner),
    Pending(Owed),
    Waiter(Waiter),
    Receipt(Receipt),
    Ended(Ended),
    Closed(Left),
    Empty,
}

fn is_send<T: Send>() {}

/// Each kind but `Closed` may go to another thread. It does nothing: it is well typed where that is proved.
pub(crate) fn may_cross() {
    is_send::<Place>();
    is_send::<Owner>();
    is_send::<Owed>();
    is_send::<Waiter>();
    is_send::<Receipt>();
    is_send::<Ended>();
}
