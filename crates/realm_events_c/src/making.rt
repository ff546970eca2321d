//! Making a table.

ghost use Rattle.std.specs.Arc.{arc_value};
ghost use Rattle.std.specs.Prelude.{◌≡◌, ◌+◌, ◌*◌, ◌≤◌, ◌<◌, [], true, false, IfSome, Some};
ghost use Rattle.shared_events.specs.Seats.{HasNothing};
ghost use Rattle.shared_events.specs.Views.{lists, made_by, shape_of, size_of, taken_of};
ghost use Rattle.realm_events_c.specs.Kinds.{HoldsOwner, IsTableSize};

use crate::owner::Owner;
use crate::place::Place;
use crate::token::Token;
use event_table::limits::{MAX_HANDLES, MAX_SLOTS, MAX_WAITERS};
use shared_events::Events;
use std::alloc::Global;
use std::sync::Arc;

/// Whether a table may have so many slots, waiters and generations.
pub(crate) fn is_table_size(slots: u32, waiters: u32, last_gen: u32) -> bool
    ensures yes { result ≡ true → IsTableSize slots waiters last_gen }
    ensures no { result ≡ false → IsTableSize slots waiters last_gen → ⊥ }
{
    slots > 0
        && slots <= MAX_SLOTS
        && waiters <= MAX_WAITERS
        && slots as u64 * (last_gen as u64 + 1) <= MAX_HANDLES as u64
}

/// The owner of a table in which nothing was created. None comes where memory ran out.
pub(crate) fn new_owner(
    alloc: Global,
    slots: u32,
    waiters: u32,
    last_gen: u32,
) -> Option<Box<Token, Global>>
    requires { IsTableSize slots waiters last_gen }
    ensures { IfSome result (λ b. HoldsOwner (Some b.value) (λ o. ((shape_of (arc_value o.place.events)).slots ≡ slots)
        × ((shape_of (arc_value o.place.events)).waiters ≡ waiters) × ((shape_of (arc_value o.place.events)).last_gen ≡ last_gen)
        × (made_by o.maker ≡ []) × (taken_of o.waiters ≡ 0) × (size_of o.waiters ≡ waiters) × HasNothing (lists o.place.seat))) }
{
    let (events, maker, seat, waiters) = Events::new(alloc, slots, waiters, last_gen).ok()?;
    let events = Arc::new(alloc, events).ok()?;
    let token = Token::Owner(Owner {
        place: Place { events, seat },
        maker,
        waiters,
    });
    Box::new(alloc, token).ok()
}
