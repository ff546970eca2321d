//! The rule of the lock, and the names of its steps, cuts and joins.

ghost use Rattle.lock_engine.specs.Rule.{Guards, first_view};
ghost use Rattle.lock_engine.specs.Plays.{turns, HasGiven, without_part, one_part, joined, spent_view};

use crate::kept_core::KeptCore;
use crate::view::View;
use atomic_table::{Join, Play, Split, TableRule};
use graph_model::graph::Graph;

/// The rule of the lock.
pub struct Law;

impl<'g> TableRule<Option<KeptCore<'g>>, View, Graph> for Law {
    ghost holds = { Guards };

    ghost first = { first_view };
}

/// The step that takes the turn where it is free.
pub struct Takes;

impl<'g> Play<Option<KeptCore<'g>>, View> for Takes {
    ghost then = { λ _. turns };
}

/// The step that gives the turn back.
pub struct Gives;

impl<'g> Play<Option<KeptCore<'g>>, View> for Gives {
    ghost then = { λ _ m _ n. HasGiven m n };
}

/// A part is cut off a seat.
pub struct Cuts;

impl Split<View> for Cuts {
    ghost left = { without_part };

    ghost right = { one_part };
}

/// A seat's parts go to another seat.
pub struct Joins;

impl Join<View> for Joins {
    ghost both = { joined };

    ghost spent = { spent_view };
}
