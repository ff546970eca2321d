//! What a seat knows and has. No value of it is made: contracts alone speak of it.

ghost use Rattle.std.specs.Prelude.{ℕ, List};
ghost use Rattle.std.specs.Borrow.{ftrue};
ghost use Rattle.event_table.specs.declared.handle.Handle.{Handle};
ghost use Rattle.event_table.specs.declared.handle.Fate.{Fate};
ghost use Rattle.event_table.specs.declared.handle.Shape.{Shape};

use std::marker::Model;

// The lists from `seen` to `saw` only grow. The others are rights, which are moved and never copied.
/// What a seat at the table knows and has.
pub struct View {
    // The key of the table. A seat that was joined away has none.
    pub ghost keys: { List Shape },
    pub ghost seen: { List Handle },
    pub ghost known: { List (Handle × Fate) },
    pub ghost placed: { List (ℕ × Handle) },
    pub ghost given: { List (ℕ × Handle) },
    pub ghost emptied: { List Handle },
    pub ghost left: { List Handle },
    // Handles that it found to have ended, of whatever fate.
    pub ghost past: { List Handle },
    // Of each load the slot, and how many creates and ends it had had.
    pub ghost saw: { List (ℕ × ℕ) },
    // 1 where it may create.
    pub ghost makes: { ℕ },
    // What the Maker made, in order.
    pub ghost made: { List Handle },
    // Slots that the Maker found free, with their word.
    pub ghost spare: { List (ℕ × ℕ) },
    // What it may end.
    pub ghost rights: { List Handle },
    // Those of them that it has marked as poisoned.
    pub ghost marked: { List Handle },
    // Waiters in its hand, each with what its link word holds.
    pub ghost hand: { List (ℕ × ℕ) },
    // The handle whose chain it has taken, and what is left of the chain.
    pub ghost chased: { List Handle },
    pub ghost caught: { List ℕ },
}

impl Model for View {
    ghost also_owns = { λ _. ftrue };
}
