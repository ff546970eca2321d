//! What a worker's seat at the lock knows. No value of it is made: contracts alone speak of it.

ghost use Rattle.std.specs.Prelude.{ℕ, Bool, Option};
ghost use Rattle.std.specs.Borrow.{ftrue};
ghost use Rattle.run_core.specs.Core.{CoreValue};

use std::marker::Model;

/// What a seat at the turn lock knows and has.
pub struct View {
    // Its parts of the right to know that nobody else has a line.
    pub ghost parts: { ℕ },
    pub ghost has_turn: { Bool },
    // The core as the seat found it at its turn, or left it at its last one.
    pub ghost core: { CoreValue },
    // The line whose work it has.
    pub ghost line: { Option ℕ },
}

impl Model for View {
    ghost also_owns = { λ _. ftrue };
}
