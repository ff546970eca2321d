//! What a pass at a deque of hints knows. No value of it is made: contracts alone speak of it.

ghost use Rattle.std.specs.Prelude.{ℕ, List};
ghost use Rattle.std.specs.Borrow.{ftrue};

use std::marker::Model;

/// What a pass knows of one deque, and what it has done there.
pub struct DequeView {
    // Below which number each hint in the deque is. Nothing may be put in while it is 0.
    pub ghost lines: { ℕ },
    // How many of the nine shares in the deque it has. A pass with none has done nothing, so one with all
    // nine has done all that was done.
    pub ghost shares: { ℕ },
    // What it put in and what it took, in order.
    pub ghost put: { List ℕ },
    pub ghost taken: { List ℕ },
}

impl Model for DequeView {
    ghost also_owns = { λ _. ftrue };
}
