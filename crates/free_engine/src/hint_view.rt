//! What a pass at the queue of hints knows. No value of it is made: contracts alone speak of it.

ghost use Rattle.std.specs.Prelude.{ℕ, List};
ghost use Rattle.std.specs.Borrow.{ftrue};

use std::marker::Model;

/// What a pass knows of the queue, and what it has done there.
pub struct HintView {
    // Below which number each hint in the queue is. Nothing may be put in while it is 0.
    pub ghost lines: { ℕ },
    // What it put in and what it took, in order.
    pub ghost put: { List ℕ },
    pub ghost taken: { List ℕ },
}

impl Model for HintView {
    ghost also_owns = { λ _. ftrue };
}
