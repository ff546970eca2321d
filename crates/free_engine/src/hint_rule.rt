//! The rule of the queue of hints, and the names of its steps and cuts.

ghost use Rattle.std.specs.Prelude.{◌≡◌, ◌<◌};
ghost use Rattle.free_engine.specs.HintRule.{Holds, Saw, first_view, idle_view, with_lines, with_put, with_taken};

use crate::hint_view::HintView;
use crossbeam_queue::protocol::{Lesson, Outcome, Protocol, Split};
use std::marker::{Brand, PhantomData};

/// The rule of the queue.
pub struct QueueRule;

impl Protocol<u32, HintView> for QueueRule {
    ghost holds = { Holds };

    ghost first = { first_view };
}

/// A push at the back, and what is learnt of a queue that was found full.
pub struct Puts;

impl Outcome<u32, HintView> for Puts {
    ghost then = { λ v x w. w ≡ with_put v x };
}

impl Lesson<u32, HintView> for Puts {
    ghost fact = { Saw };
}

/// A pop at the front, and what is learnt of a queue that was found empty.
pub struct Takes;

impl Outcome<u32, HintView> for Takes {
    ghost then = { λ v x w. (w ≡ with_taken v x) × (x < v.lines) };
}

impl Lesson<u32, HintView> for Takes {
    ghost fact = { Saw };
}

/// Below which number the hints of a queue are: the rule itself is one for all queues and cannot name it.
pub trait Bound {
    ghost use Rattle.std.specs.Prelude.{ℕ};

    ghost lines: { ℕ };
}

impl Bound for Brand {
    ghost lines = { 0 };
}

/// The first pass sets the bound, before anything is put in.
pub struct SetsBound<B: Bound> {
    of: PhantomData<B>,
}

impl<B: Bound> Split<HintView> for SetsBound<B> {
    ghost left = { λ v. with_lines B.lines v };

    ghost right = { λ v. idle_view B.lines };
}

/// A pass that has put nothing in and taken nothing is cut off another, which stays as it is.
pub struct Cuts;

impl Split<HintView> for Cuts {
    ghost left = { λ v. v };

    ghost right = { λ v. idle_view v.lines };
}
