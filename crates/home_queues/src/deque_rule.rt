//! The rule of each deque of hints, and the names of its steps, cuts and joins.

ghost use Rattle.std.specs.Prelude.{◌≡◌, All, ◌<◌};
ghost use Rattle.home_queues.specs.DequeRule.{Holds, first_view, spent_view, with_lines, without_share, one_share, joined, with_put, with_taken, SawEmpty, IsDrained, DrainsOne};

use crate::deque_view::DequeView;
use crossbeam_deque::protocol::{Join, Outcome, Protocol, Split};
use std::marker::{Brand, PhantomData};

/// The rule of a deque.
pub struct DequeRule;

impl Protocol<u32, DequeView> for DequeRule {
    ghost holds = { Holds };

    ghost first = { first_view };

    ghost guest = { spent_view };
}

/// A push at the back.
pub struct Puts;

impl Outcome<u32, DequeView> for Puts {
    ghost then = { λ v xs w. w ≡ with_put v xs };
}

/// A pop at the front by the deque's owner, and what is learnt of a deque that was found empty.
pub struct Takes;

impl Outcome<u32, DequeView> for Takes {
    ghost then = { λ v xs w. (w ≡ with_taken v xs) × All (λ x. x < v.lines) xs };

    ghost empty = { SawEmpty };
}

/// A pop at the front by another.
pub struct Steals;

impl Outcome<u32, DequeView> for Steals {
    ghost then = { λ v xs w. (w ≡ with_taken v xs) × All (λ x. x < v.lines) xs };
}

/// A pop at the front by an owner that has all shares, and what is learnt of a deque that was found empty.
pub struct Drains;

impl Outcome<u32, DequeView> for Drains {
    ghost then = { DrainsOne };

    ghost empty = { IsDrained };
}

/// Below which number the hints of a deque are: the rule itself is one for all deques and cannot name it.
pub trait Bound {
    ghost use Rattle.std.specs.Prelude.{ℕ};

    ghost lines: { ℕ };
}

impl Bound for Brand {
    ghost lines = { 0 };
}

/// The owner sets the bound, before anything is put in.
pub struct SetsBound<B: Bound> {
    of: PhantomData<B>,
}

impl<B: Bound> Split<DequeView> for SetsBound<B> {
    ghost left = { λ v. with_lines B.lines v };

    ghost right = { λ _. spent_view };
}

/// A pass with one share is cut off the owner.
pub struct Cuts;

impl Split<DequeView> for Cuts {
    ghost left = { without_share };

    ghost right = { one_share };
}

/// A pass goes back to the owner.
pub struct Joins;

impl Join<DequeView> for Joins {
    ghost both = { joined };

    ghost spent = { spent_view };
}
