//! Hints that need no memory and no other worker.
ghost use Rattle.std.specs.Prelude.{◌≡◌, ◌<◌, ◌⊎◌, [], ◌∷◌, MatchOption};
ghost use Rattle.free_engine.specs.Rounds.{round_of};

use realm_io::Hints;
use std::marker::Model;
use std::sync::Wait;

/// Each number below a bound once, from some number on, and then those before it. Contracts see the
/// numbers that it has still to give, in order.
#[derive(Drop)]
pub struct Round {
    next: u32,
    lines: u32,
    next_before: u32,
    first: u32,
}

impl Model for Round {
    ghost use Rattle.std.specs.Prelude.{ℕ, List, ◌-◌, ◌++◌};
    ghost use Rattle.std.specs.List.{range_with_len};

    ghost Value = { List ℕ };

    ghost view = { λ r. range_with_len r.next (r.lines - r.next) ++ range_with_len r.next_before (r.first - r.next_before) };
}

impl Round {
    /// The numbers below `lines`, from `first` on, and then from 0. No memory is taken.
    pub fn new(lines: u32, first: u32) -> Round
        requires { (first < lines) ⊎ (lines ≡ 0) }
        ensures { result ≡ round_of lines first }
    {
        Round {
            next: first,
            lines,
            next_before: 0,
            first: first.min(lines),
        }
    }
}

impl Hints for Round {
    /// Does nothing.
    fn push<R: Wait>(&mut self, _rt: &R, _line: u32)
        ensures { self.new ≡ self.old }
    {}

    /// The first of the numbers that are left, and `None` exactly where none is left.
    fn take<R: Wait>(&mut self, _rt: &R) -> Option<u32>
        ensures { MatchOption result ((self.old ≡ []) × (self.new ≡ [])) (λ k. self.old ≡ k ∷ self.new) }
    {
        if self.next < self.lines {
            self.next += 1;
            return Some(self.next - 1);
        }
        if self.next_before < self.first {
            self.next_before += 1;
            return Some(self.next_before - 1);
        }
        None
    }
}
