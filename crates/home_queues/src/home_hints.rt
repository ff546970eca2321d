//! What one worker puts into its own deque and takes out, or steals from the others.
ghost use Rattle.std.specs.Prelude.{◌≡◌, ℕ, ◌+◌, ◌^◌, ◌<◌, ◌≤◌, ◌⊎◌, All, IfNone, IfSome, MatchOption, slice_index, length};
ghost use Rattle.basics.specs.Sums.{total};
ghost use Rattle.home_queues.specs.Hints.{after_pushed, after_taken, after_empty, after_full};
ghost use Rattle.home_queues.specs.Room.{room_for};
ghost use Rattle.home_queues.specs.Parts.{deques_of, IsStealRight, stolen};

use crate::counts::Counts;
use crate::deque::{Owner, StealRight, put, steal, take};
use crate::deque_counts::DequeCounts;
use realm_io::Hints;
use std::marker::Model;
use std::sync::Wait;

/// How many hints a part takes and gives at most, so that no count over eight parts passes 2^63.
pub const MOST: u64 = 1 << 60;

/// One part of the hints: a deque of its own, and the right to steal from the deques of the other seven.
/// Contracts see which deques these are and which of them is its own, below which number its hints are, how
/// often each number was put in and taken here, how many in all, how many pops found its own deque empty,
/// and how many pushes found no free slot there. The last two counts stay at 2^64 - 1.
#[derive(Drop)]
pub struct HomeHints {
    pub(crate) number: u32,
    pub(crate) lines: u32,
    pub(crate) own: Owner,
    pub(crate) rights: Vec<StealRight>,
    pub(crate) pushed: Counts,
    pub(crate) taken: Counts,
    pub(crate) counts: DequeCounts,
}

impl Model for HomeHints {
    ghost use Rattle.home_queues.specs.Hints.{HintsValue};

    ghost Value = { HintsValue };

    ghost use Rattle.home_queues.specs.Parts.{deques_of, IsPart};

    ghost view = { λ a. record {
      deques = deques_of a.rights.items;
      number = a.number;
      lines = a.lines;
      pushed = a.pushed.each;
      pushes = a.pushed.all;
      taken = a.taken.each;
      takes = a.taken.all;
      empty = a.counts.empty;
      full = a.counts.full;
    } };

    ghost invariant = { λ a. IsPart a.number a.lines a.own a.rights.items a.pushed a.taken };
}

impl Hints for HomeHints {
    /// Puts the number in at the back of its own deque. It is dropped where it is not below the bound, where
    /// this part has put in 2^60, and where no free slot was found. That comes only once it has put in as
    /// many as its deque has room for: one for each number below the bound, but not fewer than 64 and not
    /// more than 1,024.
    fn push<R: Wait>(&mut self, _rt: &R, line: u32)
        ensures dropped { (self.old.lines ≤ line) ⊎ (2 ^ 60 ≤ self.old.pushes) → self.new ≡ self.old }
        ensures put { line < self.old.lines → self.old.pushes < room_for self.old.lines →
            self.new ≡ after_pushed self.old line }
        ensures full { line < self.old.lines → self.old.pushes < 2 ^ 60 →
            (self.new ≡ after_pushed self.old line) ⊎ (self.new ≡ after_full self.old) }
    {
        if line >= self.lines || self.pushed.all() >= MOST {
            return;
        }
        if put(&mut self.own, line) {
            self.pushed.one_more(line);
        } else {
            self.counts.note_full();
        }
    }

    /// Takes the number at the front of its own deque, or else tries each other deque once, in ascending
    /// order. `None` comes only where it has given 2^60, or found its own deque empty, and nothing is taken
    /// then.
    fn take<R: Wait>(&mut self, _rt: &R) -> Option<u32>
        ensures some { IfSome result (λ x. (x < self.old.lines)
            × ((self.new ≡ after_taken self.old x) ⊎ (self.new ≡ after_taken (after_empty self.old) x))) }
        ensures none { IfNone result (((2 ^ 60 ≤ self.old.takes) × (self.new ≡ self.old))
            ⊎ (self.new ≡ after_empty self.old)) }
    {
        if self.taken.all() >= MOST {
            return None;
        }
        if let Some(line) = take(&mut self.own) {
            self.taken.one_more(line);
            return Some(line);
        }
        self.counts.note_empty(&self.own);
        let line = steal_any(&mut self.rights, self.number, self.lines)?;
        self.taken.one_more(line);
        Some(line)
    }
}

impl HomeHints {
    /// How often the number, which is below the bound, was put in here.
    pub fn pushed(&self, line: u32) -> u64
        requires { line < self.now.lines }
        ensures { result ≡ slice_index self.now.pushed line }
    {
        self.pushed.of(line)
    }

    /// How often `take` gave the number, which is below the bound, here.
    pub fn taken(&self, line: u32) -> u64
        requires { line < self.now.lines }
        ensures { result ≡ slice_index self.now.taken line }
    {
        self.taken.of(line)
    }
}

/// Tries each deque but one once, in ascending order, and gives the first number that it steals.
fn steal_any(rights: &mut Vec<StealRight>, but: u32, lines: u32) -> Option<u32>
    requires { All (IsStealRight lines) rights.old.items }
    ensures deques { deques_of rights.new.items ≡ deques_of rights.old.items }
    ensures right { All (IsStealRight lines) rights.new.items }
    ensures taken { MatchOption result
        ((h : ℕ → ℕ) → total (stolen h) rights.new.items ≡ total (stolen h) rights.old.items)
        (λ x. (x < lines) × ((h : ℕ → ℕ) →
        total (stolen h) rights.new.items ≡ total (stolen h) rights.old.items + h x)) }
{
    for k in 0..rights.len() {
        if k == but as usize {
            continue;
        }
        match steal(&mut rights[k]) {
            Some(line) => return Some(line),
            None => {}
        }
    }
    None
}
