//! What one worker puts into the shared queue and takes out.
ghost use Rattle.std.specs.Prelude.{◌≡◌, ◌<◌, ◌≤◌, ◌⊎◌, MatchOption};
ghost use Rattle.free_engine.specs.HintQueues.{lines_of, IsPassAt};
ghost use Rattle.free_engine.specs.Hints.{after_put, after_taken, after_empty, after_full, new_hints};

use crate::hint_queue::HintQueue;
use crate::hint_rule::{Cuts, Puts, Takes};
use crate::hint_view::HintView;
use crate::queue_counts::QueueCounts;
use crossbeam_queue::Pass;
use realm_io::Hints;
use std::marker::Model;
use std::sync::Wait;

/// A worker's hints at a queue that it shares with others. Contracts see below which number its hints are,
/// what it put in and what it took, in order, how many of its pops found the queue empty, and how many of
/// its pushes found it full. The two counts stay at 2^64 - 1.
#[derive(Drop)]
pub struct QueueHints<'q> {
    queue: &'q HintQueue,
    pass: Pass<u32, HintView>,
    counts: QueueCounts,
}

impl<'q> Model for QueueHints<'q> {
    ghost use Rattle.free_engine.specs.Hints.{HintsValue};

    ghost Value = { HintsValue };

    ghost use Rattle.std.specs.Prelude.{◌≡◌};
    ghost use Rattle.free_engine.specs.HintQueues.{known, IsPassAt};

    ghost view = { λ a. record {
      lines = (known a.pass).lines;
      put = (known a.pass).put;
      taken = (known a.pass).taken;
      empty = a.counts.empty;
      full = a.counts.full;
    } };

    ghost invariant = { λ a. IsPassAt a.queue.now a.pass };
}

impl<'q> Hints for QueueHints<'q> {
    /// Puts the number in at the back. It is dropped where it is not below the bound, and where the queue was
    /// found full.
    fn push<R: Wait>(&mut self, rt: &R, line: u32)
        ensures above { self.old.lines ≤ line → self.new ≡ self.old }
        ensures below { line < self.old.lines →
            (self.new ≡ after_put self.old line) ⊎ (self.new ≡ after_full self.old) }
    {
        let queue = self.queue;
        if line >= queue.lines {
            return;
        }
        match queue.ruled.push_as::<Puts, R>(rt, &mut self.pass, line) {
            Ok(()) => {}
            Err(_) => self.counts.note_full(&queue.ruled, &self.pass),
        }
    }

    /// Takes the number at the front. `None` comes only where the queue was found empty.
    fn take<R: Wait>(&mut self, rt: &R) -> Option<u32>
        ensures { MatchOption result (self.new ≡ after_empty self.old)
            (λ x. (x < self.old.lines) × (self.new ≡ after_taken self.old x)) }
    {
        let queue = self.queue;
        match queue.ruled.pop_as::<Takes, R>(rt, &mut self.pass) {
            Some(line) => Some(line),
            None => {
                self.counts.note_empty(&self.pass);
                None
            }
        }
    }
}

/// Hints that have put nothing in and taken nothing, with a pass that is cut off this one.
pub(crate) fn cut_hints<'q>(queue: &'q HintQueue, pass: &mut Pass<u32, HintView>) -> QueueHints<'q>
    requires { IsPassAt queue.now pass.old }
    ensures same { IsPassAt queue.now pass.new }
    ensures new { result ≡ new_hints (lines_of queue.now) }
{
    let own = queue.ruled.another::<Cuts>(pass);
    QueueHints {
        queue,
        pass: own,
        counts: QueueCounts::none(),
    }
}
