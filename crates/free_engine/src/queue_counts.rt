//! How often the queue of hints was found empty or full.
ghost use Rattle.std.specs.Prelude.{◌≡◌};
ghost use Rattle.crossbeam_queue.specs.Fifo.{Held};
ghost use Rattle.crossbeam_queue.specs.Passes.{view, ruled_capacity};
ghost use Rattle.realm_io.specs.Counts.{next_count};
ghost use Rattle.free_engine.specs.HintRule.{Saw};

use crate::hint_queue::RuledQueue;
use crate::hint_view::HintView;
use crossbeam_queue::Pass;

/// How many pops gave nothing and how many pushes were refused; a count stays at 2^64 - 1. No clause
/// ties a count to a moment at which the queue was empty, or full.
#[derive(Drop)]
pub(crate) struct QueueCounts {
    empty: u64,
    full: u64,
}

impl QueueCounts {
    /// No pop and no push yet.
    pub(crate) fn none() -> QueueCounts
        ensures { result ≡ record { empty = 0; full = 0 } }
    {
        QueueCounts { empty: 0, full: 0 }
    }

    /// A pop found the queue empty.
    pub(crate) fn note_empty(&mut self, pass: &Pass<u32, HintView>)
        requires { Held 0 (Saw (view pass.now)) }
        ensures { self.new ≡ record self.old { empty = next_count self.old.empty } }
    {
        let _pass = pass;
        self.empty = self.empty.saturating_add(1);
    }

    /// A push found the queue full.
    pub(crate) fn note_full(&mut self, ruled: &RuledQueue, pass: &Pass<u32, HintView>)
        requires { Held (ruled_capacity ruled.now) (Saw (view pass.now)) }
        ensures { self.new ≡ record self.old { full = next_count self.old.full } }
    {
        let _queue = ruled;
        let _pass = pass;
        self.full = self.full.saturating_add(1);
    }
}
