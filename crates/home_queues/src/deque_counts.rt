//! How often the owner of a deque found it empty, or without a free slot.
ghost use Rattle.std.specs.Prelude.{◌≡◌};
ghost use Rattle.crossbeam_deque.specs.Handles.{worker_view};
ghost use Rattle.realm_io.specs.Counts.{next_count};
ghost use Rattle.home_queues.specs.DequeRule.{SawEmpty};

use crate::deque::Owner;

/// How many pops gave nothing and how many pushes were refused; a count stays at 2^64 - 1. No clause ties
/// a count to a moment at which the deque was empty, or full.
#[derive(Drop)]
pub(crate) struct DequeCounts {
    empty: u64,
    full: u64,
}

impl DequeCounts {
    /// No pop and no push yet.
    pub(crate) fn none() -> DequeCounts
        ensures { result ≡ record { empty = 0; full = 0 } }
    {
        DequeCounts { empty: 0, full: 0 }
    }

    /// A pop found the deque empty.
    pub(crate) fn note_empty(&mut self, owner: &Owner)
        requires { SawEmpty (worker_view owner.now) }
        ensures { self.new ≡ record self.old { empty = next_count self.old.empty } }
    {
        let _owner = owner;
        self.empty = self.empty.saturating_add(1);
    }

    /// A push found no free slot.
    pub(crate) fn note_full(&mut self)
        ensures { self.new ≡ record self.old { full = next_count self.old.full } }
    {
        self.full = self.full.saturating_add(1);
    }
}
