//! Which lines workers have issued and claimed. Nothing rests on it but speed.

use std::sync::atomic::{AtomicU64, Ordering};

/// How many lines behind the first unclaimed one a worker goes on to at most. The lines between are issued,
/// so it is a little less than the slots of a run.
const MOST_AHEAD: u64 = 240;

/// How often a worker tries a step while others take theirs.
const MOST_TURNS: u32 = 64;

/// How many lines are issued, and how many of them a worker has claimed, which are the first ones. A line
/// is tried by the worker that has claimed it, and before that by one that goes on to it from the line for
/// which it waited. So lines are issued ahead, and none of them is forgotten.
#[derive(Drop)]
pub(crate) struct LineCounts {
    issued: AtomicU64,
    claimed: AtomicU64,
}

/// Moves a count from one value to another, unless it had a third.
fn is_stepped(count: &AtomicU64, from: u64, to: u64) -> bool {
    count
        .compare_exchange(from, to, Ordering::SeqCst, Ordering::SeqCst)
        .is_ok()
}

impl LineCounts {
    /// No line is issued.
    pub(crate) fn none() -> LineCounts {
        LineCounts {
            issued: AtomicU64::new(0),
            claimed: AtomicU64::new(0),
        }
    }

    /// This line was issued, and so were all before it.
    pub(crate) fn note_issued(&self, line: u32) {
        let count = u64::from(line) + 1;
        for _turn in 0..MOST_TURNS {
            let known = self.issued.load(Ordering::SeqCst);
            if known >= count || is_stepped(&self.issued, known, count) {
                return;
            }
        }
    }

    /// Whether a line is known to be issued.
    pub(crate) fn is_issued(&self, line: u32) -> bool {
        u64::from(line) < self.issued.load(Ordering::SeqCst)
    }

    /// Whether a line that nobody has claimed is issued.
    pub(crate) fn has_unclaimed(&self) -> bool {
        self.claimed.load(Ordering::SeqCst) < self.issued.load(Ordering::SeqCst)
    }

    /// Whether a worker may go on to a line: it is not far behind the first unclaimed one.
    pub(crate) fn is_near(&self, line: u32) -> bool {
        u64::from(line)
            <= self
                .claimed
                .load(Ordering::SeqCst)
                .saturating_add(MOST_AHEAD)
    }

    /// Claims a line where it is the first unclaimed one.
    pub(crate) fn claim_if_first(&self, line: u32) -> bool {
        let first = u64::from(line);
        is_stepped(&self.claimed, first, first + 1)
    }

    /// Claims the first unclaimed line, if it is issued.
    pub(crate) fn claim(&self) -> Option<u32> {
        for _turn in 0..MOST_TURNS {
            let first = self.claimed.load(Ordering::SeqCst);
            if first >= self.issued.load(Ordering::SeqCst) {
                return None;
            }
            let line = u32::try_from(first).ok()?;
            if self.claim_if_first(line) {
                return Some(line);
            }
        }
        None
    }
}
