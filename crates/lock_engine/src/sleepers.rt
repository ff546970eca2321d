//! How many workers sleep until the turn is given.

use std::sync::atomic::{AtomicU64, Ordering};

/// How many workers sleep at the lock, or are about to. Nothing rests on it but speed.
///
/// A worker is counted before it falls asleep, and it falls asleep only while the turn is taken. Who gives
/// the turn loads the count after that. So either it sees the worker, or the worker sees the turn given.
#[derive(Drop)]
pub(crate) struct Sleepers {
    count: AtomicU64,
}

impl Sleepers {
    /// No worker sleeps.
    pub(crate) fn none() -> Sleepers {
        Sleepers {
            count: AtomicU64::new(0),
        }
    }

    /// A worker is about to fall asleep.
    pub(crate) fn enter(&self) {
        self.count.fetch_add(1, Ordering::SeqCst);
    }

    /// It is awake again.
    pub(crate) fn leave(&self) {
        self.count.fetch_sub(1, Ordering::SeqCst);
    }

    /// Whether a worker sleeps, or is about to.
    pub(crate) fn has_some(&self) -> bool {
        self.count.load(Ordering::SeqCst) > 0
    }
}
