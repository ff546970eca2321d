//! A gate of the program's own.

use realm_io::Gate;
use std::sync::Wait;
use std::sync::atomic::{AtomicU64, Ordering};

/// A gate that holds nobody up, and counts the lines that pass it.
#[derive(Drop)]
pub(crate) struct CountingGate {
    passed: AtomicU64,
}

impl CountingGate {
    /// A gate that no line has passed.
    pub(crate) fn new() -> CountingGate {
        CountingGate {
            passed: AtomicU64::new(0),
        }
    }

    /// How many lines have passed.
    pub(crate) fn passed(&self) -> u64 {
        self.passed.load(Ordering::SeqCst)
    }
}

impl Gate for CountingGate {
    fn pass<R: Wait>(&self, _rt: &R, _line: u32) {
        self.passed.fetch_add(1, Ordering::SeqCst);
    }
}
