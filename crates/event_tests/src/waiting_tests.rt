//! Workers that wait for one another: a line comes free only where another was taken, and all leave.

ghost use Rattle.std.specs.Thread.{IsSync};

use idle_workers::{Waiting, spin};
use std::sync::Wait;
use std::sync::atomic::{AtomicU64, Ordering};
use std::test::Fail;
use std::thread::{Threads, join};

/// How many lines there are in all.
const LINES: u64 = 1000;

/// Lines that workers take. Each but the last lets another one run once it is taken.
#[derive(Drop)]
struct Lines {
    waiting: Waiting,
    // How many lines may run.
    free: AtomicU64,
    // How many were taken.
    taken: AtomicU64,
}

impl Lines {
    /// Takes a line where one may run.
    fn take(&self) -> bool {
        let free = self.free.load(Ordering::SeqCst);
        free > 0
            && self
                .free
                .compare_exchange(free, free - 1, Ordering::SeqCst, Ordering::SeqCst)
                .is_ok()
    }

    /// Performs a line: another one may run, unless this was the last.
    fn perform(&self) {
        if self.taken.fetch_add(1, Ordering::SeqCst) < LINES - 1 {
            self.free.fetch_add(1, Ordering::SeqCst);
            self.waiting.tell();
        }
    }

    /// One worker, until all leave.
    fn work<R: Wait>(&self, rt: &R) {
        self.waiting.enter();
        for _turn in rt.forever() {
            if self.take() {
                self.perform();
                continue;
            }
            spin();
            let seen = self.waiting.announce();
            if self.take() {
                self.waiting.withdraw();
                self.perform();
            } else if !self.waiting.sleep(rt, seen) {
                return;
            }
        }
        unreachable!()
    }
}

/// Two workers at the same lines.
fn both<R: Threads + Wait + Sync>(rt: &R, lines: &Lines) {
    join(
        rt,
        ||
            requires { IsSync R.row }
        { lines.work(rt) },
        ||
            requires { IsSync R.row }
        { lines.work(rt) },
    );
}

#[test]
fn no_worker_sleeps_for_ever(rt: HostRuntime) -> Result<(), Fail> {
    let lines = Lines {
        waiting: Waiting::new(),
        free: AtomicU64::new(1),
        taken: AtomicU64::new(0),
    };
    both(&rt, &lines);
    assert_eq!(rt; lines.taken.load(Ordering::SeqCst), LINES);
    Ok(())
}
