//! How a worker that finds no line sleeps until there may be one.

use std::hint::spin_loop;
use std::sync::Wait;
use std::sync::atomic::{AtomicU64, Ordering};

/// How often a worker that waits reads the count before it sleeps: some tens of microseconds, as long as
/// falling asleep and being woken takes.
const MOST_READS: u32 = 1_000;

/// What workers that wait are told of lines that may have come free.
///
/// A worker begins with `enter`. Where it finds no line, it calls `announce`, looks once more, and
/// then calls `withdraw` where it found one, else `sleep`. A worker that has put a line where others
/// find it calls `tell` where it means to have it taken soon.
///
/// No wake is meant to be lost. That holds where lines are put and found by `SeqCst` steps, as the steps
/// on the words below are, since all of these then have one order. A teller puts the line first and then
/// loads how many wait; a worker says that it waits first and then looks. So either the teller sees the
/// worker, or the worker's last look sees the line. In the same way a worker says that it sleeps before
/// it falls asleep, and a teller raises the count before it loads how many do. So of those that had read
/// the count before that, one is woken or none falls asleep, and one that reads it after that looks when
/// the line is there.
#[derive(Drop)]
pub struct Waiting {
    // How often those that wait were told of lines, and once more when all leave.
    count: AtomicU64,
    // How many workers look for a line or have one, those that have announced among them.
    active: AtomicU64,
    // How many workers have announced that they are about to wait, or wait.
    waiting: AtomicU64,
    // How many of them sleep, or are about to.
    asleep: AtomicU64,
    // 1 once a worker has found that no other looks for a line or has one.
    is_over: AtomicU64,
}

impl Waiting {
    /// Before any worker begins.
    pub fn new() -> Waiting {
        Waiting {
            count: AtomicU64::new(0),
            active: AtomicU64::new(0),
            waiting: AtomicU64::new(0),
            asleep: AtomicU64::new(0),
            is_over: AtomicU64::new(0),
        }
    }

    /// A worker begins, and looks for a line.
    pub fn enter(&self) {
        self.active.fetch_add(1, Ordering::SeqCst);
    }

    /// Whether a worker waits, or is about to.
    pub fn is_waited(&self) -> bool {
        self.waiting.load(Ordering::SeqCst) > 0
    }

    /// More lines may run than before. Where a worker waits, one is told; else this costs one load. Only
    /// one that sleeps has to be woken.
    pub fn tell(&self) {
        if self.is_waited() {
            self.count.fetch_add(1, Ordering::SeqCst);
            if self.asleep.load(Ordering::SeqCst) > 0 {
                self.count.wake_one();
            }
        }
    }

    /// The worker is about to wait, unless it finds a line now. The count is what `sleep` is given.
    pub fn announce(&self) -> u64 {
        self.waiting.fetch_add(1, Ordering::SeqCst);
        self.count.load(Ordering::SeqCst)
    }

    /// A worker that has announced found a line, and does not wait.
    pub fn withdraw(&self) {
        self.waiting.fetch_sub(1, Ordering::SeqCst);
    }

    /// A worker that has announced, and found no line after that, waits until the count is another than
    /// the one that it has seen: first it reads the count for a while, then it sleeps. True where it
    /// should look again. False where no other worker looks for a line or has one: none comes free any
    /// more, and all that wait are told to leave too.
    pub fn sleep<R: Wait>(&self, rt: &R, seen: u64) -> bool {
        if self.active.fetch_sub(1, Ordering::SeqCst) == 1 {
            self.end();
            return false;
        }
        if !self.is_told_soon(seen) {
            self.asleep.fetch_add(1, Ordering::SeqCst);
            self.count.park(rt, (seen & 0xffff_ffff) as u32);
            self.asleep.fetch_sub(1, Ordering::SeqCst);
        }
        self.withdraw();
        if self.is_over.load(Ordering::SeqCst) == 1 {
            return false;
        }
        self.active.fetch_add(1, Ordering::SeqCst);
        true
    }

    /// Whether the count becomes another than the one seen within a short time. Reading alone disturbs no
    /// worker that has a line.
    fn is_told_soon(&self, seen: u64) -> bool {
        for _pause in 0..MOST_READS {
            if self.count.load(Ordering::SeqCst) != seen {
                return true;
            }
            spin_loop();
        }
        false
    }

    /// The last worker leaves, and wakes all that wait.
    fn end(&self) {
        self.withdraw();
        self.is_over.store(1, Ordering::SeqCst);
        self.count.fetch_add(1, Ordering::SeqCst);
        self.count.wake_all();
    }
}
