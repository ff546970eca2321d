//! What a handle is, and what is answered for one.

use crate::limits::{MAX_HANDLES, MAX_SLOTS, MAX_WAITERS};

/// A slot and a generation of it. It may be copied and kept for any time.
#[derive(Clone, Copy, Debug, PartialEq, Eq)]
pub struct Handle {
    pub slot: u32,
    pub gen_: u32,
}

/// The handle of no slot, which counts as created, as seen by all, and as ended with Ok.
pub const NO_EVENT: Handle = Handle {
    slot: 4294967295,
    gen_: 0,
};

/// How an event ended.
#[derive(Clone, Copy, Debug, PartialEq, Eq)]
pub enum Fate {
    Ok,
    Poison,
}

/// What is answered for a handle: that it has not ended, or has with Ok, or with Poison.
#[derive(Clone, Copy, Debug, PartialEq, Eq)]
pub enum Answer {
    Pending,
    Triggered,
    Poisoned,
}

/// What `EventTable::watch` did: it placed the waiter, or the handle had ended with this fate.
#[derive(Clone, Copy, Debug, PartialEq, Eq)]
pub enum WatchNow {
    Placed,
    Over(Fate),
}

/// The size of a table: 1 to 8,192 slots, at most 65,536 waiters, and the last generation of a slot,
/// with at most 536,870,912 generations in all.
#[derive(Clone, Copy)]
pub struct Shape {
    pub slots: u32,
    pub waiters: u32,
    pub last_gen: u32,
}

impl Shape {
    ghost use Rattle.std.specs.Prelude.{◌≡◌, ◌+◌, ◌*◌, ◌<◌, ◌≤◌};
    ghost use Rattle.event_table.specs.Words.{mark_words, mark_word, place_of};

    // The number of words of a table with all its poison words.
    pub(crate) fn words(&self) -> usize
        requires { (self.now.slots ≤ MAX_SLOTS) × (self.now.waiters ≤ MAX_WAITERS) × (self.now.slots * (self.now.last_gen + 1) ≤ MAX_HANDLES) }
        ensures { result ≡ self.now.slots + self.now.waiters + mark_words self.now }
    {
        let marks = (self.slots as usize * (self.last_gen as usize + 1) + 63) / 64;
        self.slots as usize + self.waiters as usize + marks
    }

    /// The place of a handle among the poison bits.
    pub fn place(&self, handle: Handle) -> u64
        requires { (handle.slot < self.now.slots) × (handle.gen_ ≤ self.now.last_gen)
            × (self.now.slots * (self.now.last_gen + 1) ≤ MAX_HANDLES) }
        ensures { result ≡ place_of self.now.last_gen handle }
    {
        handle.slot as u64 * (self.last_gen as u64 + 1) + handle.gen_ as u64
    }

    /// The number of the poison word of a handle.
    pub fn mark_at(&self, handle: Handle) -> usize
        requires { (handle.slot < self.now.slots) × (handle.gen_ ≤ self.now.last_gen)
            × (self.now.slots * (self.now.last_gen + 1) ≤ MAX_HANDLES) }
        ensures at { result ≡ mark_word self.now handle }
        ensures within { result < self.now.slots + self.now.waiters + mark_words self.now }
    {
        let place = self.place(handle);
        self.slots as usize + self.waiters as usize + (place / 64) as usize
    }
}
