//! The table of events of one thread.

ghost use Rattle.std.specs.Prelude.{◌≡◌, ℕ, ◌+◌, ◌*◌, ◌<◌, ◌≤◌, [], IfOk};
ghost use Rattle.event_table.specs.declared.handle.Handle.{Handle as TheHandle};

use crate::NoMemory;
use crate::chain::{Chain, catch};
use crate::handle::{Answer, Fate, Handle, Shape, WatchNow};
use crate::left::copy_slot;
use crate::limits::{MAX_HANDLES, MAX_SLOTS, MAX_WAITERS};
use crate::word::{
    answer, fate_shown, free_slots, is_no_event, lengthen, next_word, release, set_fate, turns,
};
use atomic_table::Closed;
use std::alloc::{AllocError, Global};
use std::marker::Model;

/// A table of events of one thread, seen as the map from handles to answers, with the waiters that
/// are placed and those that are caught. No call but `new` takes memory.
#[derive(Drop)]
pub struct EventTable {
    shape: Shape,
    // The slot words, the link words and the poison words, as a shared table has them. The poison
    // words behind the last that has a bit set are left out, since most are never used.
    words: Vec<u64>,
    // The slots that may serve.
    free: Vec<u32>,
    // The chains of waiters that were caught. The last is given first.
    caught: Vec<Chain>,
}

impl Model for EventTable {
    ghost use Rattle.std.specs.Prelude.{◌≡◌, ◌≤◌, ◌+◌};
    ghost use Rattle.std.specs.Vec.{vec_capacity};
    ghost use Rattle.event_table.specs.Words.{mark_words};
    ghost use Rattle.event_table.specs.EventMap.{EventMap};

    ghost Value = { EventMap };

    ghost use Rattle.event_table.specs.Kept.{map_in, AreKept, IsSized};

    ghost view = { λ a. map_in a.shape a.words.items a.caught.items };

    ghost invariant = { λ a. record {
      sized : IsSized a.shape;
      kept : AreKept a.shape a.words.items a.free.items a.caught.items (map_in a.shape a.words.items a.caught.items);
      room_words : a.shape.slots + a.shape.waiters + mark_words a.shape ≤ vec_capacity a.words;
      room_free : a.shape.slots ≤ vec_capacity a.free;
      room_caught : a.shape.waiters ≤ vec_capacity a.caught;
    } };
}

impl EventTable {
    ghost use Rattle.std.specs.Slots.{slots_items, slots_len, IsFull as IsFilled};
    ghost use Rattle.event_table.specs.Kept.{map_in, AreShown, IsSized};
    ghost use Rattle.event_table.specs.Words.{mark_words};
    ghost use Rattle.std.specs.Prelude.{◌≢◌, ◌<◌, IfSome, IfNone, Some, None, length};
    ghost use Rattle.event_table.specs.EventMap.{EventMap, IsEventMap, answer, answer_of, fresh, all_free, up_to_gen, created_at, placed_on, ended_with, next_handle, Gives, IsCreated, IsFree, IsPlaced, IsFull, MayServe, WatchedNow, KeepsCreated, KeepsFree, no_event};

    /// A table in which nothing was created and each waiter is free. `NoMemory` comes where memory
    /// ran out.
    pub fn new(
        alloc: Global,
        slots: u32,
        waiters: u32,
        last_gen: u32,
    ) -> Result<EventTable, NoMemory>
        requires slots { (0 < slots) × (slots ≤ MAX_SLOTS) }
        requires waiters { waiters ≤ MAX_WAITERS }
        requires gens { slots * (last_gen + 1) ≤ MAX_HANDLES }
        ensures map { IfOk result (λ t. t ≡ fresh slots waiters last_gen) }
    {
        let shape = Shape {
            slots,
            waiters,
            last_gen,
        };
        EventTable::of_shape(alloc, shape).map_err(|_| NoMemory)
    }

    fn of_shape(alloc: Global, shape: Shape) -> Result<EventTable, AllocError>
        requires slots { (0 < shape.slots) × (shape.slots ≤ MAX_SLOTS) }
        requires waiters { shape.waiters ≤ MAX_WAITERS }
        requires gens { shape.slots * (shape.last_gen + 1) ≤ MAX_HANDLES }
        ensures map { IfOk result (λ t. t ≡ fresh shape.slots shape.waiters shape.last_gen) }
    {
        let mut words = Vec::with_capacity(alloc, shape.words())?;
        let mut free = Vec::with_capacity(alloc, shape.slots as usize)?;
        let caught = Vec::with_capacity(alloc, shape.waiters as usize)?;
        lengthen(&mut words, shape.slots as usize + shape.waiters as usize);
        free_slots(&mut free, shape.slots, words.as_slice());
        Ok(EventTable {
            shape,
            words,
            free,
            caught,
        })
    }

    /// A new pending handle, which was not created before. None comes exactly where each slot is
    /// pending or retired.
    pub fn create(&mut self) -> Option<Handle>
        ensures map { IfSome result (λ h. (self.new ≡ created_at self.old h.slot) × (h ≡ next_handle self.old h.slot)
            × MayServe self.old h.slot) }
        ensures pending { IfSome result (λ h. (answer self.new h ≡ Some Answer.Pending) × (answer self.old h ≡ None) × (h ≢ no_event)) }
        ensures others { IfSome result (λ h. (k : TheHandle) → k ≢ h → answer self.new k ≡ answer self.old k) }
        ensures none { IfNone result ((self.new ≡ self.old) × IsFull self.old) }
        ensures created { KeepsCreated self.old self.new × IfSome result (λ h. IsCreated self.new h) }
        ensures free { KeepsFree self.old self.new }
    {
        let Some(slot) = self.free.pop() else {
            return None;
        };
        let word = self.words[slot as usize];
        self.words[slot as usize] = word + 1;
        Some(Handle {
            slot,
            gen_: (word / 4294967296) as u32,
        })
    }

    /// Places a free waiter on a pending handle. Over comes exactly where the handle has ended, with
    /// its fate, or is NO_EVENT.
    pub fn watch(&mut self, handle: Handle, waiter: u32) -> WatchNow
        requires created { IsCreated self.old handle }
        requires waiter { IsFree self.old waiter }
        ensures map { WatchedNow self.old self.new handle waiter result }
        ensures placed { result ≡ WatchNow.Placed → IsPlaced self.new waiter handle }
        ensures answers { (h : TheHandle) → answer self.new h ≡ answer self.old h }
        ensures created { KeepsCreated self.old self.new }
        ensures free { (k : ℕ) → k ≢ waiter → IsFree self.old k → IsFree self.new k }
    {
        match self.look(handle) {
            Answer::Pending => {
                self.place(handle, waiter);
                WatchNow::Placed
            }
            Answer::Triggered => WatchNow::Over(Fate::Ok),
            Answer::Poisoned => WatchNow::Over(Fate::Poison),
        }
    }

    // Places a free waiter on a handle that is pending.
    fn place(&mut self, handle: Handle, waiter: u32)
        requires pending { answer self.old handle ≡ Some Answer.Pending }
        requires waiter { IsFree self.old waiter }
        ensures map { self.new ≡ placed_on self.old handle waiter }
        ensures placed { IsPlaced self.new waiter handle }
        ensures answers { (h : TheHandle) → answer self.new h ≡ answer self.old h }
        ensures created { KeepsCreated self.old self.new }
        ensures free { (k : ℕ) → k ≢ waiter → IsFree self.old k → IsFree self.new k }
    {
        let slot = handle.slot as usize;
        let link = self.shape.slots as usize + waiter as usize;
        let word = self.words[slot];
        let low = word % 4294967296;
        self.words[link] = low - 1;
        self.words[slot] = word - low + (waiter as u64 + 2);
    }

    /// Ends a pending handle with this fate. The waiters that are placed on it are caught, and
    /// nothing else changes.
    pub fn end(&mut self, handle: Handle, fate: Fate)
        requires pending { answer self.old handle ≡ Some Answer.Pending }
        ensures map { self.new ≡ ended_with self.old handle fate }
        ensures ended { answer self.new handle ≡ Some (answer_of fate) }
        ensures others { (k : TheHandle) → k ≢ handle → answer self.new k ≡ answer self.old k }
        ensures created { KeepsCreated self.old self.new }
        ensures free { KeepsFree self.old self.new }
    {
        set_fate(&mut self.words, &self.shape, handle, fate);
        let slot = handle.slot as usize;
        let low = self.words[slot] % 4294967296;
        self.words[slot] = next_word(self.shape.last_gen, handle.gen_);
        catch(&mut self.caught, handle, low - 1);
        release(&mut self.free, self.shape.last_gen, handle);
    }

    /// A waiter that was caught, which is then free again. None comes exactly where none is caught.
    pub fn next_caught(&mut self) -> Option<u32>
        ensures some { IfSome result (λ k. Gives self.old k self.new × IsFree self.new k) }
        ensures none { IfNone result ((self.new ≡ self.old) × (self.old.caught ≡ [])) }
        ensures answers { (h : TheHandle) → answer self.new h ≡ answer self.old h }
        ensures created { KeepsCreated self.old self.new }
        ensures free { KeepsFree self.old self.new }
    {
        let Some(chain) = self.caught.pop() else {
            return None;
        };
        let link = self.shape.slots as usize + chain.first as usize;
        let next = self.words[link];
        catch(&mut self.caught, chain.handle, next);
        Some(chain.first)
    }

    /// The answer for a handle that was created. NO_EVENT has triggered.
    pub fn look(&self, handle: Handle) -> Answer
        requires created { IsCreated self.now handle }
        ensures answer { handle ≢ no_event → answer self.now handle ≡ Some result }
        ensures no_event { handle ≡ no_event → result ≡ Answer.Triggered }
    {
        if is_no_event(handle) {
            return Answer::Triggered;
        }
        let word = self.words[handle.slot as usize];
        if turns(word) < 2 * handle.gen_ as u64 + 2 {
            return Answer::Pending;
        }
        let at = self.shape.mark_at(handle);
        let bit = self.shape.place(handle) % 64;
        let word = self.words.get(at).copied().unwrap_or(0);
        answer(fate_shown(word, bit))
    }

    // The map of a closed table with these words, with each waiter free, in the place of a table of
    // as many slots and waiters and at least as many generations, in which nothing was created.
    pub(crate) fn taking(self, closed: &Closed<(), Global>, shape: &Shape) -> EventTable
        requires full { IsFilled closed.now.words }
        requires wide { slots_len closed.now.words ≡ shape.now.slots + shape.now.waiters + mark_words shape.now }
        requires sized { IsSized shape.now }
        requires shown { AreShown shape.now (slots_items closed.now.words) [] (map_in shape.now (slots_items closed.now.words) []) }
        requires same { self ≡ fresh shape.now.slots shape.now.waiters self.last_gen }
        requires gens { shape.now.last_gen ≤ self.last_gen }
        ensures map { result ≡ up_to_gen self.last_gen (all_free (map_in shape.now (slots_items closed.now.words) [])) }
    {
        let EventTable {
            shape: own,
            mut words,
            mut free,
            mut caught,
        } = self;
        for slot in 0..shape.slots {
            copy_slot(&mut words, &own, closed, shape, slot);
        }
        caught.clear();
        free.clear();
        free_slots(&mut free, shape.slots, words.as_slice());
        EventTable {
            shape: own,
            words,
            free,
            caught,
        }
    }

    /// What holds of each table: its handles are whole rows of generations, all of which but the
    /// last have ended, and each waiter is placed or caught at most once.
    pub fn holds_a_map(&self)
        ensures { IsEventMap self.now }
    {
        let _words = &self.words;
    }
}
