//! What a table leaves once it is closed.

ghost use Rattle.std.specs.Prelude.{◌≡◌, ◌≢◌, ℕ, ◌+◌, ◌*◌, ◌/◌, ◌<◌, ◌≤◌, [], length, Contains, true, false, IfSome, IfNone, Some, slice_index};
ghost use Rattle.std.specs.Vec.{vec_capacity};
ghost use Rattle.std.specs.Slots.{slots_items, slots_len, IsFull};
ghost use Rattle.event_table.specs.Chains.{AreWaiters, chain_in};
ghost use Rattle.event_table.specs.Kept.{map_in, AreShown, IsSized, IsTakenOver};
ghost use Rattle.event_table.specs.Words.{handle_at, turns_of, mark, mark_words};
ghost use Rattle.event_table.specs.EventMap.{answer, fresh, all_free, up_to_gen, no_event, IsCreated, IsEventMap, IsFree, IsPlaced, KeepsCreated};
ghost use Rattle.event_table.specs.declared.handle.Handle.{Handle as TheHandle};

use crate::handle::{Answer, Handle, Shape};
use crate::limits::MAX_WAITERS;
use crate::table::EventTable;
use crate::word::{answer, fate_shown, is_no_event, set_fate, turns, word_after};
use atomic_table::Closed;
use std::alloc::Global;
use std::marker::Model;

/// The map of a closed table, with the waiters that are still placed on pending handles.
pub struct Left {
    pub(crate) closed: Closed<(), Global>,
    pub(crate) shape: Shape,
}

impl Model for Left {
    ghost use Rattle.std.specs.Prelude.{◌≡◌, ◌+◌, []};
    ghost use Rattle.std.specs.Slots.{slots_items, slots_len, IsFull};
    ghost use Rattle.event_table.specs.EventMap.{EventMap};

    ghost Value = { EventMap };

    ghost use Rattle.event_table.specs.Kept.{map_in, AreShown, IsSized};
    ghost use Rattle.event_table.specs.Words.{mark_words};

    ghost view = { λ a. map_in a.shape (slots_items a.closed.words) [] };

    ghost invariant = { λ a. record {
      full : IsFull a.closed.words;
      none : slots_len a.closed.slots ≡ 0;
      sized : IsSized a.shape;
      whole : slots_len a.closed.words ≡ a.shape.slots + a.shape.waiters + mark_words a.shape;
      shown : AreShown a.shape (slots_items a.closed.words) [] (map_in a.shape (slots_items a.closed.words) []);
    } };
}

fn handle_at(slot: u32, word: u64) -> Handle
    ensures { (result.slot ≡ slot) × (result.gen_ ≡ word / 4294967296) }
{
    Handle {
        slot,
        gen_: (word / 4294967296) as u32,
    }
}

// Whether the waiter is in the chain that begins with this link.
fn stands(closed: &Closed<(), Global>, shape: &Shape, first: u64, waiter: u32) -> bool
    requires full { IsFull closed.now.words }
    requires wide { shape.now.slots + shape.now.waiters ≤ slots_len closed.now.words }
    requires small { shape.now.waiters ≤ MAX_WAITERS }
    requires chain { AreWaiters shape.now (chain_in shape.now.waiters shape.now.slots (slots_items closed.now.words) first) }
    ensures yes { result ≡ true → Contains (chain_in shape.now.waiters shape.now.slots (slots_items closed.now.words) first) waiter }
    ensures no { result ≡ false → Contains (chain_in shape.now.waiters shape.now.slots (slots_items closed.now.words) first) waiter → ⊥ }
{
    let mut next = first;
    let mut left = shape.waiters;
    while left > 0 {
        if next == 0 {
            return false;
        }
        if next - 1 == waiter as u64 {
            return true;
        }
        next = *closed.words.get(shape.slots as usize + (next - 1) as usize);
        left -= 1;
    }
    false
}

// Copies the fates of a slot's generations to the poison words of a table with at least as many
// generations.
fn copy_fates(
    to: &mut Vec<u64>,
    shape: &Shape,
    closed: &Closed<(), Global>,
    from: &Shape,
    slot: u32,
)
    requires full { IsFull closed.now.words }
    requires wide { slots_len closed.now.words ≡ from.now.slots + from.now.waiters + mark_words from.now }
    requires sized { IsSized from.now × IsSized shape.now }
    requires slot { (slot < from.now.slots) × (from.now.slots ≡ shape.now.slots) × (from.now.last_gen ≤ shape.now.last_gen) }
    requires few { turns_of (slice_index (slots_items closed.now.words) slot) ≤ 2 * from.now.last_gen + 2 }
    requires room { shape.now.slots + shape.now.waiters + mark_words shape.now ≤ vec_capacity to.old }
    ensures marks { (g : ℕ) → 2 * g + 2 ≤ turns_of (slice_index (slots_items closed.now.words) slot)
        → mark shape.now to.new.items (handle_at slot g) ≡ mark from.now (slots_items closed.now.words) (handle_at slot g) }
    ensures others { (h : TheHandle) → h.slot ≢ slot → h.gen_ ≤ shape.now.last_gen → mark shape.now to.new.items h ≡ mark shape.now to.old.items h }
    ensures low { (i : ℕ) → i < shape.now.slots + shape.now.waiters → slice_index to.new.items i ≡ slice_index to.old.items i }
    ensures size { length to.old.items ≤ length to.new.items }
    ensures room { vec_capacity to.old ≤ vec_capacity to.new }
{
    let turns = turns(*closed.words.get(slot as usize));
    let mut gen_ = 0;
    while 2 * gen_ as u64 + 2 <= turns {
        let handle = Handle { slot, gen_ };
        let word = *closed.words.get(from.mark_at(handle));
        let fate = fate_shown(word, from.place(handle) % 64);
        set_fate(to, shape, handle, fate);
        gen_ += 1;
    }
}

// Copies a slot of a closed table, without its waiters, to the words of a table with at least as
// many generations.
pub(crate) fn copy_slot(
    to: &mut Vec<u64>,
    shape: &Shape,
    closed: &Closed<(), Global>,
    from: &Shape,
    slot: u32,
)
    requires full { IsFull closed.now.words }
    requires wide { slots_len closed.now.words ≡ from.now.slots + from.now.waiters + mark_words from.now }
    requires sized { IsSized from.now × IsSized shape.now }
    requires slot { (slot < from.now.slots) × (from.now.slots ≡ shape.now.slots) × (from.now.last_gen ≤ shape.now.last_gen) }
    requires few { turns_of (slice_index (slots_items closed.now.words) slot) ≤ 2 * from.now.last_gen + 2 }
    requires room { shape.now.slots + shape.now.waiters + mark_words shape.now ≤ vec_capacity to.old }
    requires size { shape.now.slots + shape.now.waiters ≤ length to.old.items }
    ensures here { IsTakenOver shape.now from.now to.new.items (slots_items closed.now.words) slot }
    ensures others { (i : ℕ) → i < shape.now.slots → i ≢ slot → IsTakenOver shape.now from.now to.old.items (slots_items closed.now.words) i
        → IsTakenOver shape.now from.now to.new.items (slots_items closed.now.words) i }
    ensures size { length to.old.items ≤ length to.new.items }
    ensures room { vec_capacity to.old ≤ vec_capacity to.new }
{
    copy_fates(to, shape, closed, from, slot);
    let turns = turns(*closed.words.get(slot as usize));
    to[slot as usize] = word_after(turns, shape.last_gen);
}

impl Left {
    /// What a closed table leaves whose words show a map.
    pub fn of_words(closed: Closed<(), Global>, shape: Shape) -> Left
        requires full { IsFull closed.words }
        requires none { slots_len closed.slots ≡ 0 }
        requires sized { IsSized shape }
        requires whole { slots_len closed.words ≡ shape.slots + shape.waiters + mark_words shape }
        requires shown { AreShown shape (slots_items closed.words) [] (map_in shape (slots_items closed.words) []) }
        ensures map { result ≡ map_in shape (slots_items closed.words) [] }
        ensures is_map { IsEventMap result }
    {
        Left { closed, shape }
    }

    /// A table with the same map, in which each waiter is free. It stands in the place of `spare`, a
    /// table of as many slots and waiters and at least as many generations, in which nothing was
    /// created, and serves until the last generation of that. It takes no memory.
    pub fn into_table(self, spare: EventTable) -> EventTable
        requires spare { spare ≡ fresh (length self.slots) self.waiters spare.last_gen }
        requires gens { self.last_gen ≤ spare.last_gen }
        ensures map { result ≡ up_to_gen spare.last_gen (all_free self) }
        ensures answers { (h : TheHandle) → answer result h ≡ answer self h }
        ensures created { KeepsCreated self result }
        ensures free { (k : ℕ) → k < self.waiters → IsFree result k }
    {
        spare.taking(&self.closed, &self.shape)
    }

    /// The answer for a handle that was created. NO_EVENT has triggered.
    pub fn look(&self, handle: Handle) -> Answer
        requires created { IsCreated self.now handle }
        ensures answer { handle ≢ no_event → answer self.now handle ≡ Some result }
        ensures no_event { handle ≡ no_event → result ≡ Answer.Triggered }
    {
        if is_no_event(handle) {
            return Answer::Triggered;
        }
        let word = *self.closed.words.get(handle.slot as usize);
        if turns(word) < 2 * handle.gen_ as u64 + 2 {
            return Answer::Pending;
        }
        let at = self.shape.mark_at(handle);
        let bit = self.shape.place(handle) % 64;
        answer(fate_shown(*self.closed.words.get(at), bit))
    }

    /// The pending handle on which a waiter is placed. None comes exactly where it is not placed.
    pub fn place_of(&self, waiter: u32) -> Option<Handle>
        ensures some { IfSome result (λ h. IsPlaced self.now waiter h) }
        ensures none { IfNone result ((h : TheHandle) → IsPlaced self.now waiter h → ⊥) }
    {
        let mut slot = 0;
        while slot < self.shape.slots {
            let word = *self.closed.words.get(slot as usize);
            if turns(word) % 2 == 1
                && stands(&self.closed, &self.shape, word % 4294967296 - 1, waiter)
            {
                return Some(handle_at(slot, word));
            }
            slot += 1;
        }
        None
    }
}

impl Drop for Left {
    fn drop(self) {
        let Left { closed, shape: _ } = self;
        closed.free();
    }
}
