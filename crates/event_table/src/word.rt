//! What the words of a table mean.

ghost use Rattle.std.specs.Prelude.{◌≡◌, ◌≢◌, ℕ, ◌+◌, ◌*◌, ◌%◌, ◌<◌, ◌≤◌, ◌++◌, ◌∷◌, [], true, false, cond, nat_lt, length, slice_index, vec_len, Contains};
ghost use Rattle.std.specs.Int.{bit_at};
ghost use Rattle.std.specs.Vec.{vec_capacity};
ghost use Rattle.basics.specs.Sums.{total, below};
ghost use Rattle.event_table.specs.Words.{turns_of, fate_code, mark_words, Follows, Shows, fate_by};
ghost use Rattle.event_table.specs.Kept.{IsSized, IsMarked};
ghost use Rattle.event_table.specs.EventMap.{no_event, answer_of};

use crate::handle::{Answer, Fate, Handle, Shape};
use crate::room::push_within;

/// How often the slot with this word was created and ended.
pub fn turns(word: u64) -> u64
    ensures { result ≡ turns_of word }
{
    let low = word % 4294967296;
    2 * (word / 4294967296)
        + if low == 0 {
            0
        } else if low == 4294967295 {
            2
        } else {
            1
        }
}

/// Whether a handle is the one of no event.
pub fn is_no_event(handle: Handle) -> bool
    ensures none { result ≡ true → handle ≡ no_event }
    ensures some { result ≡ false → handle ≢ no_event }
{
    handle.slot == 4294967295 && handle.gen_ == 0
}

/// The word of a slot once this generation of it has ended.
pub fn next_word(last_gen: u32, gen_: u32) -> u64
    requires { gen_ ≤ last_gen }
    ensures { Follows last_gen gen_ result }
{
    if gen_ < last_gen {
        (gen_ as u64 + 1) * 4294967296
    } else {
        gen_ as u64 * 4294967296 + 4294967295
    }
}

/// The fate that a bit of a poison word shows.
pub fn fate_shown(word: u64, bit: u64) -> Fate
    requires { bit < 64 }
    ensures { result ≡ fate_by (bit_at word bit) }
{
    if word >> bit & 1 == 0 {
        Fate::Ok
    } else {
        Fate::Poison
    }
}

// The poison word with the bit that shows this fate.
pub(crate) fn with_fate(word: u64, bit: u64, fate: Fate) -> u64
    requires { bit < 64 }
    ensures here { bit_at result bit ≡ fate_code fate }
    ensures others { (i : ℕ) → i < 64 → i ≢ bit → bit_at result i ≡ bit_at word i }
{
    match fate {
        Fate::Ok => word & !(1 << bit),
        Fate::Poison => word | 1 << bit,
    }
}

// Puts zeros at the end until there are this many words.
pub(crate) fn lengthen(words: &mut Vec<u64>, size: usize)
    requires room { size ≤ vec_capacity words.old }
    ensures same { (i : ℕ) → slice_index words.new.items i ≡ slice_index words.old.items i }
    ensures size { (size ≤ length words.new.items) × (length words.old.items ≤ length words.new.items) }
    ensures room { vec_capacity words.old ≤ vec_capacity words.new }
{
    while words.len() < size {
        push_within(words, 0);
    }
}

// Sets the fate that a bit of a poison word shows. The words behind the last count as 0.
fn set_bit(words: &mut Vec<u64>, at: usize, bit: u64, fate: Fate)
    requires bit { bit < 64 }
    requires room { at < vec_capacity words.old }
    ensures here { bit_at (slice_index words.new.items at) bit ≡ fate_code fate }
    ensures beside { (b : ℕ) → b < 64 → b ≢ bit → bit_at (slice_index words.new.items at) b ≡ bit_at (slice_index words.old.items at) b }
    ensures others { (i : ℕ) → i ≢ at → slice_index words.new.items i ≡ slice_index words.old.items i }
    ensures size { length words.old.items ≤ length words.new.items }
    ensures room { vec_capacity words.old ≤ vec_capacity words.new }
{
    if at >= words.len() {
        if let Fate::Ok = fate {
            return;
        }
        lengthen(words, at + 1);
    }
    words[at] = with_fate(words[at], bit, fate);
}

// Writes the fate of a handle to its poison bit.
pub(crate) fn set_fate(words: &mut Vec<u64>, shape: &Shape, handle: Handle, fate: Fate)
    requires sized { IsSized shape.now }
    requires within { (handle.slot < shape.now.slots) × (handle.gen_ ≤ shape.now.last_gen) }
    requires room { shape.now.slots + shape.now.waiters + mark_words shape.now ≤ vec_capacity words.old }
    ensures marked { IsMarked shape.now words.old.items words.new.items handle fate }
    ensures room { vec_capacity words.old ≤ vec_capacity words.new }
{
    let bit = shape.place(handle) % 64;
    set_bit(words, shape.mark_at(handle), bit, fate);
}

// The answer for a handle that ended so.
pub(crate) fn answer(fate: Fate) -> Answer
    ensures { result ≡ answer_of fate }
{
    match fate {
        Fate::Ok => Answer::Triggered,
        Fate::Poison => Answer::Poisoned,
    }
}

// Puts the slot of a handle that has ended among the free ones, unless it is retired.
pub(crate) fn release(free: &mut Vec<u32>, last_gen: u32, handle: Handle)
    requires room { vec_len free.old < vec_capacity free.old }
    ensures items { free.new.items ≡ cond (nat_lt handle.gen_ last_gen) (free.old.items ++ handle.slot ∷ []) free.old.items }
    ensures room { vec_capacity free.old ≤ vec_capacity free.new }
{
    if handle.gen_ < last_gen {
        push_within(free, handle.slot);
    }
}

// Fills the list of free slots by their words, the lowest slot last.
pub(crate) fn free_slots(free: &mut Vec<u32>, slots: u32, words: &[u64])
    requires empty { free.old.items ≡ [] }
    requires room { slots ≤ vec_capacity free.old }
    requires words { slots ≤ length words.now }
    ensures free { (i : ℕ) → Contains free.new.items i → (i < slots) × (slice_index words.now i % 4294967296 ≡ 0) }
    ensures all { (i : ℕ) → i < slots → slice_index words.now i % 4294967296 ≡ 0 → Contains free.new.items i }
    ensures once { (f : ℕ → ℕ) → total f free.new.items ≤ below f slots }
    ensures room { vec_capacity free.old ≤ vec_capacity free.new }
{
    let mut slot = slots;
    while slot > 0 {
        slot -= 1;
        if words[slot as usize] % 4294967296 == 0 {
            push_within(free, slot);
        }
    }
}

// The word of a slot without waiters that was created and ended this often in all.
pub(crate) fn word_after(turns: u64, last_gen: u32) -> u64
    requires { turns ≤ 2 * last_gen + 2 }
    ensures { Shows last_gen turns [] result }
{
    let gens = turns / 2;
    if turns % 2 == 1 {
        gens * 4294967296 + 1
    } else if gens <= last_gen as u64 {
        gens * 4294967296
    } else {
        last_gen as u64 * 4294967296 + 4294967295
    }
}
