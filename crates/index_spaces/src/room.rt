//! Vectors whose want of memory is `NoMemory`.

ghost use Rattle.std.specs.Prelude.{◌≡◌, ℕ, ◌<◌, ◌+◌, ◌≤◌, ◌++◌, [], ◌∷◌, length, replicate, vec_len, OnOk, OnErr, IfOk};
ghost use Rattle.std.specs.List.{slice_index_or};
ghost use Rattle.std.specs.Vec.{vec_capacity};

use crate::NoMemory;
use std::alloc::Global;

/// A vector without items, and with room for so many.
pub fn with_room<T: Drop>(alloc: Global, count: usize) -> Result<Vec<T>, NoMemory>
    ensures items { IfOk result (λ v. v.items ≡ []) }
    ensures room { IfOk result (λ v. vec_capacity v ≡ count) }
{
    match Vec::with_capacity(alloc, count) {
        Ok(items) => Ok(items),
        Err(_) => Err(NoMemory),
    }
}

/// A vector of one item, so many times.
pub fn filled<T: Copy>(alloc: Global, item: T, count: usize) -> Result<Vec<T>, NoMemory>
    ensures items { IfOk result (λ v. v.items ≡ replicate count item) }
    ensures size { IfOk result (λ v. length v.items ≡ count) }
    ensures each { IfOk result (λ v. (i : ℕ) → slice_index_or v.items i item ≡ item) }
{
    let mut items = with_room(alloc, count)?;
    match items.resize(count, item) {
        Ok(()) => Ok(items),
        Err(_) => Err(NoMemory),
    }
}

/// Makes room for so many more items.
pub fn reserve<T>(items: &mut Vec<T>, more: usize) -> Result<(), NoMemory>
    ensures items { items.new.items ≡ items.old.items }
    ensures capacity { vec_capacity items.old ≤ vec_capacity items.new }
    ensures room { OnOk result (vec_len items.new + more ≤ vec_capacity items.new) }
{
    match items.reserve(more) {
        Ok(()) => Ok(()),
        Err(_) => Err(NoMemory),
    }
}

/// Puts an item at the end of a vector that has room for it.
pub fn push_within<T: Drop>(items: &mut Vec<T>, item: T)
    requires { vec_len items.old < vec_capacity items.old }
    ensures items { items.new.items ≡ items.old.items ++ item ∷ [] }
    ensures len { vec_len items.new ≡ vec_len items.old + 1 }
    ensures capacity { vec_capacity items.old ≤ vec_capacity items.new }
{
    items.push_reserved(item);
}

/// Puts an item at the end. `NoMemory` leaves the items as they were.
pub fn push<T: Drop>(items: &mut Vec<T>, item: T) -> Result<(), NoMemory>
    ensures ok { OnOk result (items.new.items ≡ items.old.items ++ item ∷ []) }
    ensures err { OnErr result (items.new.items ≡ items.old.items) }
{
    match items.push(item) {
        Ok(()) => Ok(()),
        Err(_) => Err(NoMemory),
    }
}
