//! Vectors whose want of memory is a refusal.

ghost use Rattle.std.specs.Prelude.{◌≡◌, ◌+◌, ◌<◌, ◌≤◌, ◌++◌, [], ◌∷◌, vec_len, IfOk, IfErr, OnOk};
ghost use Rattle.std.specs.Vec.{vec_capacity};

use crate::refusal::RecordRefusal;
use std::alloc::Global;

/// A vector without items, and with room for so many.
pub(crate) fn with_room<T: Drop>(alloc: Global, count: u32) -> Result<Vec<T>, RecordRefusal>
    ensures items { IfOk result (λ v. v.items ≡ []) }
    ensures room { IfOk result (λ v. count ≤ vec_capacity v) }
    ensures err { IfErr result (λ e. e ≡ RecordRefusal.NoMemory) }
{
    match Vec::with_capacity(alloc, count as usize) {
        Ok(items) => Ok(items),
        Err(_) => Err(RecordRefusal::NoMemory),
    }
}

/// Makes room for one item more.
pub(crate) fn reserve_one<T>(items: &mut Vec<T>) -> Result<(), RecordRefusal>
    ensures items { items.new.items ≡ items.old.items }
    ensures room { OnOk result (vec_len items.new < vec_capacity items.new) }
    ensures err { IfErr result (λ e. e ≡ RecordRefusal.NoMemory) }
{
    match items.reserve(1) {
        Ok(()) => Ok(()),
        Err(_) => Err(RecordRefusal::NoMemory),
    }
}

/// Puts an item at the end of a vector that has room for it.
pub(crate) fn push_within<T: Drop>(items: &mut Vec<T>, item: T)
    requires { vec_len items.old < vec_capacity items.old }
    ensures items { items.new.items ≡ items.old.items ++ item ∷ [] }
    ensures capacity { vec_capacity items.old ≤ vec_capacity items.new }
{
    match items.push(item) {
        Ok(()) => {}
        Err(_) => unreachable!(),
    }
}
