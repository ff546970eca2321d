//! Vectors that take their memory before it is needed.
ghost use Rattle.std.specs.Prelude.{◌≡◌, ◌<◌, ◌≤◌, ◌++◌, [], ◌∷◌, vec_len, IfOk};
ghost use Rattle.std.specs.Vec.{vec_capacity};

use std::alloc::{AllocError, Global};

/// A vector without items, and with room for eight.
pub(crate) fn room_for_parts<T: Drop>(alloc: Global) -> Result<Vec<T>, AllocError>
    ensures items { IfOk result (λ v. v.items ≡ []) }
    ensures room { IfOk result (λ v. vec_capacity v ≡ 8) }
{
    Vec::with_capacity(alloc, 8)
}

/// Puts an item at the end of a vector that has room for it.
pub(crate) fn push_within<T: Drop>(items: &mut Vec<T>, item: T)
    requires { vec_len items.old < vec_capacity items.old }
    ensures items { items.new.items ≡ items.old.items ++ item ∷ [] }
    ensures capacity { vec_capacity items.old ≤ vec_capacity items.new }
{
    match items.push(item) {
        Ok(()) => {}
        Err(_) => unreachable!(),
    }
}
