//! Waiters that were caught.

ghost use Rattle.std.specs.Prelude.{◌≡◌, ◌-◌, ◌<◌, ◌≤◌, ◌++◌, ◌∷◌, [], cond, nat_lt, vec_len};
ghost use Rattle.std.specs.Vec.{vec_capacity};

use crate::handle::Handle;
use crate::room::push_within;

/// Waiters that stood on a handle as it ended and were not given yet, by the first of them. The
/// link words lead to the others.
#[derive(Clone, Copy)]
pub(crate) struct Chain {
    pub(crate) handle: Handle,
    pub(crate) first: u32,
}

// Puts a chain of a handle behind the others: `next` is the number of its first waiter plus one, or
// 0 where there is none.
pub(crate) fn catch(caught: &mut Vec<Chain>, handle: Handle, next: u64)
    requires room { 0 < next → vec_len caught.old < vec_capacity caught.old }
    requires number { next < 4294967296 }
    ensures items { caught.new.items ≡ cond (nat_lt 0 next)
        (caught.old.items ++ record { handle = handle; first = next - 1 } ∷ []) caught.old.items }
    ensures room { vec_capacity caught.old ≤ vec_capacity caught.new }
{
    if next > 0 {
        let first = (next - 1) as u32;
        push_within(caught, Chain { handle, first });
    }
}
