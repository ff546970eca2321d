//! Lists that are filled within their room.

ghost use Rattle.std.specs.Prelude.{◌≡◌, ◌≤◌, replicate};
ghost use Rattle.std.specs.Vec.{vec_capacity};

use index_spaces::room::push_within;

/// One item, so many times, in place of what the vector had.
pub fn filled_within<T: Copy>(mut items: Vec<T>, item: T, count: usize) -> Vec<T>
    requires room { count ≤ vec_capacity items }
    ensures items { result.items ≡ replicate count item }
    ensures room { count ≤ vec_capacity result }
{
    items.clear();
    for _turn in 0..count {
        push_within(&mut items, item);
    }
    items
}
