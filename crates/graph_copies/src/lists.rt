//! Copies of lists.

ghost use Rattle.std.specs.Prelude.{◌≡◌, IfOk};

use graph_terms::lists::ItemList;
use index_spaces::NoMemory;
use std::alloc::Global;

/// A copy of a list.
pub(crate) fn copy_of_items<T: Copy + Drop>(
    alloc: Global,
    items: &ItemList<T>,
) -> Result<ItemList<T>, NoMemory>
    ensures { IfOk result (λ l. l ≡ items.now) }
{
    let mut copy = ItemList::new(alloc);
    for item in items.items.as_slice() {
        copy.push(*item)?;
    }
    Ok(copy)
}
