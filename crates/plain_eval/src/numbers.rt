//! Sets whose want of memory is `NoMemory`.

ghost use Rattle.std.specs.Prelude.{◌≡◌, ℕ, ◌==◌, ◌||◌, OnOk};
ghost use Rattle.std.specs.BTreeSet.{contains};
ghost use Rattle.std.specs.Ordering.{nat_cmp};

use index_spaces::NoMemory;
use std::collections::BTreeSet;

/// Puts a number into a set.
pub(crate) fn insert(numbers: &mut BTreeSet<u32>, number: u32) -> Result<(), NoMemory>
    ensures { OnOk result ((i : ℕ) → contains nat_cmp numbers.new i ≡ (contains nat_cmp numbers.old i || (number == i))) }
{
    match numbers.insert(number) {
        Ok(_) => Ok(()),
        Err(_) => Err(NoMemory),
    }
}
