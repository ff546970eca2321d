//! The members of classes.

ghost use Rattle.std.specs.Prelude.{◌≡◌, ℕ, ◌+◌, ◌<◌, List, Some, length, slice_get, OnOk, IfOk};
ghost use Rattle.race_sweeps.specs.Members.{AreMembers};

use index_spaces::NoMemory;
use index_spaces::room::{filled, push, with_room};
use std::alloc::Global;

/// The place of the first member of each class and its last member, and for each access the member
/// of its class before it.
#[derive(Drop)]
pub(crate) struct Members {
    pub(crate) first: Vec<u32>,
    pub(crate) last: Vec<Option<u32>>,
    pub(crate) earlier: Vec<Option<u32>>,
}

impl Members {
    /// No members of so many classes, with room for so many.
    pub(crate) fn new(alloc: Global, classes: usize, members: usize) -> Result<Members, NoMemory>
        ensures firsts { IfOk result (λ m. length m.first.items ≡ classes) }
        ensures size { IfOk result (λ m. length m.last.items ≡ classes) }
        ensures none { IfOk result (λ m. (of : List ℕ) → AreMembers of m.last.items m.earlier.items 0) }
    {
        Ok(Members {
            first: filled(alloc, u32::MAX, classes)?,
            last: filled(alloc, None, classes)?,
            earlier: with_room(alloc, members)?,
        })
    }

    /// Lists the access of the next number, at its place.
    pub(crate) fn add(&mut self, classes: &[u32], number: u32, place: u32) -> Result<(), NoMemory>
        requires known { (c : ℕ) → slice_get classes.now number ≡ Some c → c < length self.old.last.items }
        requires number { number < length classes.now }
        requires firsts { length self.old.first.items ≡ length self.old.last.items }
        requires members { AreMembers classes.now self.old.last.items self.old.earlier.items number }
        ensures firsts { length self.new.first.items ≡ length self.old.first.items }
        ensures size { length self.new.last.items ≡ length self.old.last.items }
        ensures members { OnOk result (AreMembers classes.now self.new.last.items self.new.earlier.items (number + 1)) }
    {
        let class = classes[number as usize] as usize;
        push(&mut self.earlier, self.last[class])?;
        self.last[class] = Some(number);
        self.first[class] = self.first[class].min(place);
        Ok(())
    }
}
