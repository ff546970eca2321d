//! Marks of classes with lines of a slice.

ghost use Rattle.std.specs.Prelude.{◌≡◌, ℕ, ◌<◌, ◌≤◌, true, [], length, slice_get, OnOk, IfOk, IfSome};
ghost use Rattle.race_sweeps.specs.Marks.{IsMarked, AreMarksBelow};
ghost use Rattle.sweep_base.specs.Bits.{bit_in};

use index_spaces::NoMemory;
use index_spaces::room::{filled, push};
use std::alloc::Global;

/// A class, lines of a slice as bits, and the least place from which on its members are meant.
#[derive(Clone, Copy)]
pub(crate) struct Mark {
    pub(crate) class: u32,
    pub(crate) word: u64,
    pub(crate) floor: u32,
}

/// At most one mark a class, and for each class a place in their list.
#[derive(Drop)]
pub(crate) struct Marks {
    pub(crate) marks: Vec<Mark>,
    pub(crate) slots: Vec<usize>,
}

impl Marks {
    /// No marks of so many classes.
    pub(crate) fn new(alloc: Global, classes: usize) -> Result<Marks, NoMemory>
        ensures size { IfOk result (λ m. length m.slots.items ≡ classes) }
        ensures none { IfOk result (λ m. m.marks.items ≡ []) }
    {
        Ok(Marks {
            marks: Vec::new(alloc),
            slots: filled(alloc, 0, classes)?,
        })
    }

    /// Forgets all marks.
    pub(crate) fn clear(&mut self)
        ensures size { length self.new.slots.items ≡ length self.old.slots.items }
        ensures none { self.new.marks.items ≡ [] }
    {
        self.marks.clear();
    }

    /// Marks a class with the lines of a word.
    pub(crate) fn add(&mut self, class: u32, word: u64, floor: u32) -> Result<(), NoMemory>
        requires class { class < length self.old.slots.items }
        ensures size { OnOk result (length self.new.slots.items ≡ length self.old.slots.items) }
        ensures below { OnOk result ((n : ℕ) → class < n → AreMarksBelow self.old.marks.items n → AreMarksBelow self.new.marks.items n) }
        ensures kept { OnOk result ((c b x : ℕ) → IsMarked self.old.marks.items c b x → IsMarked self.new.marks.items c b x) }
        ensures marked { OnOk result ((b x : ℕ) → bit_in word b ≡ true → floor ≤ x → IsMarked self.new.marks.items class b x) }
    {
        let slot = self.slots[class as usize];
        match self.kept(slot, class) {
            Some(mark) => self.marks[slot] = joined(mark, word, floor),
            None => {
                self.slots[class as usize] = self.marks.len();
                push(&mut self.marks, Mark { class, word, floor })?;
            }
        }
        Ok(())
    }

    /// The mark at a place of the list, where it is of this class.
    fn kept(&self, slot: usize, class: u32) -> Option<Mark>
        ensures { IfSome result (λ m. (slice_get self.now.marks.items slot ≡ Some m) × (m.class ≡ class)) }
    {
        let mark = *self.marks.get(slot)?;
        if mark.class == class {
            Some(mark)
        } else {
            None
        }
    }
}

/// A mark with the lines of a word more.
fn joined(mark: Mark, word: u64, floor: u32) -> Mark
    ensures class { result.class ≡ mark.class }
    ensures old { (b : ℕ) → bit_in mark.word b ≡ true → bit_in result.word b ≡ true }
    ensures new { (b : ℕ) → bit_in word b ≡ true → bit_in result.word b ≡ true }
    ensures old_floor { result.floor ≤ mark.floor }
    ensures new_floor { result.floor ≤ floor }
{
    Mark {
        class: mark.class,
        word: mark.word | word,
        floor: mark.floor.min(floor),
    }
}
