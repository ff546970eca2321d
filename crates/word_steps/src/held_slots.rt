//! What lies in the slots that a seat holds.

ghost use Rattle.std.specs.Prelude.{ℕ, List, ◌≡◌, ◌∷◌};
ghost use Rattle.word_steps.specs.declared.content.Content.{Content as TheContent};
ghost use Rattle.word_steps.specs.declared.content.Content.TheVariants.{Nothing};
ghost use Rattle.word_steps.specs.Table.{IsSeatOf};

use crate::content::Content;
use crate::moves::Place;
use crate::table::WordTable;

/// Lets go of what is nothing.
pub fn let_go_of(content: Content)
    requires { content ≡ Nothing }
{
    let Content::Nothing = content else {
        unreachable!()
    };
}

impl<'g> WordTable<'g> {
    /// Takes out what the slot holds that the seat took last: an exchange reaches no other.
    pub fn take_out(&self, seat: &mut Place, slot: usize) -> Content
        requires at { IsSeatOf self.now seat.old }
        requires top { (x : TheContent) × (left : List (ℕ × TheContent)) × (seat.old.me.1 ≡ (slot, x) ∷ left) }
        ensures at { IsSeatOf self.now seat.new }
        ensures view { seat.new.me.0 ≡ seat.old.me.0 }
        ensures hand { (x : TheContent) (left : List (ℕ × TheContent)) → seat.old.me.1 ≡ (slot, x) ∷ left
            → (result ≡ x) × (seat.new.me.1 ≡ (slot, Nothing) ∷ left) }
    {
        self.table.shared.exchange(seat, slot, Content::Nothing)
    }

    /// Puts something into the slot that the seat took last, which holds nothing.
    pub fn put_in(&self, seat: &mut Place, slot: usize, content: Content)
        requires at { IsSeatOf self.now seat.old }
        requires top { (left : List (ℕ × TheContent)) × (seat.old.me.1 ≡ (slot, Nothing) ∷ left) }
        ensures at { IsSeatOf self.now seat.new }
        ensures view { seat.new.me.0 ≡ seat.old.me.0 }
        ensures hand { (left : List (ℕ × TheContent)) → seat.old.me.1 ≡ (slot, Nothing) ∷ left → seat.new.me.1 ≡ (slot, content) ∷ left }
    {
        let old = self.table.shared.exchange(seat, slot, content);
        let_go_of(old);
    }
}
