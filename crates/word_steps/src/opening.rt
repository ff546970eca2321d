//! How the table of a run is opened and closed.

ghost use Rattle.std.specs.Prelude.{ℕ, ◌≡◌, List, Contains, IfOk, IfErr};
ghost use Rattle.std.specs.Slots.{slots_items, IsFull};
ghost use Rattle.event_table.specs.declared.handle.Handle.{Handle as TheHandle};
ghost use Rattle.run_state.specs.Run.{Run};
ghost use Rattle.share_words.specs.Shares.{AreShares};
ghost use Rattle.word_steps.specs.Closing.{IsLeft};
ghost use Rattle.word_steps.specs.Layout.{size_of, word_count, slot_count};
ghost use Rattle.word_steps.specs.Opening.{AreFirstWords, AreFirstSlots, IsFirstSeat};
ghost use Rattle.word_steps.specs.Premises.{HasNoRights};
ghost use Rattle.word_steps.specs.Table.{graph_of, events_of, IsSeatOf};

use crate::base::Base;
use crate::content::Content;
use crate::moves::{Place, clock_word, issue_turn_slot};
use crate::table::{RunTable, WordTable};
use atomic_table::{Closed, Refused, Table};
use share_words::ShareCounts;
use std::alloc::Global;

/// A table with its first seat, or the slots where memory ran out.
pub type Opened<'g> = Result<(RunTable<'g>, Place), Refused<Content, Global>>;

/// The table of a run that begins, with its first seat. The slots come back where memory ran out.
pub fn open<'g>(alloc: Global, base: &Base<'g>, words: &[u64], slots: Vec<Content>) -> Opened<'g>
    requires words { AreFirstWords base.now.checked.now.graph (size_of base.now.checked.now.graph) words.now }
    requires slots { AreFirstSlots base.now.checked.now.graph base.now.events (size_of base.now.checked.now.graph) slots.items }
    ensures keyed { IfOk result (λ r. r.0.shared.key ≡ base.now) }
    ensures sized { IfOk result (λ r. (r.0.shared.table_id.words ≡ word_count (size_of base.now.checked.now.graph))
        × (r.0.shared.table_id.slots ≡ slot_count (size_of base.now.checked.now.graph))) }
    ensures first { IfOk result (λ r. IsFirstSeat base.now r.0.shared.table_id r.1) }
    ensures refused { IfErr result (λ r. r.slots.items ≡ slots.items) }
{
    let _ = base.checked.graph().lines();
    Table::new(alloc, words, slots, base)
}

/// The words and slots of a table by its first seat: what a run leaves in which nothing was done.
pub fn close_first<'g>(base: &Base<'g>, table: RunTable<'g>, seat: Place) -> Closed<Content, Global>
    requires keyed { table.shared.key ≡ base.now }
    requires first { IsFirstSeat base.now table.shared.table_id seat }
    ensures full { IsFull result.words × IsFull result.slots }
    ensures left { (run : Run) × (handles : List TheHandle)
        × IsLeft base.now.checked.now.graph base.now.events seat.me.0 run handles (slots_items result.words) (slots_items result.slots) }
{
    table.close_with(seat)
}

impl<'g> WordTable<'g> {
    /// A table that was opened over this base.
    pub fn new(base: Base<'g>, table: RunTable<'g>, shares: ShareCounts) -> WordTable<'g>
        requires keyed { table.shared.key ≡ base }
        requires sized { (table.shared.table_id.words ≡ word_count (size_of base.checked.now.graph))
            × (table.shared.table_id.slots ≡ slot_count (size_of base.checked.now.graph)) }
        requires counted { AreShares base.checked.now.graph shares }
        ensures base { result.base ≡ base.entry }
        ensures table { result.table ≡ table.entry }
    {
        let graph = base.checked.graph();
        let clock = clock_word(graph, &shares);
        let issue_slot = issue_turn_slot(graph, &shares);
        WordTable {
            base,
            table,
            shares,
            clock,
            issue_slot,
        }
    }

    /// The words and slots that the run leaves, by the seat that every other was joined into. They
    /// show a sound state in which no work is out, and what the seat knew holds of it.
    pub fn into_closed(self, seat: Place) -> (Base<'g>, Closed<Content, Global>, ShareCounts)
        requires at { IsSeatOf self seat }
        requires first { Contains seat.me.0.mine 0 }
        requires each { (n : ℕ) → Contains seat.me.0.splits n → Contains seat.me.0.mine n }
        requires free { HasNoRights seat.me.0 }
        ensures base { result.0 ≡ self.entry.base }
        ensures shares { AreShares (graph_of self.entry) result.2 }
        ensures full { IsFull result.1.words × IsFull result.1.slots }
        ensures left { (run : Run) × (handles : List TheHandle)
            × IsLeft (graph_of self.entry) (events_of self.entry) seat.me.0 run handles
            (slots_items result.1.words) (slots_items result.1.slots) }
    {
        let WordTable {
            base,
            table,
            shares,
            clock: _,
            issue_slot: _,
        } = self;
        let closed = table.close_with(seat);
        (base, closed, shares)
    }
}
