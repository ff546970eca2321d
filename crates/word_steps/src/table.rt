//! The table of a run: its words and slots, under their rule.

ghost use Rattle.std.specs.Prelude.{◌≡◌};
ghost use Rattle.share_words.specs.Shares.{AreShares};
ghost use Rattle.word_steps.specs.Layout.{size_of, word_count, slot_count, clock_word, issue_turn_slot};

use crate::base::Base;
use crate::content::Content;
use crate::plays::Law;
use crate::view::View;
use atomic_table::Table;
use share_words::ShareCounts;
use std::alloc::Global;

/// The words and slots of a run, under the rule of its graph and its events.
pub type RunTable<'g> = Table<Content, View, Base<'g>, Law, Global>;

/// The words and slots that threads share, with what their single steps need. What the words and
/// slots are for is in `specs/Layout.antt`.
pub struct WordTable<'g> {
    pub base: Base<'g>,
    pub(crate) table: RunTable<'g>,
    pub(crate) shares: ShareCounts,
    // The word of the clock and the slot of the issue state, which each line asks for.
    pub(crate) clock: usize,
    pub(crate) issue_slot: usize,
    // The table's rule is that of this graph and these events.
    ghost keyed: { table.shared.key ≡ base },
    ghost sized: { (table.shared.table_id.words ≡ word_count (size_of base.checked.now.graph))
        × (table.shared.table_id.slots ≡ slot_count (size_of base.checked.now.graph)) },
    ghost counted: { AreShares base.checked.now.graph shares },
    ghost placed: { (clock ≡ clock_word (size_of base.checked.now.graph)) × (issue_slot ≡ issue_turn_slot (size_of base.checked.now.graph)) },
}
