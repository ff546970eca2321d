//! Preparing a run, and its end: no other seat can step any more.

ghost use Rattle.std.specs.Prelude.{◌≡◌, ◌-◌, ◌≤◌, ◌∷◌, [], length, IfOk};
ghost use Rattle.shared_events.specs.Views.{shape_of};
ghost use Rattle.run_words.specs.Parts.{ShowsLeft};
ghost use Rattle.run_words.specs.Words.{graph_of, events_of, IsAt, HasAll, numbers_of, splits_of};

use crate::seats::WordSeat;
use crate::words::Words;
use checked_graph::Checked;
use index_spaces::NoMemory;
use run_parts::RunParts;
use std::alloc::Global;
use word_parts::{Begun, begin, leave};

impl<'g> Words<'g> {
    /// A run in which no line is issued, with this many event slots, and its first seat, off which
    /// all others are split. Slots go from the graph's need to 8,192. `NoMemory` comes where memory
    /// ran out.
    pub fn prepare(
        alloc: Global,
        checked: &'g Checked,
        slots: u32,
    ) -> Result<(Words<'g>, WordSeat), NoMemory>
        requires enough { checked.now.need ≤ slots }
        requires most { slots ≤ 8192 }
        ensures graph { IfOk result (λ r. graph_of r.0 ≡ checked.now.graph) }
        ensures shape { IfOk result (λ r. ((shape_of (events_of r.0)).slots ≡ slots)
            × ((shape_of (events_of r.0)).waiters ≡ length checked.now.graph.lines)
            × ((shape_of (events_of r.0)).last_gen ≡ length checked.now.graph.lines - slots)) }
        ensures at { IfOk result (λ r. IsAt r.0 r.1) }
        ensures first { IfOk result (λ r. (numbers_of r.1 ≡ 0 ∷ []) × (splits_of r.1 ≡ [])) }
    {
        let Begun {
            table,
            place,
            events,
            closing_room,
            homes,
        } = begin(alloc, checked, slots)?;
        let words = Words {
            table,
            closing_room,
            homes,
        };
        let seat = WordSeat {
            inner: place,
            events,
            has_placed: false,
        };
        Ok((words, seat))
    }

    /// What the run leaves, once every seat that was split off was joined into this one, those of works
    /// among them, so that no work is out: a sound state, of which holds what the seat knows. A core
    /// that is made of it goes on there. It takes no memory.
    pub fn close(self, seat: WordSeat) -> RunParts<'g>
        requires at { IsAt self seat }
        requires all { HasAll seat }
        ensures { ShowsLeft self.entry seat result }
    {
        let WordSeat { inner, events, .. } = seat;
        let Words {
            table,
            closing_room,
            homes,
        } = self;
        leave(table, inner, events, closing_room, homes)
    }
}
