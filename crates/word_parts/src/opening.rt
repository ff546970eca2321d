//! The beginning of a run: its table, and the room for its end.

ghost use Rattle.std.specs.Prelude.{◌≡◌, ◌≤◌, [], length, IfOk};
ghost use Rattle.graph_meaning.specs.Effect.{zero_cells};
ghost use Rattle.line_effects.specs.Homes.{all_home};
ghost use Rattle.shared_events.specs.Views.{IsAt as IsSeatAt};
ghost use Rattle.share_words.specs.Shares.{AreShares};
ghost use Rattle.word_parts.specs.Beginning.{IsBegun};
ghost use Rattle.word_parts.specs.Preparing.{AreOut};
ghost use Rattle.word_steps.specs.Layout.{size_of, word_count, slot_count};
ghost use Rattle.word_steps.specs.Opening.{IsFirstSeat};
ghost use Rattle.word_steps.specs.Rule.{IsIssueState};
ghost use Rattle.word_steps.specs.Table.{graph_of};

use crate::closed_slots::{homes_of, settle_lines};
use crate::closing_room::ClosingRoom;
use crate::freeing::free_slots;
use crate::preparing::{first_slots, first_words, new_issue_turn};
use atomic_table::Refused;
use checked_graph::Checked;
use index_spaces::NoMemory;
use index_spaces::room::with_room;
use line_effects::homes::Homes;
use share_words::ShareCounts;
use shared_events::Seat;
use std::alloc::Global;
use word_steps::{
    Base, BoxedIssueState, Place, RunTable, WordTable, close_first, issue_state_of,
    issue_turn_slot, open,
};

/// What a run begins with: its table with the first seat, the first seat at its events, the room for
/// its end, and the homes of its columns, which lie in the slots.
pub struct Begun<'g> {
    pub table: WordTable<'g>,
    pub place: Place,
    pub events: Seat,
    pub closing_room: ClosingRoom,
    pub homes: Homes,
}

/// Above so many words glibc gives a list a mapping of its own, at first.
const LONG: usize = 16_384;

/// At most so many are asked for, which are 4 MiB.
const LONGEST: usize = 524_288;

/// Asks for room for so many words and lets it go, whether or not there is some. It changes page faults
/// alone. The pages of a list with a mapping of its own are gone once it is let go, and glibc then raises
/// its threshold to the length of that list: shorter ones come from the heap, whose pages serve again.
fn keep_lists_in_heap(alloc: Global, words: usize) {
    if words <= LONG {
        return;
    }
    if let Ok(list) = with_room::<u64>(alloc, words.min(LONGEST)) {
        drop(list);
    }
}

/// The table of a run that begins, with its first seat, and the columns from their homes.
fn first_table<'g>(
    alloc: Global,
    base: &Base<'g>,
    homes: &mut Homes,
    shares: &ShareCounts,
    issue_turn: BoxedIssueState,
) -> Result<(RunTable<'g>, Place), NoMemory>
    requires zero { homes.old ≡ all_home base.now.checked.now.graph zero_cells }
    requires shares { AreShares base.now.checked.now.graph shares.now }
    requires issue_state { IsIssueState base.now.events (length base.now.checked.now.graph.lines) [] issue_turn }
    ensures keyed { IfOk result (λ r. r.0.shared.key ≡ base.now) }
    ensures sized { IfOk result (λ r. (r.0.shared.table_id.words ≡ word_count (size_of base.now.checked.now.graph))
        × (r.0.shared.table_id.slots ≡ slot_count (size_of base.now.checked.now.graph))) }
    ensures first { IfOk result (λ r. IsFirstSeat base.now r.0.shared.table_id r.1) }
    ensures out { IfOk result (λ _. AreOut base.now.checked.now.graph homes.new) }
{
    let graph = base.checked.graph();
    let _ = graph.lines();
    let words = first_words(alloc, graph, shares)?;
    let contents = first_slots(alloc, graph, homes, shares, issue_turn)?;
    match open(alloc, base, words.as_slice(), contents) {
        Ok(made) => Ok(made),
        Err(Refused { slots }) => {
            free_slots(graph, shares, slots);
            Err(NoMemory)
        }
    }
}

/// Lets go of a table by its first seat, and of its columns, once each is together and home again. No
/// line has an event.
fn abandon<'g>(
    base: &Base<'g>,
    table: RunTable<'g>,
    seat: Place,
    events: &mut Seat,
    homes: Homes,
    shares: &ShareCounts,
)
    requires keyed { table.shared.key ≡ base.now }
    requires first { IsFirstSeat base.now table.shared.table_id seat }
    requires events { IsSeatAt base.now.events events.old }
    requires out { AreOut base.now.checked.now.graph homes }
    requires shares { AreShares base.now.checked.now.graph shares.now }
{
    let graph = base.checked.graph();
    let _ = graph.lines();
    let mut closed = close_first(base, table, seat);
    let issue_turn = issue_state_of(closed.take(issue_turn_slot(graph, shares)));
    drop(issue_turn);
    settle_lines(graph, &base.events, events, &mut closed);
    let homes = homes_of(graph, shares, &mut closed, homes);
    closed.free();
    drop(homes);
}

/// A run in which no line is issued, with this many event slots. `NoMemory` comes where memory ran
/// out.
pub fn begin<'g>(alloc: Global, checked: &'g Checked, slots: u32) -> Result<Begun<'g>, NoMemory>
    requires enough { checked.now.need ≤ slots }
    requires most { slots ≤ 8192 }
    ensures graph { IfOk result (λ b. graph_of b.table ≡ checked.now.graph) }
    ensures begun { IfOk result (λ b. IsBegun slots b) }
{
    let graph = checked.graph();
    let _ = checked.need();
    let lines = graph.lines();
    keep_lists_in_heap(alloc, lines as usize * (slots as usize / 64 + 4));
    let (events, issue_turn, mut seat) = new_issue_turn(alloc, slots, lines)?;
    let mut homes = Homes::zeroed(alloc, graph)?;
    let shares = ShareCounts::of_graph(alloc, graph)?;
    let base = Base { checked, events };
    let (table, place) = first_table(alloc, &base, &mut homes, &shares, issue_turn)?;
    // The lists of which the table was made are let go, and their pages serve for the end.
    let Ok(closing_room) = ClosingRoom::prepare(alloc, graph, slots) else {
        abandon(&base, table, place, &mut seat, homes, &shares);
        return Err(NoMemory);
    };
    let words = WordTable::new(base, table, shares);
    Ok(Begun {
        table: words,
        place,
        events: seat,
        closing_room,
        homes,
    })
}
