//! The end of a run: no other seat can step any more.

ghost use Rattle.std.specs.Prelude.{ℕ, ◌≡◌, ◌≤◌, length, Contains};
ghost use Rattle.run_parts.specs.LineEvents.{last_gen_for};
ghost use Rattle.shared_events.specs.Views.{shape_of, IsAt as IsSeatAt};
ghost use Rattle.word_parts.specs.ClosingRoom.{IsClosingRoom};
ghost use Rattle.word_parts.specs.Leaving.{LeavesParts};
ghost use Rattle.word_parts.specs.Preparing.{AreOut};
ghost use Rattle.word_steps.specs.Premises.{HasNoRights};
ghost use Rattle.word_steps.specs.Table.{graph_of, events_of, IsSeatOf};

use crate::closed_slots::{homes_of, settle_lines};
use crate::closed_words::{states_of, values_of};
use crate::closing_room::ClosingRoom;
use line_effects::homes::Homes;
use run_parts::RunParts;
use shared_events::Seat;
use word_steps::{Base, IssueState, Place, WordTable, issue_state_of, issue_turn_slot};

/// What a run leaves, by the seat that every other was joined into, so that no work is out: a sound
/// state, of which holds what the seat knew. It takes no memory.
pub fn leave<'g>(
    table: WordTable<'g>,
    seat: Place,
    mut events: Seat,
    closing_room: ClosingRoom,
    homes: Homes,
) -> RunParts<'g>
    requires at { IsSeatOf table seat }
    requires events { IsSeatAt (events_of table) events }
    requires first { Contains seat.me.0.mine 0 }
    requires each { (n : ℕ) → Contains seat.me.0.splits n → Contains seat.me.0.mine n }
    requires free { HasNoRights seat.me.0 }
    requires room { IsClosingRoom (graph_of table) (shape_of (events_of table)).slots closing_room }
    requires out { AreOut (graph_of table) homes }
    requires waiters { (shape_of (events_of table)).waiters ≡ length (graph_of table).lines }
    requires gens { (shape_of (events_of table)).last_gen ≤ last_gen_for (length (graph_of table).lines) }
    requires enough { table.base.checked.now.need ≤ (shape_of (events_of table)).slots }
    requires most { (shape_of (events_of table)).slots ≤ 8192 }
    ensures { LeavesParts table.entry seat.me.0 events result }
{
    let (base, mut closed, shares) = table.into_closed(seat);
    let Base {
        checked,
        events: table,
    } = base;
    let graph = checked.graph();
    let _ = graph.lines();
    let issue_turn = issue_state_of(closed.take(issue_turn_slot(graph, &shares)));
    let IssueState {
        maker,
        handles,
        seat: other,
        waiters,
    } = issue_turn.into_state();
    drop(waiters);
    table.join(&mut events, other);
    settle_lines(graph, &table, &mut events, &mut closed);
    let states = states_of(graph, &closed, handles.as_slice(), closing_room.states);
    let phases = values_of(graph, &closed, closing_room.phases);
    let homes = homes_of(graph, &shares, &mut closed, homes);
    closed.free();
    let mut room = closing_room.room;
    // The pages of this list are there.
    room.handles = handles;
    RunParts {
        checked,
        states,
        table: table.close(maker, events).into_table(closing_room.table),
        homes,
        phases,
        room,
    }
}
