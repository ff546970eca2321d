//! What the slots of a run hold once no other seat can step.

ghost use Rattle.std.specs.Prelude.{ℕ, ◌≡◌, ◌<◌, ◌+◌, length, Some, slice_get, Contains};
ghost use Rattle.std.specs.Slots.{slots_items, slots_len, slots_filled};
ghost use mathlib.Core.Option.{some};
ghost use lib.ListN.{get_elem?};
ghost use Rattle.index_spaces.specs.Column.{ColumnValue};
ghost use Rattle.graph_terms.specs.Graph.{columns};
ghost use Rattle.event_table.specs.declared.handle.Handle.{Handle as TheHandle};
ghost use Rattle.shared_events.specs.Seats.{Keeps};
ghost use Rattle.shared_events.specs.Views.{lists, IsAt as IsSeatAt};
ghost use Rattle.word_steps.specs.declared.content.Content.{Content as TheContent};
ghost use Rattle.word_parts.specs.Emptying.{AreTaken, AreLineItems, IsLineItem, IsSettled};
ghost use Rattle.word_steps.specs.Layout.{size_of, line_slot, slot_count};
ghost use Rattle.word_steps.specs.Lending.{LiesIn, MayJoin, joined, all_for};
ghost use Rattle.word_parts.specs.Preparing.{AreOut};
ghost use Rattle.share_words.specs.Shares.{AreShares, share_count};

use atomic_table::Closed;
use graph_model::graph::Graph;
use index_spaces::shares::ColumnShare;
use line_effects::homes::Homes;
use share_words::ShareCounts;
use shared_events::{Events, Seat};
use std::alloc::Global;
use word_steps::{Content, column_of};

/// Gives up the event of a line that has not ended, and learns the receipt of one that has.
fn settle(events: &Events, seat: &mut Seat, content: Content)
    requires at { IsSeatAt events.now seat.old }
    requires item { IsLineItem events.now content }
    ensures at { IsSeatAt events.now seat.new }
    ensures kept { Keeps (lists seat.old) (lists seat.new) }
    ensures still { (h : TheHandle) → Contains (lists seat.old).left h → Contains (lists seat.new).left h }
    ensures settled { IsSettled (lists seat.new) content }
{
    match content {
        Content::Nothing => {}
        Content::PendingEvent(pending) => {
            events.leave(seat, pending);
        }
        Content::EventReceipt(receipt) => events.learn(seat, receipt),
        _ => unreachable!(),
    }
}

/// Empties the slots of the lines.
pub(crate) fn settle_lines(
    graph: &Graph,
    events: &Events,
    seat: &mut Seat,
    closed: &mut Closed<Content, Global>,
)
    requires at { IsSeatAt events.now seat.old }
    requires deep { slots_len closed.old.slots ≡ slot_count (size_of graph.now) }
    requires taken { AreTaken (size_of graph.now) 0 0 0 (slots_filled closed.old.slots) }
    requires items { AreLineItems events.now (size_of graph.now) (slots_items closed.old.slots) }
    ensures at { IsSeatAt events.now seat.new }
    ensures kept { Keeps (lists seat.old) (lists seat.new) }
    ensures deep { slots_len closed.new.slots ≡ slot_count (size_of graph.now) }
    ensures taken { AreTaken (size_of graph.now) (length graph.now.lines) 0 0 (slots_filled closed.new.slots) }
    ensures same { (slots_items closed.new.slots ≡ slots_items closed.old.slots) × (closed.new.words ≡ closed.old.words) }
    ensures settled { (i : ℕ) (x : TheContent) → i < length graph.now.lines
        → get_elem? (slots_items closed.old.slots) (line_slot (size_of graph.now) i) ≡ some x → IsSettled (lists seat.new) x }
{
    for line in 0..graph.lines() {
        settle(events, seat, closed.take(line as usize));
    }
}

/// Some shares of a column, and what lies in the place of one: a share more, or nothing.
pub(crate) fn joined(all: Option<ColumnShare>, content: Content) -> Option<ColumnShare>
    requires { MayJoin all content }
    ensures { result ≡ joined all content }
{
    match content {
        Content::Nothing => all,
        Content::Share(share) => match all {
            None => Some(share),
            Some(mut all) => {
                all.join(share);
                Some(all)
            }
        },
        _ => unreachable!(),
    }
}

/// All shares of a column, out of their places, if it has some.
fn shares_of(
    graph: &Graph,
    planes: u32,
    closed: &mut Closed<Content, Global>,
    c: u32,
) -> Option<ColumnShare>
    requires known { c < length (columns graph.now) }
    requires planes { planes ≡ (size_of graph.now).planes }
    requires deep { slots_len closed.old.slots ≡ slot_count (size_of graph.now) }
    requires taken { AreTaken (size_of graph.now) (length graph.now.lines) c 0 (slots_filled closed.old.slots) }
    requires there { (x : ColumnValue) × LiesIn graph.now (slots_items closed.old.slots) c x }
    ensures deep { slots_len closed.new.slots ≡ slot_count (size_of graph.now) }
    ensures taken { AreTaken (size_of graph.now) (length graph.now.lines) c planes (slots_filled closed.new.slots) }
    ensures same { slots_items closed.new.slots ≡ slots_items closed.old.slots }
    ensures all { (x : ColumnValue) (h : LiesIn graph.now (slots_items closed.old.slots) c x) → result ≡ all_for (share_count graph.now c) h.lending x }
{
    let columns = graph.columns() as usize;
    let first = graph.lines() as usize + columns + c as usize;
    let mut all = None;
    for j in 0..planes {
        all = joined(all, closed.take(first + j as usize * columns));
    }
    all
}

/// Moves the columns out of their slots and home.
pub(crate) fn homes_of(
    graph: &Graph,
    shares: &ShareCounts,
    closed: &mut Closed<Content, Global>,
    mut homes: Homes,
) -> Homes
    requires out { AreOut graph.now homes }
    requires shares { AreShares graph.now shares.now }
    requires deep { slots_len closed.old.slots ≡ slot_count (size_of graph.now) }
    requires taken { AreTaken (size_of graph.now) (length graph.now.lines) 0 0 (slots_filled closed.old.slots) }
    requires items { (c : ℕ) → c < length (columns graph.now) → (x : ColumnValue) × LiesIn graph.now (slots_items closed.old.slots) c x }
    ensures deep { slots_len closed.new.slots ≡ slot_count (size_of graph.now) }
    ensures taken { AreTaken (size_of graph.now) (length graph.now.lines) (length (columns graph.now)) 0 (slots_filled closed.new.slots) }
    ensures each { length result ≡ length (columns graph.now) }
    ensures home { (c : ℕ) (x : ColumnValue) → c < length (columns graph.now) → LiesIn graph.now (slots_items closed.old.slots) c x → slice_get result c ≡ Some (Some x) }
{
    let lines = graph.lines();
    for c in 0..graph.columns() {
        let all = shares_of(graph, shares.planes(), closed, c);
        let column = column_of(closed.take(lines as usize + c as usize), all);
        homes.give(c, column);
    }
    homes
}
