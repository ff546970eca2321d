//! Issuing lines.

ghost use Rattle.std.specs.Prelude.{ℕ, List, ◌≡◌, ◌≢◌, ◌+◌, ◌<◌, ◌≤◌, ◌∷◌, ◌++◌, [], true, false, Some, None, length, Contains, IfSome, IfNone};
ghost use Rattle.std.specs.Vec.{vec_capacity};
ghost use Rattle.graph_terms.specs.declared.outcome.End.{End as TheEnd};
ghost use Rattle.event_table.specs.declared.handle.Handle.{Handle as TheHandle};
ghost use Rattle.shared_events.specs.Seats.{Grows, Keeps, SamePlacings};
ghost use Rattle.shared_events.specs.Views.{shape_of, lists};
ghost use Rattle.word_steps.specs.declared.content.Content.{Content as TheContent};
ghost use Rattle.word_steps.specs.declared.content.Content.TheVariants.{Nothing, Issuer};
ghost use Rattle.run_words.specs.Issuing.{AllPending};
ghost use Rattle.word_steps.specs.Layout.{size_of, issue_turn_slot, issue_turn_word};
ghost use Rattle.word_steps.specs.Plays.{issued_at, without_issue, with_issue_turn, without_issue_turn, missed, after_issue};
ghost use Rattle.word_steps.specs.Premises.{IsNumbered};
ghost use Rattle.word_steps.specs.Rule.{IsIssueState};
ghost use Rattle.run_words.specs.Standing.{KeepsWaiters, IssuesInTurn, IsStill};
ghost use Rattle.run_words.specs.Words.{graph_of, events_of, IsSeatOf, IsAt, KnowsIssued, KnowsEnded, KnowsHandles, IsEventSeat, FoundTaken, events_seat, numbers_of, splits_of};

use crate::seats::WordSeat;
use crate::words::Words;
use event_table::Handle;
use run_parts::Issue;
use shared_events::Seat;
use word_steps::{BoxedIssueState, Content, IssueState, Place, issue_state_of};

/// Puts a handle at the end of a list that has room for it.
fn push_within(handles: &mut Vec<Handle>, handle: Handle)
    requires { length handles.old.items < vec_capacity handles.old }
    ensures items { handles.new.items ≡ handles.old.items ++ handle ∷ [] }
    ensures capacity { vec_capacity handles.old ≤ vec_capacity handles.new }
{
    match handles.push(handle) {
        Ok(()) => {}
        Err(_) => unreachable!(),
    }
}

impl<'g> Words<'g> {
    /// Issues the next line, in the issue turn and with the issue state. False comes where
    /// each event slot was found pending. Nobody else issues in this turn, so the line is
    /// claimed at the first try.
    fn issue_next(
        &self,
        seat: &mut Place,
        events: &mut Seat,
        issue_turn: &mut IssueState,
        line: u32,
    ) -> bool
        requires at { IsSeatOf self.now seat.old }
        requires events { IsEventSeat self.now events.old }
        requires line { line < length (graph_of self.now).lines }
        requires quiet { seat.old.me.0.issuing ≡ None }
        requires turn { seat.old.me.0.issue_turn ≡ Some issue_turn.old.handles.items }
        requires next { length issue_turn.old.handles.items ≡ line }
        requires issue_state { IsIssueState (events_of self.now) (length (graph_of self.now).lines) issue_turn.old.handles.items issue_turn.old }
        ensures at { IsSeatOf self.now seat.new }
        ensures issue_state { IsIssueState (events_of self.now) (length (graph_of self.now).lines) issue_turn.new.handles.items issue_turn.new }
        ensures waiters { issue_turn.new.waiters.items ≡ issue_turn.old.waiters.items }
        ensures events { IsEventSeat self.now events.new }
        ensures kept { Keeps (lists events.old) (lists events.new) }
        ensures grows { Grows (lists events.old) (lists events.new) }
        ensures same_placings { SamePlacings (lists events.old) (lists events.new) }
        ensures issued { result ≡ true → (h : TheHandle) × (issue_turn.new.handles.items ≡ issue_turn.old.handles.items ++ h ∷ [])
            × (seat.new.me ≡ (issued_at seat.old.me.0 line (h ∷ []), seat.old.me.1)) }
        ensures full { result ≡ false → (issue_turn.new.handles.items ≡ issue_turn.old.handles.items)
            × (seat.new.me ≡ (without_issue seat.old.me.0, seat.old.me.1))
            × AllPending (shape_of (events_of self.now)) issue_turn.new.handles.items (lists events.old) (lists events.new) }
    {
        self.table.begin_issue(seat, line);
        match self.table.base.events.create(&mut issue_turn.maker, events) {
            Some(mut pending) => {
                // The seat in the issue state has then seen the handles of all issued lines, as who watches
                // one must.
                self.table
                    .base
                    .events
                    .see(&mut issue_turn.seat, &mut pending);
                push_within(&mut issue_turn.handles, pending.handle());
                self.table
                    .put_in(seat, line as usize, Content::PendingEvent(pending));
                self.table.store_issue(seat, line);
                true
            }
            None => {
                self.table.give_up_issue(seat, line);
                false
            }
        }
    }

    /// Takes the issue turn and the issue state. None comes where the turn was found in
    /// another's hand.
    pub(crate) fn take_issue_state(&self, seat: &mut Place) -> Option<BoxedIssueState>
        requires at { IsSeatOf self.now seat.old }
        requires idle { seat.old.me.0.issue_turn ≡ None }
        requires numbered { IsNumbered seat.old.me.0 }
        ensures at { IsSeatOf self.now seat.new }
        ensures issue_state { IfSome result (λ d. IsIssueState (events_of self.now) (length (graph_of self.now).lines) d.handles.items d
            × (length d.handles.items ≤ length (graph_of self.now).lines)) }
        ensures taken { IfSome result (λ d. seat.new.me
            ≡ (with_issue_turn seat.old.me.0 d.handles.items d, (issue_turn_slot (size_of (graph_of self.now)), Nothing) ∷ seat.old.me.1)) }
        ensures none { IfNone result ((r : ℕ) × (r ≢ 0) × missed (issue_turn_word (size_of (graph_of self.now))) seat.old.me r seat.new.me) }
    {
        if self.table.take_issue_turn(seat) != 0 {
            return None;
        }
        let slot = self.table.issue_turn_slot();
        Some(issue_state_of(self.table.take_out(seat, slot)))
    }

    /// Puts the issue state back and gives its turn.
    pub(crate) fn give_issue_state(&self, seat: &mut Place, issue_turn: BoxedIssueState)
        requires at { IsSeatOf self.now seat.old }
        requires quiet { seat.old.me.0.issuing ≡ None }
        requires turn { seat.old.me.0.issue_turn ≡ Some issue_turn.handles.items }
        requires issue_state { IsIssueState (events_of self.now) (length (graph_of self.now).lines) issue_turn.handles.items issue_turn }
        requires hand { (left : List (ℕ × TheContent)) × (seat.old.me.1 ≡ (issue_turn_slot (size_of (graph_of self.now)), Nothing) ∷ left) }
        ensures at { IsSeatOf self.now seat.new }
        ensures given { (left : List (ℕ × TheContent)) → seat.old.me.1 ≡ (issue_turn_slot (size_of (graph_of self.now)), Nothing) ∷ left
            → seat.new.me ≡ (without_issue_turn seat.old.me.0 (issue_turn ∷ []), left) }
    {
        let slot = self.table.issue_turn_slot();
        self.table.put_in(seat, slot, Content::Issuer(issue_turn));
        self.table.give_issue_turn(seat);
    }

    /// Issues the next line, if one is left, in the issue turn.
    fn issue_in_turn(
        &self,
        seat: &mut Place,
        events: &mut Seat,
        issue_turn: &mut IssueState,
    ) -> Issue
        requires at { IsSeatOf self.now seat.old }
        requires events { IsEventSeat self.now events.old }
        requires quiet { seat.old.me.0.issuing ≡ None }
        requires turn { seat.old.me.0.issue_turn ≡ Some issue_turn.old.handles.items }
        requires few { length issue_turn.old.handles.items ≤ length (graph_of self.now).lines }
        requires issue_state { IsIssueState (events_of self.now) (length (graph_of self.now).lines) issue_turn.old.handles.items issue_turn.old }
        ensures at { IsSeatOf self.now seat.new }
        ensures issue_state { IsIssueState (events_of self.now) (length (graph_of self.now).lines) issue_turn.new.handles.items issue_turn.new }
        ensures waiters { issue_turn.new.waiters.items ≡ issue_turn.old.waiters.items }
        ensures now { (new : List ℕ) × (seat.new.me ≡ (after_issue seat.old.me.0 new issue_turn.new.handles.items, seat.old.me.1)) }
        ensures issued { (i : ℕ) → result ≡ Issue.Issued i → Contains seat.new.me.0.issued i × (i < length (graph_of self.now).lines) }
        ensures all { result ≡ Issue.All → (length issue_turn.new.handles.items ≡ length (graph_of self.now).lines)
            × (issue_turn.new.handles.items ≡ issue_turn.old.handles.items) }
        ensures events { IsEventSeat self.now events.new }
        ensures kept { Keeps (lists events.old) (lists events.new) }
        ensures grows { Grows (lists events.old) (lists events.new) }
        ensures same_placings { SamePlacings (lists events.old) (lists events.new) }
        ensures full { result ≡ Issue.NoSlot
            → AllPending (shape_of (events_of self.now)) issue_turn.new.handles.items (lists events.old) (lists events.new) }
        ensures grown { (i : ℕ) → result ≡ Issue.Issued i → (length issue_turn.old.handles.items ≡ i)
            × (h : TheHandle) × (issue_turn.new.handles.items ≡ issue_turn.old.handles.items ++ h ∷ []) }
        ensures same { result ≡ Issue.NoSlot → issue_turn.new.handles.items ≡ issue_turn.old.handles.items }
        ensures not_other { result ≡ Issue.Other → ⊥ }
    {
        let lines = self.table.base.checked.graph().lines();
        let line = issue_turn.handles.len() as u32;
        if line >= lines {
            return Issue::All;
        }
        if self.issue_next(seat, events, issue_turn, line) {
            Issue::Issued(line)
        } else {
            Issue::NoSlot
        }
    }

    /// Issues the next line in file order, in the issue turn: as many handles as its number lay on the
    /// issue state. NoSlot comes only where loads of this call, which the seat then shows, found each
    /// event slot pending; All only where the seat then knows every line issued; Other only where the
    /// issue turn was found in another's hand, and then nothing else was learnt or done. No handle is new
    /// but that of the line that is issued, and the waiters stay in the issue state.
    pub fn issue(&self, seat: &mut WordSeat) -> Issue
        requires at { IsAt self.now seat.old }
        ensures at { IsAt self.now seat.new }
        ensures kept_issued { (i : ℕ) → KnowsIssued seat.old i → KnowsIssued seat.new i }
        ensures kept_ended { (i : ℕ) (x : TheEnd) → KnowsEnded seat.old i x → KnowsEnded seat.new i x }
        ensures issued { (i : ℕ) → result ≡ Issue.Issued i → KnowsIssued seat.new i × (i < length (graph_of self.now).lines) }
        ensures all { result ≡ Issue.All → (i : ℕ) → i < length (graph_of self.now).lines → KnowsIssued seat.new i }
        ensures kept_events { Keeps (lists (events_seat seat.old)) (lists (events_seat seat.new)) }
        ensures grows { Grows (lists (events_seat seat.old)) (lists (events_seat seat.new)) }
        ensures same_placings { SamePlacings (lists (events_seat seat.old)) (lists (events_seat seat.new)) }
        ensures full { result ≡ Issue.NoSlot → (handles : List TheHandle) × KnowsHandles seat.new handles
            × AllPending (shape_of (events_of self.now)) handles (lists (events_seat seat.old)) (lists (events_seat seat.new)) }
        ensures waiters { result ≢ Issue.Other → KeepsWaiters seat.old seat.new }
        ensures grown { (i : ℕ) → result ≡ Issue.Issued i → (h : TheHandle) × IssuesInTurn self.now seat.old seat.new i (h ∷ []) }
        ensures none_full { result ≡ Issue.NoSlot → (k : ℕ) × IssuesInTurn self.now seat.old seat.new k [] }
        ensures none_left { result ≡ Issue.All → IssuesInTurn self.now seat.old seat.new (length (graph_of self.now).lines) [] }
        ensures other { result ≡ Issue.Other → FoundTaken seat.old seat.new (issue_turn_word (size_of (graph_of self.now))) }
        ensures still { result ≡ Issue.Other → IsStill self.now seat.old seat.new }
        ensures numbers { (numbers_of seat.new ≡ numbers_of seat.old) × (splits_of seat.new ≡ splits_of seat.old) }
    {
        let Some(mut issue_turn) = self.take_issue_state(&mut seat.inner) else {
            return Issue::Other;
        };
        let answer = self.issue_in_turn(&mut seat.inner, &mut seat.events, &mut *issue_turn.state);
        self.give_issue_state(&mut seat.inner, issue_turn);
        answer
    }
}
