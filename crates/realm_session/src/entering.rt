//! Recording graphs.

ghost use Rattle.std.specs.Prelude.{◌≡◌, ◌≢◌, ℕ, ◌+◌, ◌<◌, ◌≤◌, ◌++◌, ◌∷◌, [], ◌↔◌, length, map, vec_len, slice_get, Some, Contains, IfOk, IfErr, OnOk, OnErr};
ghost use Rattle.std.specs.Vec.{vec_capacity};
ghost use Rattle.basics.specs.Sums.{total};
ghost use Rattle.shared_events.specs.Seats.{no_event};
ghost use Rattle.shared_events.specs.Views.{handle_of, made_by, IsMakerOf, IsNew, IsPendingOf};
ghost use Rattle.event_table.specs.declared.handle.Handle.{Handle as TheHandle};
ghost use Rattle.realm_session.specs.declared.limits.TheConstants.{MAX_RECORDED};
ghost use Rattle.realm_session.specs.declared.line.Line.{Line as TheLine};
ghost use Rattle.realm_session.specs.Recorded.{waits, end_in, handle_in, lines_in, waiting_in, need, need_with, ends_for, Adds, AreNew};
ghost use Rattle.realm_session.specs.Sessions.{recorded_by, HasMade, IsRecorderOf, IsSeatOf, Tells};

use crate::limits::MAX_RECORDED;
use crate::line::Line;
use crate::recorder::Recorder;
use crate::refusal::RecordRefusal;
use crate::room::{push_within, reserve_one, with_room};
use crate::session::Session;
use event_table::{Fate, Handle};
use graph_terms::lists::{EndList, ItemList};
use graph_terms::outcome::End;
use shared_events::{Pending, Seat};
use std::alloc::Global;

/// How the event of a line ends: not at all where the line waits.
fn fate_of(end: End) -> Option<Fate>
    ensures { result ≡ ends_for end }
{
    match end {
        End::Done => Some(Fate::Ok),
        End::Faulted => Some(Fate::Poison),
        End::Cancelled => Some(Fate::Poison),
        End::Waiting => None,
    }
}

/// 1 for a line that waits.
fn waits(end: End) -> u32
    ensures { result ≡ waits end }
{
    match end {
        End::Done => 0,
        End::Faulted => 0,
        End::Cancelled => 0,
        End::Waiting => 1,
    }
}

/// How many lines wait.
fn waiting_among(ends: &EndList) -> u32
    ensures waiting { result ≡ total waits ends.now }
    ensures most { result ≤ length ends.now }
{
    let mut waiting = 0;
    for line in 0..ends.len() {
        waiting += waits(ends.at(line));
    }
    waiting
}

impl Recorder {
    // How many of the lines of a graph wait, where they may be recorded.
    fn admit(&self, ends: &EndList) -> Result<u32, RecordRefusal>
        ensures ok { IfOk result (λ waiting. (waiting ≡ total waits ends.now)
            × (length (lines_in (recorded_by self.now).graphs) + length ends.now ≤ MAX_RECORDED)
            × (need_with (recorded_by self.now).graphs ends.now ≤ (recorded_by self.now).slots)) }
        ensures full { (result ≡ Err RecordRefusal.Full) ↔ (MAX_RECORDED < length (lines_in (recorded_by self.now).graphs) + length ends.now) }
        ensures slots { (n : ℕ) → (result ≡ Err (RecordRefusal.Slots n)) ↔ ((length (lines_in (recorded_by self.now).graphs) + length ends.now ≤ MAX_RECORDED)
            × ((recorded_by self.now).slots < n) × (n ≡ need_with (recorded_by self.now).graphs ends.now)) }
    {
        if ends.len() > MAX_RECORDED - self.lines {
            return Err(RecordRefusal::Full);
        }
        let waiting = waiting_among(ends);
        let need = 1 + self.waiting + waiting;
        if need > self.slots {
            return Err(RecordRefusal::Slots(need));
        }
        Ok(waiting)
    }

    // A vector with room for so many lines, and room for a graph more. It changes nothing that was
    // recorded.
    fn make_room(&mut self, alloc: Global, lines: u32) -> Result<Vec<Line>, RecordRefusal>
        ensures lines { IfOk result (λ v. (v.items ≡ []) × (lines ≤ vec_capacity v)) }
        ensures room { OnOk result (vec_len self.new.graphs < vec_capacity self.new.graphs) }
        ensures err { IfErr result (λ e. e ≡ RecordRefusal.NoMemory) }
        ensures same { (self.new.maker ≡ self.old.maker) × (self.new.seat ≡ self.old.seat) × (self.new.slots ≡ self.old.slots)
            × (self.new.graphs.items ≡ self.old.graphs.items) }
    {
        let items = with_room(alloc, lines)?;
        reserve_one(&mut self.graphs)?;
        Ok(items)
    }

    // Adds a graph of these lines, for which there is room: its number.
    fn add(&mut self, lines: Vec<Line>, waiting: u32) -> u32
        requires room { vec_len self.old.graphs < vec_capacity self.old.graphs }
        requires graphs { length (recorded_by self.old).graphs < 4294967295 }
        requires few { length (lines_in (recorded_by self.old).graphs) + length lines.items ≤ MAX_RECORDED }
        requires waiting { waiting ≡ waiting_in lines.items }
        requires need { need (recorded_by self.old).graphs + waiting ≤ (recorded_by self.old).slots }
        requires new { AreNew self.old.slots (lines_in (recorded_by self.old).graphs) lines.items }
        ensures number { result ≡ length (recorded_by self.old).graphs }
        ensures added { (recorded_by self.new).graphs ≡ (recorded_by self.old).graphs ++ lines.items ∷ [] }
        ensures same { (self.new.maker ≡ self.old.maker) × (self.new.seat ≡ self.old.seat) × (self.new.slots ≡ self.old.slots) }
    {
        let number = self.graphs.len() as u32;
        self.lines += lines.len() as u32;
        self.waiting += waiting;
        push_within(&mut self.graphs, ItemList { items: lines });
        number
    }
}

impl Session {
    /// Records a graph by how its lines ended: each gets an event, in order, that ends so, or that stays
    /// pending where the line waits. Answers the number of the graph, of which fewer than 4,294,967,295
    /// were recorded. `Full` comes exactly where there would be more than 8,191 lines in all, else
    /// `Slots` with what is needed exactly where that is more than there are, else `NoMemory` where
    /// memory ran out. These change nothing.
    pub fn enter(
        &self,
        alloc: Global,
        recorder: &mut Recorder,
        ends: &EndList,
    ) -> Result<u32, RecordRefusal>
        requires recorder { IsRecorderOf self.now recorder.old }
        requires graphs { length (recorded_by recorder.old).graphs < 4294967295 }
        ensures recorder { IsRecorderOf self.now recorder.new }
        ensures number { IfOk result (λ g. g ≡ length (recorded_by recorder.old).graphs) }
        ensures added { OnOk result (Adds (recorded_by recorder.old) (recorded_by recorder.new) ends.now) }
        ensures full { (result ≡ Err RecordRefusal.Full) ↔ (MAX_RECORDED < length (lines_in (recorded_by recorder.old).graphs) + length ends.now) }
        ensures slots { (n : ℕ) → (result ≡ Err (RecordRefusal.Slots n)) ↔ ((length (lines_in (recorded_by recorder.old).graphs) + length ends.now ≤ MAX_RECORDED)
            × ((recorded_by recorder.old).slots < n) × (n ≡ need_with (recorded_by recorder.old).graphs ends.now)) }
        ensures err { OnErr result (recorded_by recorder.new ≡ recorded_by recorder.old) }
    {
        let waiting = recorder.admit(ends)?;
        let mut lines = recorder.make_room(alloc, ends.len())?;
        self.record_lines(recorder, &mut lines, ends);
        Ok(recorder.add(lines, waiting))
    }

    // Creates an event for each line, in order, which ends as the line did.
    fn record_lines(&self, recorder: &mut Recorder, lines: &mut Vec<Line>, ends: &EndList)
        requires none { lines.old.items ≡ [] }
        requires made { IsRecorderOf self.now recorder.old }
        requires few { length (lines_in (recorded_by recorder.old).graphs) + length ends.now ≤ MAX_RECORDED }
        requires need { need_with (recorded_by recorder.old).graphs ends.now ≤ (recorded_by recorder.old).slots }
        requires room { length ends.now ≤ vec_capacity lines.old }
        ensures made { HasMade self.now recorder.new (lines_in (recorded_by recorder.old).graphs ++ lines.new.items) }
        ensures same { (recorder.new.graphs ≡ recorder.old.graphs) × (recorder.new.slots ≡ recorder.old.slots) }
        ensures ends { map end_in lines.new.items ≡ ends.now }
        ensures new { AreNew recorder.old.slots (lines_in (recorded_by recorder.old).graphs) lines.new.items }
    {
        for line in 0..ends.len() {
            self.record_line(recorder, lines, ends.at(line));
        }
    }

    // Records one line more behind these lines of its graph.
    fn record_line(&self, recorder: &mut Recorder, lines: &mut Vec<Line>, end: End)
        requires made { HasMade self.now recorder.old (lines_in (recorded_by recorder.old).graphs ++ lines.old.items) }
        requires few { length (lines_in (recorded_by recorder.old).graphs ++ lines.old.items) < MAX_RECORDED }
        requires need { 1 + waiting_in (lines_in (recorded_by recorder.old).graphs ++ lines.old.items) ≤ recorder.old.slots }
        requires room { vec_len lines.old < vec_capacity lines.old }
        ensures made { HasMade self.now recorder.new (lines_in (recorded_by recorder.old).graphs ++ lines.new.items) }
        ensures same { (recorder.new.graphs ≡ recorder.old.graphs) × (recorder.new.slots ≡ recorder.old.slots) }
        ensures line { (h : TheHandle) × (lines.new.items ≡ lines.old.items ++ record { handle = h; end = end } ∷ []) × (h.slot < recorder.old.slots)
            × ((x : TheLine) → Contains (lines_in (recorded_by recorder.old).graphs ++ lines.old.items) x → x.handle ≢ h) }
        ensures room { vec_capacity lines.old ≤ vec_capacity lines.new }
    {
        let pending = self.create(recorder, lines);
        let handle = self.settle(&mut recorder.seat, pending, end);
        push_within(lines, Line { handle, end });
    }

    // A new event, behind those of the lines that were recorded and of these of the next graph. A slot
    // is free, since fewer lines wait than there are slots, and no slot served so often that it retired.
    fn create(&self, recorder: &mut Recorder, lines: &[Line]) -> Pending
        requires made { HasMade self.now recorder.old (lines_in (recorded_by recorder.old).graphs ++ lines.now) }
        requires few { length (lines_in (recorded_by recorder.old).graphs ++ lines.now) < MAX_RECORDED }
        requires need { 1 + waiting_in (lines_in (recorded_by recorder.old).graphs ++ lines.now) ≤ recorder.old.slots }
        ensures maker { IsMakerOf self.now.events recorder.new.maker × IsSeatOf self.now recorder.new.seat }
        ensures pending { IsPendingOf self.now.events result }
        ensures new { IsNew (made_by recorder.old.maker) (made_by recorder.new.maker) (handle_of result) }
        ensures real { handle_of result ≢ no_event }
        ensures within { (handle_of result).slot < recorder.old.slots }
        ensures tells { (x : TheLine) → Tells recorder.old.seat x → Tells recorder.new.seat x }
        ensures same { (recorder.new.graphs ≡ recorder.old.graphs) × (recorder.new.slots ≡ recorder.old.slots) }
    {
        match self.events.create(&mut recorder.maker, &mut recorder.seat) {
            Some(pending) => pending,
            None => unreachable!(),
        }
    }

    // Ends an event as its line did, or leaves it pending where the line waits.
    fn settle(&self, seat: &mut Seat, pending: Pending, end: End) -> Handle
        requires at { IsSeatOf self.now seat.old }
        requires pending { IsPendingOf self.now.events pending }
        requires real { handle_of pending ≢ no_event }
        ensures at { IsSeatOf self.now seat.new }
        ensures handle { result ≡ handle_of pending }
        ensures tells { (x : TheLine) → Tells seat.old x → Tells seat.new x }
        ensures line { Tells seat.new (record { handle = result; end = end }) }
    {
        match fate_of(end) {
            Some(fate) => {
                let handle = pending.handle();
                let (_receipt, _caught) = self.events.end(seat, pending, fate);
                handle
            }
            None => self.events.leave(seat, pending),
        }
    }
}
