//! The events of the lines.

ghost use Rattle.std.specs.Prelude.{◌≡◌, ◌<◌, ◌≤◌, ◌++◌, [], ◌∷◌, length, vec_len};
ghost use Rattle.std.specs.Vec.{vec_capacity};
ghost use Rattle.run_lists.specs.Events.{issued_handles};
ghost use Rattle.event_table.specs.EventMap.{EventMap};

use crate::lists::filled_within;
use event_table::limits::MAX_SLOTS;
use event_table::{Answer, EventTable, Fate, Handle, WatchNow};
use graph_terms::limits::MAX_LINES_OF_THREE;
use index_spaces::room::push_within;
use run_parts::{LineState, Stage};
use std::marker::Model;

/// The handles of the issued lines, with the table that they stand in. The waiter of a line has the
/// line's number.
#[derive(Drop)]
pub struct LineEvents {
    table: EventTable,
    handles: Vec<Handle>,
    // Whether the waiter of a line is placed or caught.
    busy: Vec<bool>,
}

impl Model for LineEvents {
    ghost use Rattle.std.specs.Prelude.{◌≤◌, length};
    ghost use Rattle.std.specs.Vec.{vec_capacity};
    ghost use Rattle.run_lists.specs.Events.{EventsValue, AreMarked};
    ghost use Rattle.graph_terms.specs.declared.limits.TheConstants.{MAX_LINES_OF_THREE};
    ghost use Rattle.event_table.specs.declared.limits.TheConstants.{MAX_SLOTS};

    ghost Value = { EventsValue };

    ghost view = { λ a. record { handles = a.handles.items; table = a.table } };

    ghost invariant = { λ a. record {
      marked : AreMarked a.table a.busy.items;
      room : a.table.waiters ≤ vec_capacity a.handles;
      each : length a.handles.items ≤ a.table.waiters;
      waiters : a.table.waiters ≤ MAX_LINES_OF_THREE;
      slots : length a.table.slots ≤ MAX_SLOTS;
    } };
}

/// Puts the handle of a line behind those of the lines before it, where it is issued.
fn push_handle(state: LineState, handles: &mut Vec<Handle>)
    requires { vec_len handles.old < vec_capacity handles.old }
    ensures items { handles.new.items ≡ handles.old.items ++ issued_handles (state ∷ []) }
    ensures room { vec_capacity handles.old ≤ vec_capacity handles.new }
{
    match state.stage {
        Stage::Unissued => {}
        _ => push_within(handles, state.handle),
    }
}

/// The handles of the issued lines.
pub fn handles_of(lines: &[LineState], mut handles: Vec<Handle>) -> Vec<Handle>
    requires room { length lines.now ≤ vec_capacity handles }
    ensures items { result.items ≡ issued_handles lines.now }
    ensures few { length result.items ≤ length lines.now }
    ensures room { length lines.now ≤ vec_capacity result }
{
    handles.clear();
    for state in lines {
        push_handle(*state, &mut handles);
    }
    handles
}

impl LineEvents {
    ghost use Rattle.std.specs.Prelude.{◌≡◌, ◌≢◌, ◌<◌, ◌≤◌, ◌⊎◌, ◌*◌, ◌++◌, ℕ, [], ◌∷◌, length, true, false, Some, None, slice_get, slice_index_or, IfOk, IfSome, IfNone, IsSome};
    ghost use Rattle.event_table.specs.declared.handle.Handle.{Handle as TheHandle};
    ghost use Rattle.event_table.specs.declared.handle.Answer.TheVariants.{Pending};
    ghost use Rattle.event_table.specs.EventMap.{IsEventMap, answer, answer_of, fresh, created_at, placed_on, ended_with, next_handle, no_event, MayServe, IsFull, IsFree, Gives};
    ghost use Rattle.run_lists.specs.Events.{EventsValue, issued_handles};

    /// These handles with their table, in which each waiter is free.
    pub fn of_free(
        table: EventTable,
        handles: Vec<Handle>,
        busy: Vec<bool>,
        lines: u32,
    ) -> LineEvents
        requires lines { (table.waiters ≡ lines) × (lines ≤ MAX_LINES_OF_THREE) }
        requires slots { length table.slots ≤ MAX_SLOTS }
        requires each { length handles.items ≤ lines }
        requires room { (lines ≤ vec_capacity handles) × (lines ≤ vec_capacity busy) }
        requires free { (k : ℕ) → k < table.waiters → IsFree table k }
        ensures { result ≡ record { «handles» = handles.items; «table» = table } }
    {
        LineEvents {
            table,
            handles,
            busy: filled_within(busy, false, lines as usize),
        }
    }

    /// The lists, as room for others.
    pub fn into_room(self) -> (Vec<Handle>, Vec<bool>)
        ensures handles { self.table.waiters ≤ vec_capacity result.0 }
        ensures busy { self.table.waiters ≤ vec_capacity result.1 }
        ensures slots { length self.table.slots ≤ MAX_SLOTS }
    {
        let LineEvents {
            table: _,
            handles,
            busy,
        } = self;
        (handles, busy)
    }

    /// Gives the next line a new handle. False comes where no slot is free.
    pub fn create(&mut self) -> bool
        requires left { length self.old.handles < self.old.table.waiters }
        ensures made { result ≡ true → (h : TheHandle) × MayServe self.old.table h.slot × (h ≡ next_handle self.old.table h.slot)
            × (self.new ≡ record { handles = self.old.handles ++ h ∷ []; table = created_at self.old.table h.slot }) }
        ensures full { result ≡ false → IsFull self.old.table × (self.new ≡ self.old) }
    {
        match self.table.create() {
            Some(handle) => {
                push_within(&mut self.handles, handle);
                true
            }
            None => false,
        }
    }

    /// Places a line on the handle of another, where the other has one and the line's waiter is free.
    pub fn stand_by(&mut self, line: u32, source: u32)
        requires line { line < self.old.table.waiters }
        requires pending { (h : TheHandle) → slice_get self.old.handles source ≡ Some h → answer self.old.table h ≡ Some Pending }
        ensures placed { (h : TheHandle) → slice_get self.old.handles source ≡ Some h → IsFree self.old.table line
            → self.new ≡ record { handles = self.old.handles; table = placed_on self.old.table h line } }
        ensures unissued { slice_get self.old.handles source ≡ None → self.new ≡ self.old }
        ensures busy { (IsFree self.old.table line → ⊥) → self.new ≡ self.old }
        ensures answers { (h : TheHandle) → answer self.new.table h ≡ answer self.old.table h }
        ensures either { (self.new ≡ self.old) ⊎ ((h : TheHandle) × (slice_get self.old.handles source ≡ Some h)
            × (self.new ≡ record { handles = self.old.handles; table = placed_on self.old.table h line })) }
    {
        if self.busy[line as usize] || source as usize >= self.handles.len() {
            return;
        }
        if let WatchNow::Placed = self.table.watch(self.handles[source as usize], line) {
            self.busy[line as usize] = true;
        }
    }

    /// Ends the handle of a line that is pending.
    pub fn end(&mut self, line: u32, fate: Fate)
        requires issued { line < length self.old.handles }
        requires pending { answer self.old.table (slice_index_or self.old.handles line no_event) ≡ Some Pending }
        ensures map { self.new ≡ record {
          handles = self.old.handles;
          table = ended_with self.old.table
              (slice_index_or self.old.handles line no_event) fate;
        } }
        ensures ended { answer self.new.table (slice_index_or self.old.handles line no_event) ≡ Some (answer_of fate) }
        ensures others { (h : TheHandle) → h ≢ slice_index_or self.old.handles line no_event
            → answer self.new.table h ≡ answer self.old.table h }
    {
        self.table.end(self.handles[line as usize], fate);
    }

    /// A line that was caught, which is then free again. None comes exactly where none is caught.
    pub fn next_woken(&mut self) -> Option<u32>
        ensures some { IfSome result (λ k. Gives self.old.table k self.new.table × (k < self.old.table.waiters)) }
        ensures none { IfNone result ((self.new ≡ self.old) × (self.old.table.caught ≡ [])) }
        ensures handles { self.new.handles ≡ self.old.handles }
    {
        let line = self.table.next_caught()?;
        self.busy[line as usize] = false;
        Some(line)
    }

    /// How many lines are issued.
    pub fn issued(&self) -> u32
        ensures { result ≡ length self.now.handles }
    {
        self.handles.len() as u32
    }

    /// The handle of a line. None comes exactly where it isn't issued.
    pub fn handle(&self, line: u32) -> Option<Handle>
        ensures { result ≡ slice_get self.now.handles line }
    {
        self.handles.get(line as usize).copied()
    }

    /// What the handle of a line answers.
    pub fn answer(&self, line: u32) -> Answer
        requires issued { line < length self.now.handles }
        requires created { (h : TheHandle) → slice_get self.now.handles line ≡ Some h → IsSome (answer self.now.table h) }
        ensures { (h : TheHandle) → slice_get self.now.handles line ≡ Some h → answer self.now.table h ≡ Some result }
    {
        self.table.look(self.handles[line as usize])
    }

    /// What holds of the table at every moment.
    pub fn holds_a_map(&self)
        ensures { IsEventMap self.now.table }
    {
        self.table.holds_a_map();
    }
}
