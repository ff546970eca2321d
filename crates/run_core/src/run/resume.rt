//! A core that goes on from a state.

ghost use Rattle.std.specs.Prelude.{◌≡◌, ◌<◌, ◌≤◌, ◌+◌, ℕ, [], length, vec_len, map, cond, true, false, IfSome, IfNone, Some, slice_get, slice_set};
ghost use Rattle.std.specs.Vec.{vec_capacity};
ghost use Rattle.graph_terms.specs.declared.outcome.End.TheVariants.{Done};
ghost use Rattle.basics.specs.Lists.{count_below};
ghost use Rattle.graph_meaning.specs.Rules.{Accepted};
ghost use Rattle.graph_terms.specs.Reservations.{Releases};
ghost use Rattle.run_state.specs.Run.{is_listed, list_at};
ghost use Rattle.run_parts.specs.declared.states.LineState.{LineState as TheState};
ghost use Rattle.run_parts.specs.declared.answers.Stage.{Stage as TheStage};
ghost use Rattle.run_lists.specs.Holders.{holders_by, AreHeld};
ghost use Rattle.run_core.specs.Resumed.{progress_for, stage_is_over, over_at, value_or_zero, HoldsNow, AreBeside, FoundBelow};

use crate::run::Core;
use event_table::EventTable;
use event_table::limits::MAX_SLOTS;
use graph_meaning::laws::needs_are_one;
use graph_model::graph::Graph;
use graph_terms::limits::MAX_LINES_OF_THREE;
use graph_terms::lists::ValueList;
use graph_terms::outcome::End;
use graph_terms::verb::Verb;
use index_spaces::room::push_within;
use lent_columns::shared_homes::SharedHomes;
use line_effects::homes::Homes;
use run_lists::columns::Columns;
use run_lists::events::{LineEvents, handles_of};
use run_lists::holders::{Holders, hold};
use run_lists::lists::filled_within;
use run_parts::{LineState, OutcomeRoom, Progress, RunParts, RunRoom, Stage, StateList};
use run_state::laws::{sharing_starts_at_rest, start_is_sound};

/// How far a line has come, as a core keeps it.
#[tactic(auto, unfolding(crate::specs::Resumed::progress_by))]
fn progress_for(state: LineState) -> Progress
    ensures { result ≡ progress_for state }
{
    match state.stage {
        Stage::Unissued => Progress::Unissued,
        Stage::Issued => Progress::Issued,
        Stage::Out => Progress::Out,
        Stage::Ended => Progress::Ended(state.end),
    }
}

/// Whether a line has ended.
fn is_over(state: LineState) -> bool
    ensures { result ≡ stage_is_over state.stage }
{
    match state.stage {
        Stage::Ended => true,
        _ => false,
    }
}

/// Whether a line has ended with Done.
fn is_done(state: LineState) -> bool
    ensures yes { result ≡ true → (stage_is_over state.stage ≡ true) × (state.end ≡ Done) }
    ensures no { result ≡ false → stage_is_over state.stage ≡ true → state.end ≡ Done → ⊥ }
{
    match (state.stage, state.end) {
        (Stage::Ended, End::Done) => true,
        _ => false,
    }
}

/// How far each line has come.
fn stages_of(lines: &[LineState], mut stages: Vec<Progress>) -> Vec<Progress>
    requires few { length lines.now ≤ MAX_LINES_OF_THREE }
    requires room { length lines.now ≤ vec_capacity stages }
    ensures { result.items ≡ map progress_for lines.now }
{
    stages.clear();
    for state in lines {
        push_within(&mut stages, progress_for(*state));
    }
    stages
}

/// The value of a phase, and 0 for another line.
fn value_or_zero(value: Option<u64>) -> u64
    ensures { result ≡ value_or_zero value }
{
    match value {
        Some(value) => value,
        None => 0,
    }
}

/// The values of the phases, and 0 for other lines.
fn values_of(phases: &[Option<u64>], mut values: Vec<u64>) -> Vec<u64>
    requires few { length phases.now ≤ MAX_LINES_OF_THREE }
    requires room { length phases.now ≤ vec_capacity values }
    ensures { result.items ≡ map value_or_zero phases.now }
{
    values.clear();
    for value in phases {
        push_within(&mut values, value_or_zero(*value));
    }
    values
}

/// One item more for a line that has ended.
fn place_for(state: LineState, trace: &mut Vec<u32>)
    requires { vec_len trace.old < vec_capacity trace.old }
    ensures count { length trace.new.items ≡ cond (stage_is_over state.stage) 1 0 + length trace.old.items }
    ensures room { vec_capacity trace.old ≤ vec_capacity trace.new }
{
    if is_over(state) {
        push_within(trace, 0);
    }
}

/// Puts a line that has ended at the place of its time.
fn put_at_time(state: LineState, line: u32, trace: &mut Vec<u32>)
    requires { stage_is_over state.stage ≡ true → state.time < length trace.old.items }
    ensures items { trace.new.items ≡ cond (stage_is_over state.stage) (slice_set trace.old.items state.time line) trace.old.items }
    ensures room { vec_capacity trace.old ≤ vec_capacity trace.new }
{
    if is_over(state) {
        trace[state.time as usize] = line;
    }
}

/// As many items as lines that have ended.
fn places_for(lines: &[LineState], mut trace: Vec<u32>) -> Vec<u32>
    requires few { length lines.now ≤ MAX_LINES_OF_THREE }
    requires room { length lines.now ≤ vec_capacity trace }
    ensures count { length result.items ≡ count_below (over_at lines.now) (length lines.now) }
    ensures room { vec_capacity trace ≤ vec_capacity result }
{
    trace.clear();
    for line in 0..lines.len() {
        place_for(lines[line], &mut trace);
    }
    trace
}

/// The lines that have ended, each at the place of its time.
fn trace_of(lines: &[LineState], trace: Vec<u32>) -> Vec<u32>
    requires few { length lines.now ≤ MAX_LINES_OF_THREE }
    requires room { length lines.now ≤ vec_capacity trace }
    requires times { (i : ℕ) (s : TheState) → slice_get lines.now i ≡ Some s → stage_is_over s.stage ≡ true
        → s.time < count_below (over_at lines.now) (length lines.now) }
    requires once { (i j : ℕ) (s t : TheState) → slice_get lines.now i ≡ Some s → slice_get lines.now j ≡ Some t
        → stage_is_over s.stage ≡ true → stage_is_over t.stage ≡ true → s.time ≡ t.time → i ≡ j }
    ensures count { length result.items ≡ count_below (over_at lines.now) (length lines.now) }
    ensures room { vec_capacity trace ≤ vec_capacity result }
    ensures at { (i : ℕ) (s : TheState) → slice_get lines.now i ≡ Some s → stage_is_over s.stage ≡ true
        → slice_get result.items s.time ≡ Some i }
{
    let mut trace = places_for(lines, trace);
    for line in 0..lines.len() {
        put_at_time(lines[line], line as u32, &mut trace);
    }
    trace
}

/// The acquire that holds its reservation until this line: where the line is a release that has not
/// ended, of an acquire that is done.
fn held_until(graph: &Graph, lines: &[LineState], release: u32) -> Option<u32>
    requires known { release < length graph.now.lines }
    requires each { length lines.now ≡ length graph.now.lines }
    ensures some { IfSome result (λ q. Releases graph.now release q × (l : ℕ) × HoldsNow graph.now lines.now q l) }
    ensures none { IfNone result ((q l : ℕ) → Releases graph.now release q → HoldsNow graph.now lines.now q l → ⊥) }
{
    let Verb::Release { acquire } = &graph.line(release).verb else {
        return None;
    };
    if is_over(lines[release as usize]) {
        return None;
    }
    if !is_done(lines[*acquire as usize]) {
        return None;
    }
    match &graph.line(*acquire).verb {
        Verb::Acquire { .. } => Some(*acquire),
        _ => None,
    }
}

/// Lets the acquire of a release hold its reservation, where it does so until this release.
fn hold_until(graph: &Graph, lines: &[LineState], release: u32, holders: &mut Holders)
    requires known { release < length graph.now.lines }
    requires each { length lines.now ≡ length graph.now.lines }
    requires beside { AreBeside graph.now lines.now }
    requires held { AreHeld graph.now holders.old.holding.items holders.old.held.items }
    requires found { FoundBelow graph.now lines.now (holders_by graph.now holders.old.holding.items) release }
    ensures held { AreHeld graph.now holders.new.holding.items holders.new.held.items }
    ensures found { FoundBelow graph.now lines.now (holders_by graph.now holders.new.holding.items) (release + 1) }
{
    let _ = graph.lines();
    if let Some(acquire) = held_until(graph, lines, release) {
        hold(graph, acquire, holders);
    }
}

/// The acquires that are done and not released, each at its reservation, where none stood before.
/// Each acquire has its release, so one pass over the releases finds them.
fn holders_of(graph: &Graph, lines: &[LineState], mut holders: Holders) -> Holders
    requires accepted { Accepted graph.now }
    requires each { length lines.now ≡ length graph.now.lines }
    requires held { AreHeld graph.now holders.holding.items holders.held.items }
    requires free { (l q : ℕ) → is_listed (list_at (holders_by graph.now holders.holding.items) l) q ≡ true → ⊥ }
    requires beside { AreBeside graph.now lines.now }
    ensures held { AreHeld graph.now result.holding.items result.held.items }
    ensures only { (l q : ℕ) → is_listed (list_at (holders_by graph.now result.holding.items) l) q ≡ true → HoldsNow graph.now lines.now q l }
    ensures all { (l q : ℕ) → HoldsNow graph.now lines.now q l → is_listed (list_at (holders_by graph.now result.holding.items) l) q ≡ true }
{
    for line in 0..graph.lines() {
        hold_until(graph, lines, line, &mut holders);
    }
    holders
}

/// Room for the outcome, with a list of phases that was read in the place of that for the phases: its pages
/// are there.
fn room_with(room: OutcomeRoom, mut phases: Vec<Option<u64>>) -> OutcomeRoom
    ensures ends { (result.ends.items ≡ room.ends.items) × (vec_capacity result.ends ≡ vec_capacity room.ends) }
    ensures answers { (result.answers.items ≡ room.answers.items) × (vec_capacity result.answers ≡ vec_capacity room.answers) }
    ensures phases { (result.phases.items ≡ []) × (vec_len phases ≤ vec_capacity result.phases) }
{
    phases.clear();
    OutcomeRoom {
        ends: room.ends,
        answers: room.answers,
        phases,
    }
}

impl<'g> Core<'g> {
    ghost use Rattle.std.specs.Prelude.{◌≡◌, ◌≤◌, ℕ, List, [], length};
    ghost use Rattle.event_table.specs.declared.handle.Handle.{Handle as TheHandle};
    ghost use Rattle.run_state.specs.Run.{Run};
    ghost use Rattle.run_parts.specs.Room.{HasRoom};
    ghost use Rattle.run_parts.specs.Shown.{IsShown};
    ghost use Rattle.run_core.specs.Resumed.{ShowState, InState};

    /// The core in the state that is shown, in which no work is out, with as many slots as the table
    /// has and without a host. It takes no memory: its lists are filled within their room.
    pub fn of_parts(parts: RunParts<'g>) -> Core<'g>
        requires room { HasRoom parts.checked.now.graph parts.room }
        requires enough { parts.checked.now.need ≤ length parts.table.slots }
        requires most { length parts.table.slots ≤ MAX_SLOTS }
        requires shown { (run : Run) × (handles : List TheHandle)
            × IsShown parts.checked.now.graph run handles parts.states parts.table parts.homes parts.phases }
        ensures state { (run : Run) (handles : List TheHandle)
            → IsShown parts.entry.checked.now.graph run handles parts.entry.states parts.entry.table parts.entry.homes parts.entry.phases
            → InState parts.entry.checked.now.graph run handles parts.entry.table result }
    {
        start_is_sound();
        sharing_starts_at_rest();
        needs_are_one();
        let RunParts {
            checked,
            states,
            table,
            homes,
            phases,
            room,
        } = parts;
        let RunRoom {
            stages,
            handles,
            busy,
            values,
            holding,
            trace,
            takers,
            lent,
            held,
            outcome,
        } = room;
        let graph = checked.graph();
        let _ = checked.need();
        let lines = graph.lines();
        let columns = graph.columns();
        let items = states.items.as_slice();
        let nobody = Holders::none(graph, holding, held);
        Core {
            checked,
            stages: stages_of(items, stages),
            events: LineEvents::of_free(table, handles_of(items, handles), busy, lines),
            columns: Columns {
                homes: SharedHomes::of(homes, lent, columns),
                takers: filled_within(takers, 0, columns as usize),
            },
            values: values_of(phases.items.as_slice(), values),
            holders: holders_of(graph, items, nobody),
            trace: trace_of(items, trace),
            room: room_with(outcome, phases.items),
            hosted: false,
        }
    }

    /// The core in the state that is shown, in which no work is out, without a host. Nothing was issued in this
    /// core, whose lists it takes over. It takes no memory.
    pub fn resume(
        self,
        lines: StateList,
        table: EventTable,
        homes: Homes,
        phases: ValueList,
    ) -> Core<'g>
        requires fresh { self.handles ≡ [] }
        requires shown { (run : Run) × (handles : List TheHandle) × ShowState self run handles lines table homes phases }
        ensures state { (run : Run) (handles : List TheHandle) → ShowState self.entry run handles lines table homes phases
            → InState self.entry.graph run handles table result }
    {
        let Core {
            checked,
            stages,
            events,
            columns,
            values,
            holders,
            trace,
            room,
            ..
        } = self;
        let _ = checked.need();
        let (handles, busy) = events.into_room();
        Core::of_parts(RunParts {
            checked,
            states: lines,
            table,
            homes,
            phases,
            room: RunRoom {
                stages,
                handles,
                busy,
                values,
                holding: holders.holding,
                trace,
                takers: columns.takers,
                lent: columns.homes.into_room(),
                held: holders.held,
                outcome: room,
            },
        })
    }
}
