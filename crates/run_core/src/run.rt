//! The core of a run.

ghost use Rattle.std.specs.Prelude.{◌≡◌, ◌≤◌, IfOk};

use checked_graph::Checked;
use event_table::EventTable;
use event_table::limits::MAX_SLOTS;
use graph_meaning::laws::needs_are_one;
use graph_model::graph::Graph;
use index_spaces::NoMemory;
use lent_columns::shared_homes::SharedHomes;
use line_effects::homes::Homes;
use run_lists::columns::Columns;
use run_lists::events::LineEvents;
use run_lists::holders::Holders;
use run_lists::lists::filled_within;
use run_lists::phases::first_values;
use run_parts::{OutcomeRoom, Progress, RunRoom, last_gen_for};
use run_state::laws::{sharing_starts_at_rest, start_is_sound};
use std::alloc::Global;
use std::marker::Model;

pub(crate) mod attempt;
mod counts;
mod finish;
mod issue;
mod outcome;
mod put_back;
pub(crate) mod rest;
mod resume;
mod take;

/// The core of a run of a graph that was accepted. Nothing takes memory but `prepare` and
/// `prepare_for_host`.
#[derive(Drop)]
pub struct Core<'g> {
    checked: &'g Checked,
    stages: Vec<Progress>,
    events: LineEvents,
    columns: Columns,
    // By line: the value of a phase so far, and 0 for other lines.
    values: Vec<u64>,
    holders: Holders,
    // The ended lines, in the order in which they ended.
    trace: Vec<u32>,
    room: OutcomeRoom,
    // Whether a host may say of calls that they faulted.
    hosted: bool,
}

impl<'g> Model for Core<'g> {
    ghost use Rattle.std.specs.Prelude.{◌≡◌, ◌≤◌, [], length};
    ghost use Rattle.std.specs.Vec.{vec_capacity};
    ghost use Rattle.run_core.specs.Core.{CoreValue, IsCore};
    ghost use Rattle.run_core.specs.Kept.{shown_core, AreKept};
    ghost use Rattle.run_lists.specs.Holders.{AreHeld};

    ghost Value = { CoreValue };

    ghost view = { λ a. shown_core a.hosted a.checked.now.graph a.stages.items a.events a.columns.homes
        a.columns.takers.items a.values.items a.holders.holding.items a.trace.items };

    ghost invariant = { λ a. record {
      core : IsCore (shown_core a.hosted a.checked.now.graph a.stages.items a.events a.columns.homes
          a.columns.takers.items a.values.items a.holders.holding.items a.trace.items);
      kept : AreKept a.checked.now.graph a.columns.homes a.columns.takers.items;
      held : AreHeld a.checked.now.graph a.holders.holding.items a.holders.held.items;
      trace : length a.checked.now.graph.lines ≤ vec_capacity a.trace;
      ends : (a.room.ends.items ≡ []) × (length a.checked.now.graph.lines ≤ vec_capacity a.room.ends);
      answers : (a.room.answers.items ≡ []) × (length a.checked.now.graph.lines ≤ vec_capacity a.room.answers);
      phases : (a.room.phases.items ≡ []) × (length a.checked.now.graph.lines ≤ vec_capacity a.room.phases);
    } };
}

impl<'g> Core<'g> {
    ghost use Rattle.std.specs.Prelude.{◌≡◌, ℕ, ◌≤◌, IfOk};
    ghost use Rattle.run_core.specs.Core.{unissued, unissued_for_host, unissued_by, slots_given, IsCore};
    ghost use Rattle.run_core.specs.Steps.{IsLeft};
    ghost use Rattle.event_table.specs.EventMap.{IsRetired};
    ghost use Rattle.run_core.specs.Finishing.{NothingOut};

    /// A core in which no line is issued, with this many event slots. Slots go from the graph's need
    /// to 8,192. `NoMemory` comes where memory ran out.
    pub fn prepare(alloc: Global, checked: &'g Checked, slots: u32) -> Result<Core<'g>, NoMemory>
        requires enough { checked.now.need ≤ slots }
        requires most { slots ≤ MAX_SLOTS }
        ensures core { IfOk result (λ core. core ≡ unissued checked.now.graph slots) }
        ensures slots { IfOk result (λ core. slots_given core ≡ slots) }
        ensures nothing_out { IfOk result (λ core. NothingOut core) }
    {
        Core::prepare_by(alloc, checked, slots, false)
    }

    /// The same, where a host may say of the calls of the graph that they faulted.
    pub fn prepare_for_host(
        alloc: Global,
        checked: &'g Checked,
        slots: u32,
    ) -> Result<Core<'g>, NoMemory>
        requires enough { checked.now.need ≤ slots }
        requires most { slots ≤ MAX_SLOTS }
        ensures core { IfOk result (λ core. core ≡ unissued_for_host checked.now.graph slots) }
        ensures slots { IfOk result (λ core. slots_given core ≡ slots) }
        ensures nothing_out { IfOk result (λ core. NothingOut core) }
    {
        Core::prepare_by(alloc, checked, slots, true)
    }

    /// A core in which no line is issued, with a host or without.
    fn prepare_by(
        alloc: Global,
        checked: &'g Checked,
        slots: u32,
        hosted: bool,
    ) -> Result<Core<'g>, NoMemory>
        requires enough { checked.now.need ≤ slots }
        requires most { slots ≤ MAX_SLOTS }
        ensures core { IfOk result (λ core. core ≡ unissued_by hosted checked.now.graph slots) }
        ensures slots { IfOk result (λ core. slots_given core ≡ slots) }
        ensures nothing_out { IfOk result (λ core. NothingOut core) }
    {
        start_is_sound();
        sharing_starts_at_rest();
        needs_are_one();
        let graph = checked.graph();
        let _ = checked.need();
        let lines = graph.lines();
        let columns = graph.columns();
        let Ok(table) = EventTable::new(alloc, slots, lines, last_gen_for(lines)) else {
            return Err(NoMemory);
        };
        let homes = Homes::zeroed(alloc, graph)?;
        let room = RunRoom::reserve(alloc, graph)?;
        let RunRoom {
            stages,
            handles,
            busy,
            values,
            holding,
            trace,
            takers,
            lent,
            held,
            outcome,
        } = room;
        Ok(Core {
            checked,
            stages: filled_within(stages, Progress::Unissued, lines as usize),
            events: LineEvents::of_free(table, handles, busy, lines),
            columns: Columns {
                homes: SharedHomes::of(homes, lent, columns),
                takers: filled_within(takers, 0, columns as usize),
            },
            values: first_values(graph, values),
            holders: Holders::none(graph, holding, held),
            trace,
            room: outcome,
            hosted,
        })
    }

    /// The graph of the run.
    pub fn graph(&self) -> &'g Graph
        ensures { result.now ≡ self.now.graph }
    {
        self.checked.graph()
    }

    /// What holds of each core: its run is sound, nothing is half done, its handles are those of its
    /// table, and its slots are those that were given, at least as many as the graph needs. No slot
    /// retires while a line is left to issue.
    pub fn is_sound(&self)
        ensures sound { IsCore self.now }
        ensures none_retired { IsLeft self.now → (i : ℕ) → IsRetired self.now.table i → ⊥ }
    {
        let _stages = &self.stages;
    }
}
