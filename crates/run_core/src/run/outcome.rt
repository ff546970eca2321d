//! What a run that is quiet gives.

ghost use Rattle.std.specs.Prelude.{◌≡◌, ◌≤◌, ◌<◌, ◌++◌, ℕ, [], length, map, Some, slice_get, IsSome};
ghost use Rattle.std.specs.Vec.{vec_capacity};
ghost use Rattle.basics.specs.Lists.{numbers_below};
ghost use Rattle.event_table.specs.EventMap.{answer};
ghost use Rattle.event_table.specs.declared.handle.Handle.{Handle as TheHandle};
ghost use Rattle.run_state.specs.Run.{end_so_far, stage_at};
ghost use Rattle.graph_terms.specs.Graph.{verb_at};
ghost use Rattle.run_lists.specs.Stages.{shown_stage};
ghost use Rattle.run_core.specs.Answers.{answer_shown, phase_for, phase_of_line, AsksHandles};

use crate::run::Core;
use graph_meaning::laws::sections_never_overlap;
use graph_model::graph::Graph;
use graph_terms::limits::MAX_LINES_OF_THREE;
use graph_terms::lists::{AnswerList, EndList, LineList, ValueList};
use graph_terms::outcome::{Answer, End, Outcome};
use graph_terms::verb::Verb;
use index_spaces::room::push_within;
use run_lists::events::LineEvents;
use run_lists::sources::end_of;
use run_parts::Progress;
use run_state::laws::{clock_is_small, quiet_gives_outcome, slots_are_by_times};

impl<'g> Core<'g> {
    ghost use Rattle.std.specs.Prelude.{◌≡◌, ℕ, ◌<◌, Bool, false, length, Some, slice_get};
    ghost use Rattle.event_table.specs.EventMap.{answer};
    ghost use Rattle.event_table.specs.declared.handle.Handle.{Handle as TheHandle};
    ghost use Rattle.graph_meaning.specs.Effect.{zero_cells};
    ghost use Rattle.graph_meaning.specs.Evaluation.{outcome, outcome_with};
    ghost use Rattle.graph_meaning.specs.Trace.{IsLawful, SectionsApart};
    ghost use Rattle.run_state.specs.Quiet.{ByTimes, IsLawfulWith};
    ghost use Rattle.run_state.specs.Verdicts.{effect_by};
    ghost use Rattle.run_core.specs.Core.{MayFault};
    ghost use Rattle.run_core.specs.Finishing.{IsQuiet};
    ghost use Rattle.run_core.specs.Answers.{AsksHandles};

    /// What a quiet run gives: the outcome of the evaluation in which the calls fault that the host
    /// said did, and no others that ended, with the ended lines in the order in which they ended as the
    /// trace. Each answer is asked of the line's handle. Between an acquire that
    /// is done and its release no other acquire of that reservation that is done stands in the trace,
    /// unless both are shared.
    pub fn outcome(self) -> Outcome
        requires quiet { IsQuiet self.graph self.run }
        ensures evaluated { (faults : ℕ → Bool) → MayFault self.entry faults
            → result ≡ outcome_with (effect_by faults self.entry.graph) zero_cells self.entry.graph result.trace }
        ensures in_order { (faults : ℕ → Bool) → MayFault self.entry faults
            → IsLawfulWith (effect_by faults self.entry.graph) self.entry.graph result.trace }
        ensures outcome { self.entry.hosted ≡ false → result ≡ outcome self.entry.graph result.trace }
        ensures lawful { self.entry.hosted ≡ false → IsLawful self.entry.graph result.trace }
        ensures sections { self.entry.hosted ≡ false → SectionsApart self.entry.graph result.trace }
        ensures times { ByTimes self.entry.run result.trace }
        ensures asked { AsksHandles self.entry.handles self.entry.table result.answers }
        ensures lines { (k i : ℕ) → slice_get result.trace k ≡ Some i → i < length self.entry.graph.lines }
    {
        quiet_gives_outcome();
        sections_never_overlap();
        slots_are_by_times();
        clock_is_small();
        let Core {
            checked,
            stages,
            events,
            columns,
            values,
            trace,
            room,
            ..
        } = self;
        let graph = checked.graph();
        let _ = graph.lines();
        let _ = graph.columns();
        Outcome {
            ends: ends_of(stages.as_slice(), room.ends),
            answers: answers_of(&events, stages.as_slice(), room.answers),
            phases: phases_of(graph, stages.as_slice(), values.as_slice(), room.phases),
            columns: columns.homes.into_columns(),
            trace: LineList { items: trace },
        }
    }
}

/// The end of each line.
fn ends_of(stages: &[Progress], mut ends: Vec<End>) -> EndList
    requires few { length stages.now ≤ MAX_LINES_OF_THREE }
    requires empty { ends.items ≡ [] }
    requires room { length stages.now ≤ vec_capacity ends }
    ensures { result ≡ map (λ p. end_so_far (shown_stage p)) stages.now }
{
    for progress in stages {
        push_within(&mut ends, end_of(*progress));
    }
    EndList { items: ends }
}

/// What the handle of each line answers.
fn answers_of(events: &LineEvents, stages: &[Progress], mut answers: Vec<Answer>) -> AnswerList
    requires few { length stages.now ≤ MAX_LINES_OF_THREE }
    requires issued { length events.now.handles ≡ length stages.now }
    requires created { (i : ℕ) (h : TheHandle) → slice_get events.now.handles i ≡ Some h → IsSome (answer events.now.table h) }
    requires empty { answers.items ≡ [] }
    requires room { length stages.now ≤ vec_capacity answers }
    ensures { AsksHandles events.now.handles events.now.table result }
{
    for line in 0..stages.len() as u32 {
        push_within(&mut answers, shown(events.answer(line)));
    }
    AnswerList { items: answers }
}

/// The answer of an event, as the outcome has it.
fn shown(answer: event_table::Answer) -> Answer
    ensures { result ≡ answer_shown answer }
{
    match answer {
        event_table::Answer::Pending => Answer::Pending,
        event_table::Answer::Triggered => Answer::Triggered,
        event_table::Answer::Poisoned => Answer::Poisoned,
    }
}

/// The value of each phase that is done, and none for any other line.
fn phases_of(
    graph: &Graph,
    stages: &[Progress],
    values: &[u64],
    mut phases: Vec<Option<u64>>,
) -> ValueList
    requires each { (length stages.now ≡ length graph.now.lines) × (length values.now ≡ length graph.now.lines) }
    requires empty { phases.items ≡ [] }
    requires room { length graph.now.lines ≤ vec_capacity phases }
    ensures { result ≡ map (phase_of_line graph.now (map shown_stage stages.now) values.now) (numbers_below (length graph.now.lines)) }
{
    for line in 0..graph.lines() {
        let value = phase_value(graph, line, stages[line as usize], values[line as usize]);
        push_within(&mut phases, value);
    }
    ValueList { items: phases }
}

/// The value of a phase that is done, and none for any other line.
fn phase_value(graph: &Graph, line: u32, progress: Progress, value: u64) -> Option<u64>
    requires { line < length graph.now.lines }
    ensures { result ≡ phase_for (end_so_far (shown_stage progress)) (verb_at graph.now line) value }
{
    match (&graph.line(line).verb, end_of(progress)) {
        (Verb::Phase { .. }, End::Done) => Some(value),
        _ => None,
    }
}
