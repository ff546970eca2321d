//! The evaluation.

ghost use Rattle.std.specs.Prelude.{◌≡◌, ℕ, ◌<◌, ◌↔◌, length, map, slice_get, Some, IfOk, OnOk};
ghost use Rattle.graph_meaning.specs.Path.{Reached};
ghost use Rattle.graph_meaning.specs.Evaluation.{evaluation, outcome, order, answer_of, Unbroken};
ghost use Rattle.plain_eval.specs.State.{IsState};

use crate::phases::phase_values;
use crate::state::State;
use checked_graph::Checked;
use graph_meaning::laws::{cancelled_where_unbroken, waits_where_reached};
use graph_model::graph::Graph;
use graph_terms::lists::{AnswerList, EndList, LineList, ValueList};
use graph_terms::outcome::{Answer, End, Outcome};
use index_spaces::NoMemory;
use index_spaces::room::push;
use std::alloc::Global;

/// Evaluates a graph that is accepted, and gives its outcome with the order
/// of the evaluation as the trace.
pub fn eval(alloc: Global, checked: &Checked) -> Result<Outcome, NoMemory>
    ensures outcome { IfOk result (λ o. o ≡ outcome checked.now.graph (order checked.now.graph)) }

    // A line waits exactly where one that never comes reaches it, itself included.
    ensures waiting { IfOk result (λ o. (i : ℕ) → i < length checked.now.graph.lines → (slice_get o.ends i ≡ Some End.Waiting)
        ↔ Reached checked.now.graph i) }

    // Each item of the trace is a line.
    ensures lines { IfOk result (λ o. (k i : ℕ) → slice_get o.trace k ≡ Some i → i < length checked.now.graph.lines) }

    // A line is cancelled exactly where an unbroken path from a fault reaches it.
    ensures cancelled { IfOk result (λ o. (i : ℕ) → i < length checked.now.graph.lines → (slice_get o.ends i ≡ Some End.Cancelled)
        ↔ Unbroken checked.now.graph i) }
{
    waits_where_reached();
    cancelled_where_unbroken();
    let graph = checked.graph();
    let _ = graph.lines();
    let state = end_all(alloc, graph)?;
    outcome_of(alloc, graph, state)
}

/// Ends the lowest ready line as often as there are lines.
fn end_all(alloc: Global, graph: &Graph) -> Result<State, NoMemory>
    ensures { IfOk result (IsState graph.now (evaluation graph.now)) }
{
    let mut state = State::new(alloc, graph)?;
    for _step in 0..graph.lines() {
        state.end_lowest(graph)?;
    }
    Ok(state)
}

/// The outcome that the last state shows.
fn outcome_of(alloc: Global, graph: &Graph, state: State) -> Result<Outcome, NoMemory>
    requires { IsState graph.now (evaluation graph.now) state }
    ensures { IfOk result (λ o. o ≡ outcome graph.now (order graph.now)) }
{
    let answers = answers_of(alloc, state.ends.as_slice())?;
    let phases = phase_values(alloc, graph, state.ends.as_slice())?;
    let _ = graph.lines();
    let _ = graph.columns();
    Ok(Outcome {
        ends: EndList { items: state.ends },
        answers: AnswerList { items: answers },
        phases: ValueList { items: phases },
        columns: state.homes.into_columns(),
        trace: LineList { items: state.order },
    })
}

/// What each handle answers.
fn answers_of(alloc: Global, ends: &[End]) -> Result<Vec<Answer>, NoMemory>
    ensures { IfOk result (λ v. v.items ≡ map answer_of ends.now) }
{
    let mut answers = Vec::new(alloc);
    for end in ends {
        push(&mut answers, answer_of(*end))?;
    }
    Ok(answers)
}

fn answer_of(end: End) -> Answer
    ensures { result ≡ answer_of end }
{
    match end {
        End::Done => Answer::Triggered,
        End::Faulted => Answer::Poisoned,
        End::Cancelled => Answer::Poisoned,
        End::Waiting => Answer::Pending,
    }
}
