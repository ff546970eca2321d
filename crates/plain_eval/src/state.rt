//! The state of an evaluation, and how it advances.

ghost use Rattle.std.specs.Prelude.{◌≡◌, ◌<◌, List, [], length, map, OnOk, IfOk};
ghost use Rattle.basics.specs.Lists.{numbers_below};
ghost use Rattle.graph_terms.specs.declared.verb.Edge.{Edge};
ghost use Rattle.graph_meaning.specs.Evaluation.{Step, advance, end_in, is_cancelled, step_of, cells_of};
ghost use Rattle.graph_meaning.specs.Effect.{cells_after};
ghost use Rattle.line_effects.specs.Homes.{all_home};
ghost use Rattle.plain_eval.specs.State.{IsState};

use crate::perform::perform;
use crate::waiting::Waiting;
use graph_meaning::laws::edges_between_lines;
use graph_model::graph::Graph;
use graph_terms::outcome::{End, Verdict};
use index_spaces::NoMemory;
use index_spaces::room::push;
use line_effects::homes::Homes;
use line_effects::passing::cancels;
use std::alloc::Global;

/// What is known of the lines and the cells after some steps.
#[derive(Drop)]
pub(crate) struct State {
    waiting: Waiting,
    pub(crate) ends: Vec<End>,
    pub(crate) order: Vec<u32>,
    pub(crate) homes: Homes,
}

impl State {
    /// Before any step.
    pub(crate) fn new(alloc: Global, graph: &Graph) -> Result<State, NoMemory>
        ensures { IfOk result (IsState graph.now []) }
    {
        let waiting = Waiting::new(alloc, graph)?;
        let ends = all_waiting(alloc, graph)?;
        let homes = Homes::zeroed(alloc, graph)?;
        Ok(State {
            waiting,
            ends,
            order: Vec::new(alloc),
            homes,
        })
    }

    /// Ends the lowest line that is ready, if there is one.
    pub(crate) fn end_lowest(&mut self, graph: &Graph) -> Result<(), NoMemory>
        requires state { (ss : List Step) × IsState graph.now ss self.old }
        ensures { OnOk result ((ss : List Step) → IsState graph.now ss self.old → IsState graph.now (advance graph.now ss) self.new) }
    {
        let Some(line) = self.waiting.take_lowest() else {
            return Ok(());
        };
        let end = end_line(graph, line, self.ends.as_slice(), &mut self.homes);
        self.ends[line as usize] = end;
        push(&mut self.order, line)?;
        self.waiting.release(graph, line)
    }
}

/// Each line waits.
fn all_waiting(alloc: Global, graph: &Graph) -> Result<Vec<End>, NoMemory>
    ensures { IfOk result (λ v. v.items ≡ map (end_in []) (numbers_below (length graph.now.lines))) }
{
    let mut ends = Vec::new(alloc);
    for _line in 0..graph.lines() {
        push(&mut ends, End::Waiting)?;
    }
    Ok(ends)
}

/// Ends a line that is ready, by the ends of the lines that it waited for.
fn end_line(graph: &Graph, line: u32, ends: &[End], homes: &mut Homes) -> End
    requires known { line < length graph.now.lines }
    requires shown { (ss : List Step) × (ends.now ≡ map (end_in ss) (numbers_below (length graph.now.lines)))
        × (homes.old ≡ all_home graph.now (cells_of ss)) }
    ensures { (ss : List Step) → ends.now ≡ map (end_in ss) (numbers_below (length graph.now.lines))
        → homes.old ≡ all_home graph.now (cells_of ss)
        → (result ≡ (step_of graph.now ss line).ends) × (homes.new ≡ all_home graph.now
        (cells_after (cells_of ss) (step_of graph.now ss line).changes)) }
{
    if is_cancelled(graph, line, ends) {
        return End::Cancelled;
    }
    match perform(graph, line, homes) {
        Verdict::Fine => End::Done,
        Verdict::Fault => End::Faulted,
    }
}

/// Whether an edge into a line cancels it.
fn is_cancelled(graph: &Graph, line: u32, ends: &[End]) -> bool
    requires known { line < length graph.now.lines }
    requires count { length ends.now ≡ length graph.now.lines }
    ensures { (ss : List Step) → ends.now ≡ map (end_in ss) (numbers_below (length graph.now.lines))
        → result ≡ is_cancelled graph.now ss line }
{
    edges_between_lines();
    let _ = graph.lines();
    let edges = graph.edges_into(line);
    for edge in edges {
        if cancels(edge.kind, ends[edge.from as usize]) {
            return true;
        }
    }
    false
}
