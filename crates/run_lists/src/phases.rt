//! The values of phases so far.

ghost use Rattle.std.specs.Prelude.{◌≡◌, ◌<◌, ◌≤◌, length, map};
ghost use Rattle.std.specs.Vec.{vec_capacity};
ghost use Rattle.basics.specs.Lists.{numbers_below};
ghost use Rattle.run_state.specs.Start.{first_value};
ghost use Rattle.run_state.specs.WholeLine.{values_with, phase_op};
ghost use Rattle.run_lists.specs.Phases.{arrival_of};

use graph_meaning::laws::edges_between_lines;
use graph_model::graph::Graph;
use graph_terms::verb::Verb;
use index_spaces::Op;
use index_spaces::room::push_within;
use line_effects::passing::{barrier_of, combined};

/// The values before any arrival: the first value of its barrier for a phase, and 0 for other lines.
pub fn first_values(graph: &Graph, mut values: Vec<u64>) -> Vec<u64>
    requires room { length graph.now.lines ≤ vec_capacity values }
    ensures { result.items ≡ map (first_value graph.now) (numbers_below (length graph.now.lines)) }
{
    values.clear();
    for line in 0..graph.lines() {
        push_within(&mut values, first_value(graph, line));
    }
    values
}

/// The first value of the barrier of a phase, and 0 for another line.
fn first_value(graph: &Graph, line: u32) -> u64
    requires { line < length graph.now.lines }
    ensures { result ≡ first_value graph.now line }
{
    match barrier_of(graph, line) {
        Some(barrier) => barrier.first,
        None => 0,
    }
}

/// Adds the value of an arrival to that of its phase, if the line is an arrival.
pub fn arrive(graph: &Graph, line: u32, values: &mut Vec<u64>)
    requires known { line < length graph.now.lines }
    requires each { length values.old.items ≡ length graph.now.lines }
    ensures { values.new.items ≡ values_with values.old.items (arrival_of graph.now line) }
{
    edges_between_lines();
    if let Verb::Arrive { phase, value, .. } = &graph.line(line).verb {
        let at = *phase as usize;
        let op = phase_op(graph, *phase);
        values[at] = combined(op, values[at], *value);
    }
}

/// How the values of arrivals at a phase are reduced.
fn phase_op(graph: &Graph, phase: u32) -> Op
    requires { phase < length graph.now.lines }
    ensures { result ≡ phase_op graph.now phase }
{
    match barrier_of(graph, phase) {
        Some(barrier) => barrier.op,
        None => Op::Sum,
    }
}
