//! How the end of one line cancels another, and how the values of arrivals at a phase are reduced.

ghost use Rattle.std.specs.Prelude.{◌≡◌, ◌<◌, length};
ghost use Rattle.std.specs.Option.{option_copied};
ghost use Rattle.graph_meaning.specs.Evaluation.{cancels, combined};
ghost use Rattle.line_effects.specs.Passing.{barrier_of};

use graph_meaning::line_laws::phases_fit;
use graph_model::graph::Graph;
use graph_terms::decl::BarrierInfo;
use graph_terms::outcome::End;
use graph_terms::verb::{EdgeKind, Verb};
use index_spaces::Op;

/// Whether an edge of this kind cancels its target, by the end of its source.
pub fn cancels(kind: EdgeKind, end: End) -> bool
    ensures { result ≡ cancels kind end }
{
    match kind {
        EdgeKind::Faults => true,
        EdgeKind::Passes => match end {
            End::Faulted => true,
            End::Cancelled => true,
            _ => false,
        },
        EdgeKind::Ignores => false,
    }
}

/// The barrier of a phase, and None for any other line.
pub fn barrier_of(graph: &Graph, line: u32) -> Option<&BarrierInfo>
    requires { line < length graph.now.lines }
    ensures { option_copied result ≡ barrier_of graph.now line }
{
    phases_fit();
    match &graph.line(line).verb {
        Verb::Phase { barrier } => Some(graph.barrier(*barrier)),
        _ => None,
    }
}

/// Two values reduced to one. Sums wrap modulo 2^64.
pub fn combined(op: Op, one: u64, other: u64) -> u64
    ensures { result ≡ combined op one other }
{
    match op {
        Op::Sum => one.wrapping_add(other),
        Op::Min => one.min(other),
        Op::Max => one.max(other),
    }
}
