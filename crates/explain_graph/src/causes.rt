//! Why there is an edge between two lines.

ghost use Rattle.std.specs.Prelude.{◌≡◌, ◌<◌, ◌==◌, length, Contains};
ghost use Rattle.std.specs.List.{list_any};
ghost use Rattle.graph_terms.specs.Edges.{edges};
ghost use Rattle.explain_graph.specs.Causes.{IsCause, cause_in, is_on, source_cause, target_cause};

use graph_meaning::laws::edges_between_lines;
use graph_model::graph::Graph;
use graph_terms::lists::LineList;
use graph_terms::verb::{Edge, Line, Verb};

/// Why a line waits for another, as the lines say it.
#[derive(Clone, Copy, Debug, PartialEq, Eq)]
pub enum Cause {
    /// The line that waits is on the other.
    On,
    /// It is a merge that names the other.
    Merge,
    /// It is a merge that names the other and ignores faults.
    MergeIgnore,
    /// It is a user event that the other triggers.
    Trigger,
    /// It is a user event that the other cancels.
    Cancel,
    /// It is a phase at which the other arrives.
    Arrival,
    /// Both are phases of one barrier, and it is the next.
    PhaseOrder,
}

/// Why an edge of a graph is there. Where more than one cause is given, the first of these in the
/// order of the variants is taken, but one that the other line gives before one of a merge.
pub fn cause_of(graph: &Graph, edge: Edge) -> Cause
    requires { Contains (edges graph.now) edge }
    ensures cause { IsCause graph.now edge result }
    ensures value { result ≡ cause_in graph.now edge }
{
    edges_between_lines();
    let _ = graph.lines();
    let source = graph.line(edge.from);
    let target = graph.line(edge.to);
    if is_on(target, edge.from) {
        return Cause::On;
    }
    if let Some(cause) = source_cause(&source.verb, edge.to) {
        return cause;
    }
    match target_cause(&target.verb, &source.verb, edge.from) {
        Some(cause) => cause,
        None => unreachable!(),
    }
}

/// Whether a line is on another.
fn is_on(line: &Line, other: u32) -> bool
    ensures { result ≡ is_on line.now other }
{
    line.on.as_slice().iter().any(|e| *e == other)
}

/// The cause that a line gives for which another waits.
fn source_cause(verb: &Verb, target: u32) -> Option<Cause>
    ensures { result ≡ source_cause verb.now target }
{
    match verb {
        Verb::Trigger { user } if *user == target => Some(Cause::Trigger),
        Verb::Cancel { user } if *user == target => Some(Cause::Cancel),
        Verb::Arrive { phase, .. } if *phase == target => Some(Cause::Arrival),
        _ => None,
    }
}

/// The cause that a line gives which waits for another.
fn target_cause(verb: &Verb, other: &Verb, source: u32) -> Option<Cause>
    ensures { result ≡ target_cause verb.now other.now source }
{
    match (verb, other) {
        (Verb::Merge { events }, _) if names(events, source) => Some(Cause::Merge),
        (Verb::MergeIgnore { events }, _) if names(events, source) => Some(Cause::MergeIgnore),
        (Verb::Phase { barrier }, Verb::Phase { barrier: before }) if *barrier == *before => Some(
            Cause::PhaseOrder,
        ),
        _ => None,
    }
}

/// Whether a line is among some lines.
fn names(lines: &LineList, line: u32) -> bool
    ensures { result ≡ list_any (λ k. k == line) lines.now }
{
    lines.items.as_slice().iter().any(|k| *k == line)
}
