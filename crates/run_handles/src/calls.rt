//! The call that a line is, and the one of work whose body is to be run.

ghost use Rattle.std.specs.Prelude.{◌≡◌, option_map};
ghost use Rattle.graph_terms.specs.Graph.{is_call, line_passes};
ghost use Rattle.run_handles.specs.Calls.{call_at, call_of, has_body};

use crate::token::Taken;
use graph_model::graph::Graph;
use graph_terms::call::Call;
use graph_terms::verb::Verb;

/// The call of which the body is to be run. An operation that is cancelled has none.
pub fn call_of(taken: &Taken) -> Option<&Call>
    ensures { option_map (λ c. c.now) result ≡ call_of taken.now }
{
    if taken.work.is_cancelled() {
        return None;
    }
    call_at(taken.graph.graph(), taken.work.line())
}

/// Whether there is one.
pub(crate) fn has_body(taken: &Taken) -> bool
    ensures { result ≡ has_body taken.now }
{
    !taken.work.is_cancelled() && is_call(taken.graph.graph(), taken.work.line())
}

/// Whether a line of a graph is a call.
pub(crate) fn is_call(graph: &Graph, line: u32) -> bool
    ensures { result ≡ line_passes is_call graph.now line }
{
    line < graph.lines() && matches!(graph.line(line).verb, Verb::Call { .. })
}

/// The call that a line of a graph is.
pub(crate) fn call_at(graph: &Graph, line: u32) -> Option<&Call>
    ensures { option_map (λ c. c.now) result ≡ call_at graph.now line }
{
    if line >= graph.lines() {
        return None;
    }
    match &graph.line(line).verb {
        Verb::Call { call } => Some(call),
        _ => None,
    }
}
