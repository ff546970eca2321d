//! The reservations of acquires and releases.

ghost use Rattle.std.specs.Prelude.{◌≡◌, ℕ, ◌<◌, length, MatchOption};
ghost use Rattle.graph_terms.specs.Graph.{locks};
ghost use Rattle.graph_terms.specs.Reservations.{Acquires, Releases};

use graph_model::graph::Graph;
use graph_terms::verb::Verb;

/// The reservation that a line acquires.
pub fn acquired(graph: &Graph, line: u32) -> Option<u32>
    requires { line < length graph.now.lines }
    ensures { MatchOption result ((l : ℕ) → Acquires graph.now line l → ⊥) (λ l. Acquires graph.now line l
        × (l < length (locks graph.now))) }
{
    match &graph.line(line).verb {
        Verb::Acquire { lock, .. } => Some(*lock),
        _ => None,
    }
}

/// The acquire that a line releases.
pub fn released(graph: &Graph, line: u32) -> Option<u32>
    requires { line < length graph.now.lines }
    ensures { MatchOption result ((q : ℕ) → Releases graph.now line q → ⊥) (λ q. Releases graph.now line q × (q < length graph.now.lines)) }
{
    match &graph.line(line).verb {
        Verb::Release { acquire } => Some(*acquire),
        _ => None,
    }
}
