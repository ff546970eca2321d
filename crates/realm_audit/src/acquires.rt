//! The reservations that lines take and free.

ghost use Rattle.std.specs.Prelude.{◌≡◌, ℕ, ◌<◌, length, MatchOption};
ghost use Rattle.graph_terms.specs.Graph.{locks, line_passes, is_shared};
ghost use Rattle.graph_terms.specs.Reservations.{Acquires, Releases};
ghost use Rattle.realm_audit.specs.Lawful.{ends_of};
ghost use Rattle.realm_audit.specs.Prefix.{Takes};

use graph_model::graph::Graph;
use graph_terms::lists::EndList;
use graph_terms::outcome::End;
use graph_terms::verb::Verb;

/// The reservation that a line acquires, and whether shared.
pub(crate) fn acquired(graph: &Graph, line: u32) -> Option<(u32, bool)>
    requires { line < length graph.now.lines }
    ensures { MatchOption result ((l : ℕ) → Acquires graph.now line l → ⊥) (λ x. Acquires graph.now line x.0
        × (x.0 < length (locks graph.now)) × (line_passes is_shared graph.now line ≡ x.1)) }
{
    match &graph.line(line).verb {
        Verb::Acquire { lock, shared } => Some((*lock, *shared)),
        _ => None,
    }
}

/// The acquire that a line releases.
pub(crate) fn released(graph: &Graph, line: u32) -> Option<u32>
    requires { line < length graph.now.lines }
    ensures { MatchOption result ((q : ℕ) → Releases graph.now line q → ⊥) (λ q. Releases graph.now line q
        × ((l : ℕ) × Acquires graph.now q l)) }
{
    match &graph.line(line).verb {
        Verb::Release { acquire } => Some(*acquire),
        _ => None,
    }
}

/// The reservation that a line takes, and whether shared: that of an acquire that is done.
pub(crate) fn taken(graph: &Graph, ends: &EndList, line: u32) -> Option<(u32, bool)>
    requires known { line < length graph.now.lines }
    requires ends { ends.now ≡ ends_of graph.now }
    ensures { MatchOption result ((l : ℕ) → Takes graph.now line l → ⊥) (λ x. Takes graph.now line x.0
        × (x.0 < length (locks graph.now)) × (line_passes is_shared graph.now line ≡ x.1)) }
{
    let Some((lock, shared)) = acquired(graph, line) else {
        return None;
    };
    match ends.at(line) {
        End::Done => Some((lock, shared)),
        _ => None,
    }
}
