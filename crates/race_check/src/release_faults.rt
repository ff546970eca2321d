//! The rule that each release stands on merges that ignore faults.

ghost use Rattle.std.specs.Prelude.{◌≡◌, ℕ, ◌<◌, ◌↔◌, length, Contains, IsTrue, MatchOption};
ghost use Rattle.graph_terms.specs.Graph.{is_merge_ignore, line_passes};
ghost use Rattle.graph_meaning.specs.Rules.{Everywhere, FailsFirst, ReleaseFaultAt, stands_on_merges};

use graph_model::graph::Graph;
use graph_terms::verb::Verb;
use sweep_base::reservations::released;

/// The least release that stands on no event, or on one that is no merge that ignores faults.
pub(crate) fn first_release_fault(graph: &Graph) -> Option<u32>
    ensures { MatchOption result (Everywhere (ReleaseFaultAt graph.now)) (λ i. (i < length graph.now.lines)
        × FailsFirst (ReleaseFaultAt graph.now) i) }
{
    for line in 0..graph.lines() {
        if !is_faultless(graph, line) {
            return Some(line);
        }
    }
    None
}

/// Whether a line stands on merges that ignore faults, if it is a release.
fn is_faultless(graph: &Graph, line: u32) -> bool
    requires { line < length graph.now.lines }
    ensures { IsTrue result ↔ ReleaseFaultAt graph.now line }
{
    let Some(_acquire) = released(graph, line) else {
        return true;
    };
    stands_on_merges(graph, graph.line(line).on.as_slice())
}

/// Whether there are events here, and each is a merge that ignores faults.
fn stands_on_merges(graph: &Graph, on: &[u32]) -> bool
    requires { (m : ℕ) → Contains on.now m → m < length graph.now.lines }
    ensures { result ≡ stands_on_merges graph.now on.now }
{
    for source in on {
        if !ignores_faults(graph, *source) {
            return false;
        }
    }
    !on.is_empty()
}

/// Whether a line is a merge that ignores faults.
fn ignores_faults(graph: &Graph, line: u32) -> bool
    requires { line < length graph.now.lines }
    ensures { result ≡ line_passes is_merge_ignore graph.now line }
{
    match &graph.line(line).verb {
        Verb::MergeIgnore { .. } => true,
        _ => false,
    }
}
