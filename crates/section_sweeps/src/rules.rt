//! The rules of sections at one line.

ghost use Rattle.std.specs.Prelude.{◌≡◌, ◌⊎◌, ℕ, ◌<◌, ◌≤◌, true, false, length, slice_index, IsTrue};
ghost use Rattle.graph_terms.specs.Graph.{line_passes, is_phase};
ghost use Rattle.graph_terms.specs.Reservations.{Acquires};
ghost use Rattle.sweep_base.specs.Bits.{bit_in};
ghost use Rattle.section_sweeps.specs.Group.{IsNoDeadPhase};

use graph_model::graph::Graph;
use graph_terms::verb::Verb;
use sweep_base::bits::has_bit;
use sweep_base::reservations::acquired;

/// Whether a line is a phase that never comes.
pub(crate) fn is_dead_phase(graph: &Graph, line: u32) -> bool
    requires { line < length graph.now.lines }
    ensures { result ≡ false → IsNoDeadPhase graph.now line }
{
    match &graph.line(line).verb {
        Verb::Phase { .. } => graph.never_comes(line),
        _ => false,
    }
}

/// Whether a line, if it is an acquire, acquires a reservation declared later than those of some
/// acquires of a group.
pub(crate) fn descends(graph: &Graph, acquires: &[u32], line: u32, inside: u64) -> bool
    requires line { line < length graph.now.lines }
    requires few { length acquires.now ≤ 64 }
    requires acquires { (b : ℕ) → b < length acquires.now → slice_index acquires.now b < length graph.now.lines }
    ensures { IsTrue result → (b l k : ℕ) → b < length acquires.now → bit_in inside b ≡ true → Acquires graph.now (slice_index acquires.now b) l → Acquires graph.now line k → l < k }
{
    let Some(lock) = acquired(graph, line) else {
        return true;
    };
    for bit in 0..acquires.len() {
        if has_bit(inside, bit as u32) && !acquires_before(graph, acquires[bit], lock) {
            return false;
        }
    }
    true
}

/// Whether a line acquires no reservation from this one on.
fn acquires_before(graph: &Graph, line: u32, lock: u32) -> bool
    requires { line < length graph.now.lines }
    ensures { IsTrue result → (l : ℕ) → Acquires graph.now line l → l < lock }
{
    match acquired(graph, line) {
        Some(other) => other < lock,
        None => true,
    }
}
