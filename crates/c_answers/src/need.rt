//! The need of a graph.

ghost use Rattle.std.specs.Prelude.{◌≡◌, ◌≤◌};

use graph_terms::limits::MAX_LINES_OF_THREE;
use race_check::checked::Checked;

/// The need of an accepted graph, which is at most the most lines of one.
pub fn need_of(checked: &Checked) -> u32
    ensures need { (result ≡ checked.now.need) × (result ≤ MAX_LINES_OF_THREE) }
{
    let _ = checked.graph().lines();
    checked.need()
}
