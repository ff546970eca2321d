//! Whether two lines lie in sections of two acquires of one reservation, by one acquire for each.

ghost use Rattle.std.specs.Prelude.{◌≡◌, ℕ, ◌<◌, ◌↔◌, length, IsTrue};
ghost use Rattle.race_pairs.specs.Summaries.{AreAlone, ApartIn};
ghost use Rattle.sweep_base.specs.Held.{IsHeld};

use graph_model::graph::Graph;
use sweep_base::line_sections::Held;

/// Whether two lines lie in sections of two different acquires of one reservation, not both shared.
pub(crate) fn are_apart(graph: &Graph, held: &Held, one: u32, other: u32) -> bool
    requires one { one < length graph.now.lines }
    requires other { other < length graph.now.lines }
    requires held { IsHeld graph.now held.now }
    requires alone { AreAlone graph.now }
    ensures { IsTrue result ↔ ((l : ℕ) × ApartIn graph.now l one other) }
{
    held.are_apart(graph, one, other)
}
