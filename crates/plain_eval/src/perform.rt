//! What a line does to the cells.

ghost use Rattle.std.specs.Prelude.{◌≡◌, ◌<◌, length};
ghost use Rattle.graph_meaning.specs.Effect.{Cells, effect, cells_after};
ghost use Rattle.graph_meaning.specs.Evaluation.{made_by};
ghost use Rattle.line_effects.specs.Homes.{all_home};

use graph_meaning::laws::changes_within_accesses;
use graph_meaning::line_laws::accesses_fit;
use graph_model::graph::Graph;
use graph_terms::outcome::Verdict;
use line_effects::effects::apply;
use line_effects::homes::Homes;
use line_effects::moving::{give_columns, take_columns};

/// Applies the effect of a line to the columns.
pub(crate) fn perform(graph: &Graph, line: u32, homes: &mut Homes) -> Verdict
    requires known { line < length graph.now.lines }
    requires home { (cells : Cells) × (homes.old ≡ all_home graph.now cells) }
    ensures { (cells : Cells) → homes.old ≡ all_home graph.now cells
        → (result ≡ (effect graph.now line cells).verdict)
        × (homes.new ≡ all_home graph.now (cells_after cells (made_by result (effect graph.now line cells).changes))) }
{
    accesses_fit();
    changes_within_accesses();
    let _ = graph.lines();
    let mut held = take_columns(graph, line, homes);
    let verdict = apply(graph, line, &mut held);
    give_columns(graph, line, held, homes);
    verdict
}
