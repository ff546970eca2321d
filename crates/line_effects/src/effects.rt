//! The effect of a line on the columns of its accesses.

ghost use Rattle.std.specs.Prelude.{◌≡◌, ℕ, ◌<◌, length, slice_get, is_some, Some, IsSome};
ghost use Rattle.index_spaces.specs.Held.{held_at, lending_at};
ghost use Rattle.graph_meaning.specs.Effect.{Cells, effect, cells_after};
ghost use Rattle.line_effects.specs.Moved.{moves, HeldShow, OwnsChanged};

use crate::copies::{copy, fill, reduce};
use graph_meaning::held_cells::columns_of_changes;
use graph_meaning::line_laws::{accesses_fit, columns_differ};
use graph_model::graph::Graph;
use graph_terms::outcome::Verdict;
use graph_terms::verb::Verb;
use index_spaces::held::Held;
use kernel_table::run_kernel;

/// Applies the effect of a line to the columns of its accesses, which are held with the cells of
/// the graph. Fault comes exactly where the line is an expectation that isn't met.
pub fn apply(graph: &Graph, line: u32, held: &mut Held) -> Verdict
    requires known { line < length graph.now.lines }
    requires shown { (cells : Cells) × HeldShow graph.now cells held.old }
    requires moved { (k c : ℕ) → slice_get (moves graph.now line) k ≡ Some c → IsSome (held_at held.old c) }
    requires own { OwnsChanged graph.now line held.old }
    ensures same { (c : ℕ) → is_some (held_at held.new c) ≡ is_some (held_at held.old c) }
    ensures lendings { (c : ℕ) → lending_at held.new c ≡ lending_at held.old c }
    ensures effect { (cells : Cells) → HeldShow graph.now cells held.old
        → (result ≡ (effect graph.now line cells).verdict)
        × HeldShow graph.now (cells_after cells (effect graph.now line cells).changes) held.new }
{
    accesses_fit();
    columns_differ();
    columns_of_changes();
    match &graph.line(line).verb {
        Verb::Fill {
            target,
            space,
            value,
        } => {
            fill(held, *target, graph.space(*space), *value);
            Verdict::Fine
        }
        Verb::Copy {
            source,
            target,
            space,
        } => {
            copy(held, *source, *target, graph.space(*space));
            Verdict::Fine
        }
        Verb::Reduce {
            op,
            source,
            target,
            space,
        } => {
            reduce(held, *op, *source, *target, graph.space(*space));
            Verdict::Fine
        }
        Verb::Task { kernel } => run_kernel(graph, kernel, held),
        _ => Verdict::Fine,
    }
}
