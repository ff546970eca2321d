//! Doing the effect of a line on what it holds.

ghost use Rattle.std.specs.Prelude.{ℕ, List, ◌≡◌, ◌<◌, true, false, length, is_some, Some, IsSome, slice_get};
ghost use Rattle.index_spaces.specs.Held.{held_at, lending_at};
ghost use Rattle.graph_terms.specs.declared.outcome.Verdict.{Verdict as TheVerdict};
ghost use Rattle.graph_meaning.specs.Effect.{Cells as AllCells, effect, cells_after};
ghost use Rattle.graph_meaning.specs.Evaluation.{end_by};
ghost use Rattle.line_effects.specs.Moved.{moves, HeldShow, OwnsChanged};
ghost use Rattle.word_loads.specs.Laden.{Loaded};
ghost use Rattle.word_loads.specs.Performing.{LeavesLaden};
ghost use Rattle.word_steps.specs.Claims.{Claim as TheClaim};
ghost use Rattle.word_steps.specs.Plays.{Sat};
ghost use Rattle.word_steps.specs.declared.content.Content.{Content as TheContent};
ghost use Rattle.word_steps.specs.declared.view.View.{View as TheView};

use crate::loads::Load;
use graph_model::graph::Graph;
use graph_terms::outcome::{End, Verdict};
use index_spaces::held::Held;
use line_effects::effects::apply;

/// The end of a line whose effect says this of itself.
fn end_by(verdict: Verdict) -> End
    ensures { result ≡ end_by verdict }
{
    match verdict {
        Verdict::Fine => End::Done,
        Verdict::Fault => End::Faulted,
    }
}

/// Does the effect of a line on the columns that it holds, unless it is cancelled.
fn perform_held(graph: &Graph, line: u32, is_cancelled: bool, held: &mut Held) -> End
    requires line { is_cancelled ≡ false → line < length graph.now.lines }
    requires shown { is_cancelled ≡ false → (cells : AllCells) × HeldShow graph.now cells held.old }
    requires moved { is_cancelled ≡ false → (k c : ℕ) → slice_get (moves graph.now line) k ≡ Some c → IsSome (held_at held.old c) }
    requires own { is_cancelled ≡ false → OwnsChanged graph.now line held.old }
    ensures cancelled { is_cancelled ≡ true → result ≡ End.Cancelled }
    ensures performed { is_cancelled ≡ false → (verdict : TheVerdict) × (result ≡ end_by verdict)
        × ((c : ℕ) → is_some (held_at held.new c) ≡ is_some (held_at held.old c))
        × ((c : ℕ) → lending_at held.new c ≡ lending_at held.old c)
        × ((cells : AllCells) → HeldShow graph.now cells held.old → (verdict ≡ (effect graph.now line cells).verdict)
        × HeldShow graph.now (cells_after cells (effect graph.now line cells).changes) held.new) }
{
    if is_cancelled {
        return End::Cancelled;
    }
    end_by(apply(graph, line, held))
}

/// Does the effect of a line on what it holds, unless it is cancelled.
pub fn perform(graph: &Graph, line: u32, is_cancelled: bool, load: &mut Load) -> End
    requires line { is_cancelled ≡ false → line < length graph.now.lines }
    requires loaded { is_cancelled ≡ false → (v : TheView) × (cl : TheClaim) × (left : List (ℕ × TheContent)) × (m : Sat)
        × Loaded graph.now line v cl left m load.old.held load.old.numbers }
    ensures cancelled { is_cancelled ≡ true → result ≡ End.Cancelled }
    ensures numbers { load.new.numbers ≡ load.old.numbers }
    ensures laden { is_cancelled ≡ false → LeavesLaden graph.now line result load.old load.new }
{
    perform_held(graph, line, is_cancelled, &mut load.held)
}
