//! Which lines conflict, and whether two lines are settled without a path.

ghost use Rattle.std.specs.Prelude.{◌≡◌, ℕ, ◌<◌, ◌||◌, ◌↔◌, not, length, Contains, IsTrue};
ghost use Rattle.graph_terms.specs.declared.verb.Access.{Access};
ghost use Rattle.graph_terms.specs.Graph.{named_spaces};
ghost use Rattle.graph_terms.specs.Access.{all_accesses, modes_clash, is_reduction};
ghost use Rattle.graph_meaning.specs.Rules.{modes_commute};
ghost use Rattle.conflict_classes.specs.Clash.{Clash, LinesClash};
ghost use Rattle.sweep_base.specs.Held.{IsHeld};
ghost use Rattle.conflict_classes.specs.Settled.{IsSettled};

use graph_meaning::line_laws::all_accesses_fit;
use graph_model::graph::Graph;
use graph_terms::limits::MAX_CALL_ACCESSES;
use graph_terms::verb::{Access, Mode};
use sweep_base::line_sections::Held;

/// Whether two lines do not conflict, or by uses that commute alone and in sections of two
/// different acquires of one reservation, not both shared.
pub fn is_exempt(graph: &Graph, held: &Held, one: u32, other: u32) -> bool
    requires one { one < length graph.now.lines }
    requires other { other < length graph.now.lines }
    requires held { IsHeld graph.now held.now }
    ensures { IsTrue result → IsSettled graph.now one other }
{
    if !lines_clash(graph, one, other, true) {
        return true;
    }
    if lines_clash(graph, one, other, false) {
        return false;
    }
    held.are_apart(graph, one, other)
}

/// Whether two lines have accesses that clash, by uses that commute too where these count.
pub fn lines_clash(graph: &Graph, one: u32, other: u32, commuting: bool) -> bool
    requires one { one < length graph.now.lines }
    requires other { other < length graph.now.lines }
    ensures { IsTrue result ↔ LinesClash graph.now commuting one other }
{
    all_accesses_fit();
    let _ = graph.lines();
    for k in 0..MAX_CALL_ACCESSES {
        let Some(access) = graph.any_access(one, k) else {
            return false;
        };
        if clashes_with(graph, access, other, commuting) {
            return true;
        }
    }
    false
}

/// Whether some access of a line clashes with this one.
fn clashes_with(graph: &Graph, one: Access, line: u32, commuting: bool) -> bool
    requires one { one.space < length (named_spaces graph.now) }
    requires line { line < length graph.now.lines }
    ensures { IsTrue result ↔ ((b : Access) × Contains (all_accesses graph.now line) b × Clash graph.now commuting one b) }
{
    all_accesses_fit();
    let _ = graph.lines();
    for k in 0..MAX_CALL_ACCESSES {
        let Some(other) = graph.any_access(line, k) else {
            return false;
        };
        if clash(graph, one, other, commuting) {
            return true;
        }
    }
    false
}

/// Whether two accesses are of one column at a shared point and not both reads, and, unless uses
/// that commute count too, do not commute.
pub fn clash(graph: &Graph, one: Access, other: Access, commuting: bool) -> bool
    requires one { one.space < length (named_spaces graph.now) }
    requires other { other.space < length (named_spaces graph.now) }
    ensures { IsTrue result ↔ Clash graph.now commuting one other }
{
    one.column == other.column
        && modes_clash(one.mode, other.mode)
        && (commuting || !modes_commute(one.mode, other.mode))
        && graph.space(one.space).meets(graph.space(other.space))
}

fn modes_clash(one: Mode, other: Mode) -> bool
    ensures { result ≡ modes_clash one other }
{
    !matches!((one, other), (Mode::Read, Mode::Read))
}

/// Whether two uses may come in either order: both are reductions, and of one kind.
pub fn modes_commute(one: Mode, other: Mode) -> bool
    ensures { result ≡ modes_commute one other }
{
    matches!(
        (one, other),
        (Mode::Sum, Mode::Sum) | (Mode::Least, Mode::Least) | (Mode::Most, Mode::Most)
    )
}

pub(crate) fn is_reduction(mode: Mode) -> bool
    ensures { result ≡ is_reduction mode }
{
    matches!(mode, Mode::Sum | Mode::Least | Mode::Most)
}
