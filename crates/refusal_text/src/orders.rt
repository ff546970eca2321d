//! Whether two lines need an order, which sections do not give.

ghost use Rattle.std.specs.Prelude.{◌≡◌, ◌<◌, length};
ghost use Rattle.std.specs.List.{list_any};
ghost use Rattle.index_spaces.specs.Space.{has_point, points};
ghost use Rattle.graph_terms.specs.Graph.{named_spaces, space_at};
ghost use Rattle.graph_terms.specs.Access.{all_accesses};
ghost use Rattle.refusal_text.specs.Orders.{modes_need_order, uses_need_order, lines_need_order};

use graph_meaning::line_laws::{all_accesses_are_few, all_accesses_fit};
use graph_model::graph::Graph;
use graph_terms::limits::MAX_CALL_ACCESSES;
use graph_terms::verb::{Access, Mode};
use index_spaces::laws::points_are_listed;

/// Whether two lines use one column at a shared point in ways of which the order counts: not both only
/// to read, nor to reduce in one way.
pub(crate) fn lines_need_order(graph: &Graph, one: u32, other: u32) -> bool
    requires one { one < length graph.now.lines }
    requires other { other < length graph.now.lines }
    ensures { result ≡ lines_need_order graph.now one other }
{
    all_accesses_are_few();
    all_accesses_fit();
    let _ = graph.lines();
    for k in 0..MAX_CALL_ACCESSES {
        let Some(access) = graph.any_access(one, k) else {
            return false;
        };
        if needs_order_with(graph, access, other) {
            return true;
        }
    }
    false
}

/// Whether a line has such a use beside this one.
fn needs_order_with(graph: &Graph, one: Access, line: u32) -> bool
    requires one { one.space < length (named_spaces graph.now) }
    requires line { line < length graph.now.lines }
    ensures { result ≡ list_any (uses_need_order graph.now one) (all_accesses graph.now line) }
{
    all_accesses_are_few();
    all_accesses_fit();
    let _ = graph.lines();
    for k in 0..MAX_CALL_ACCESSES {
        let Some(other) = graph.any_access(line, k) else {
            return false;
        };
        if uses_need_order(graph, one, other) {
            return true;
        }
    }
    false
}

fn uses_need_order(graph: &Graph, one: Access, other: Access) -> bool
    requires one { one.space < length (named_spaces graph.now) }
    requires other { other.space < length (named_spaces graph.now) }
    ensures { result ≡ uses_need_order graph.now one other }
{
    one.column == other.column
        && modes_need_order(one.mode, other.mode)
        && spaces_meet(graph, one.space, other.space)
}

fn modes_need_order(one: Mode, other: Mode) -> bool
    ensures { result ≡ modes_need_order one other }
{
    !matches!(
        (one, other),
        (Mode::Read, Mode::Read)
            | (Mode::Sum, Mode::Sum)
            | (Mode::Least, Mode::Least)
            | (Mode::Most, Mode::Most)
    )
}

/// Whether two spaces have a point in common.
fn spaces_meet(graph: &Graph, one: u32, other: u32) -> bool
    requires one { one < length (named_spaces graph.now) }
    requires other { other < length (named_spaces graph.now) }
    ensures { result ≡ list_any (has_point (space_at graph.now one)) (points (space_at graph.now other)) }
{
    points_are_listed();
    graph.space(one).meets(graph.space(other))
}
