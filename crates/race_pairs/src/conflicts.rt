//! Which lines conflict.

ghost use Rattle.std.specs.Prelude.{◌≡◌, ◌<◌, ◌↔◌, length, Contains, IsTrue, IfOk};
ghost use Rattle.graph_terms.specs.declared.verb.Access.{Access};
ghost use Rattle.graph_terms.specs.Graph.{named_spaces};
ghost use Rattle.graph_terms.specs.Access.{all_accesses};
ghost use Rattle.race_pairs.specs.Races.{AreAccesses, AreSpacesKnown, ListsClash};
ghost use Rattle.conflict_classes.specs.Clash.{Clash, LinesClash};

use conflict_classes::clash::clash;
use graph_meaning::line_laws::all_accesses_fit;
use graph_model::graph::Graph;
use graph_terms::limits::MAX_CALL_ACCESSES;
use graph_terms::verb::Access;
use index_spaces::NoMemory;
use index_spaces::room::push;
use std::alloc::Global;

/// For each line its accesses, in order.
pub(crate) fn accesses_of_lines(alloc: Global, graph: &Graph) -> Result<Vec<Vec<Access>>, NoMemory>
    ensures { IfOk result (λ v. AreAccesses graph.now v.items) }
{
    let mut lists = Vec::new(alloc);
    for line in 0..graph.lines() {
        let list = accesses_of(alloc, graph, line)?;
        push(&mut lists, list)?;
    }
    Ok(lists)
}

/// The accesses of a line, in order.
fn accesses_of(alloc: Global, graph: &Graph, line: u32) -> Result<Vec<Access>, NoMemory>
    requires { line < length graph.now.lines }
    ensures { IfOk result (λ v. v.items ≡ all_accesses graph.now line) }
{
    let _ = graph.lines();
    let mut list = Vec::new(alloc);
    for k in 0..MAX_CALL_ACCESSES {
        let Some(access) = graph.any_access(line, k) else {
            return Ok(list);
        };
        push(&mut list, access)?;
    }
    Ok(list)
}

/// Whether two lines clash, by uses that commute too where these count.
pub(crate) fn lines_clash(
    graph: &Graph,
    accesses: &[Vec<Access>],
    one: u32,
    other: u32,
    commuting: bool,
) -> bool
    requires one { one < length graph.now.lines }
    requires other { other < length graph.now.lines }
    requires accesses { AreAccesses graph.now accesses.now }
    ensures { IsTrue result ↔ LinesClash graph.now commuting one other }
{
    all_accesses_fit();
    let _ = graph.lines();
    let ones = accesses[one as usize].as_slice();
    let others = accesses[other as usize].as_slice();
    some_clash(graph, ones, others, commuting)
}

/// Whether some of these accesses and some of the others are of one column at a shared point and
/// are not both reads, and, unless uses that commute count too, do not commute.
fn some_clash(graph: &Graph, ones: &[Access], others: &[Access], commuting: bool) -> bool
    requires ones { AreSpacesKnown graph.now ones.now }
    requires others { AreSpacesKnown graph.now others.now }
    ensures { IsTrue result ↔ ListsClash graph.now commuting ones.now others.now }
{
    for one in ones {
        if clashes_with(graph, *one, others, commuting) {
            return true;
        }
    }
    false
}

/// Whether some of these accesses clashes with this one.
fn clashes_with(graph: &Graph, one: Access, others: &[Access], commuting: bool) -> bool
    requires one { one.space < length (named_spaces graph.now) }
    requires others { AreSpacesKnown graph.now others.now }
    ensures { IsTrue result ↔ ((b : Access) × Contains others.now b × Clash graph.now commuting one b) }
{
    for other in others {
        if clash(graph, one, *other, commuting) {
            return true;
        }
    }
    false
}
