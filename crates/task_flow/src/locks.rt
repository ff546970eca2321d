//! The reservations of sections.

ghost use Rattle.std.specs.Prelude.{◌≡◌, ℕ, ◌+◌, ◌<◌, ◌≤◌, ◌++◌, [], length, take, true, false, IfOk, OnOk};
ghost use Rattle.graph_terms.specs.Limits.{limits};
ghost use Rattle.graph_terms.specs.Fits.{is_used, is_beyond};
ghost use Rattle.task_flow.specs.Fitting.{lined};
ghost use Rattle.task_flow.specs.Construction.{new_name, first_number, locks_from, reservations, is_over};
ghost use Rattle.flow_order.specs.Flow.{IsFlow};
ghost use Rattle.task_flow.specs.Making.{AreSections};

use crate::making::Stop;
use crate::numbers::new_name;
use crate::quantities::most_lines;
use crate::sections::Sections;
use graph_copies::declared;
use graph_model::graph::Graph;
use graph_terms::decl::Decl;
use graph_terms::lists::LineList;
use std::alloc::Global;

/// The declarations of a flow and the reservations of its sections, where there are names for them.
/// `Limit` where that is too much for any of its lines.
pub(crate) fn declared_with_locks(
    alloc: Global,
    flow: &Graph,
    numbers: Option<u64>,
    sections: &Sections,
) -> Result<Graph, Stop>
    requires flow { IsFlow flow.now }
    requires sections { AreSections flow.now sections.now }
    requires numbers { numbers ≡ first_number flow.now }
    ensures ok { IfOk result (λ g. g ≡ lined flow.now.format (flow.now.decls ++ reservations flow.now sections.now.commute) []) }
    ensures some { result ≡ Err Stop.Limit → 0 < length flow.now.lines }
    ensures limit { result ≡ Err Stop.Limit → is_over flow.now sections.now.commute 0 ≡ true }
{
    let mut graph = declared(alloc, flow)?;
    let Some(first) = numbers else {
        return Ok(graph);
    };
    add_locks(alloc, &mut graph, first, &sections.columns)?;
    Ok(graph)
}

/// Declares a reservation for each column. `Limit` where the graph passes a limit with them.
fn add_locks(alloc: Global, graph: &mut Graph, first: u64, columns: &LineList) -> Result<(), Stop>
    requires first { first ≤ 100000000000000000 }
    requires few { length columns.now ≤ 1024 }
    requires before { graph.old.lines ≡ [] }
    requires free { (k : ℕ) → k < length columns.now → is_used (lined graph.old.format (graph.old.decls ++ take k (locks_from (first + (limits graph.old.format).lines) columns.now)) []) (new_name (first + (limits graph.old.format).lines + k)) ≡ false }
    ensures ok { OnOk result (graph.new ≡ lined graph.old.format (graph.old.decls ++ locks_from (first + (limits graph.old.format).lines) columns.now) []) }
    ensures some { result ≡ Err Stop.Limit → 0 < length columns.now }
    ensures limit { result ≡ Err Stop.Limit → is_beyond (lined graph.old.format (graph.old.decls ++ locks_from (first + (limits graph.old.format).lines) columns.now) []) ≡ true }
{
    let lines = most_lines(graph.format());
    for k in 0..columns.len() {
        let name = new_name(alloc, first, lines + k)?;
        let decl = Decl::Lock { name };
        decl.is_well_formed();
        if graph.decl_fault(&decl).is_some() {
            return Err(Stop::Limit);
        }
        graph.add_decl(decl)?;
    }
    Ok(())
}
