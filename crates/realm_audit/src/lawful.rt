//! Audits of traces.

ghost use Rattle.std.specs.Prelude.{◌≡◌, ◌≢◌, OnOk, IfErr};
ghost use Rattle.graph_meaning.specs.Rules.{Accepted};
ghost use Rattle.graph_meaning.specs.Trace.{IsLawful};
ghost use Rattle.realm_audit.specs.Lawful.{ends_of, IsRefusal, NamesLines};
ghost use Rattle.realm_audit.specs.Reading.{AreLines};

use crate::faults::judge_place;
use crate::prefix::Prefix;
use crate::refusal::AuditRefusal;
use graph_meaning::laws::{edges_between_lines, order_lists_ended, sections_never_overlap};
use graph_model::graph::Graph;
use graph_terms::lists::{EndList, LineList};
use std::alloc::Global;

/// Whether a list of lines is a lawful trace of an accepted graph: an order in which its lines may
/// end. The ends are those of the evaluation. `NoMemory` says nothing of the trace.
pub fn audit(
    alloc: Global,
    graph: &Graph,
    ends: &EndList,
    trace: &LineList,
) -> Result<(), AuditRefusal>
    requires accepted { Accepted graph.now }
    requires ends { ends.now ≡ ends_of graph.now }
    requires lines { AreLines graph.now trace.now }
    ensures ok { OnOk result (IsLawful graph.now trace.now) }
    ensures refused { IfErr result (IsRefusal graph.now trace.now) }
    ensures unlawful { IfErr result (λ e. e ≢ AuditRefusal.NoMemory → IsLawful graph.now trace.now → ⊥) }
    ensures names { IfErr result (NamesLines graph.now trace.now) }
{
    sections_never_overlap();
    edges_between_lines();
    let _ = graph.lines();
    judge_all(alloc, graph, ends, trace)
}

/// Judges place after place, and then whether a line is missing.
fn judge_all(
    alloc: Global,
    graph: &Graph,
    ends: &EndList,
    trace: &LineList,
) -> Result<(), AuditRefusal>
    requires accepted { Accepted graph.now }
    requires ends { ends.now ≡ ends_of graph.now }
    requires lines { AreLines graph.now trace.now }
    ensures ok { OnOk result (IsLawful graph.now trace.now) }
    ensures refused { IfErr result (IsRefusal graph.now trace.now) }
{
    order_lists_ended();
    let _ = graph.lines();
    let mut prefix = Prefix::new(alloc, graph)?;
    for place in 0..trace.len() {
        judge_place(graph, ends, trace, &prefix, place)?;
        prefix.add(graph, ends, trace, place);
    }
    match prefix.first_left(graph, ends) {
        Some(line) => Err(AuditRefusal::Missing(line)),
        None => Ok(()),
    }
}
