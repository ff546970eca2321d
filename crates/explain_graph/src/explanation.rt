//! The explanation of a refusal.

ghost use Rattle.std.specs.Prelude.{◌≢◌, IfOk};
ghost use Rattle.race_check.specs.Refusal.{IsRefusal, NamesLines};
ghost use Rattle.race_check.specs.declared.checked.CheckRefusal.{CheckRefusal};
ghost use Rattle.explain_graph.specs.Explanation.{IsExplanation, NamesItems};

use crate::reasons::{
    ConflictReason, CycleReason, DescendsReason, ReleaseReason, SectionReason, UnreleasedReason,
    explain_conflict, explain_cycle, explain_descends, explain_release, explain_section,
    explain_unreleased,
};
use graph_meaning::laws::edges_between_lines;
use graph_meaning::line_laws::all_accesses_fit;
use graph_model::graph::Graph;
use index_spaces::NoMemory;
use race_check::checked::CheckRefusal;
use std::alloc::Global;

/// Why a graph is refused.
#[derive(Drop)]
pub enum Explanation {
    Cycle(CycleReason),
    Unreleased(UnreleasedReason),
    Section(SectionReason),
    Descends(DescendsReason),
    ReleaseFault(ReleaseReason),
    Race(ConflictReason),
}

/// Explains just this refusal of a graph, as the checker gave it. It takes a few searches over all
/// edges, and of a race a few checks of the graph with a line or two changed.
pub fn explain(alloc: Global, graph: &Graph, why: CheckRefusal) -> Result<Explanation, NoMemory>
    requires a_rule { why ≢ CheckRefusal.NoMemory }
    requires lines { NamesLines graph.now why }
    requires refused { IsRefusal graph.now why }
    ensures explains { IfOk result (IsExplanation graph.now why) }
    ensures names { IfOk result (NamesItems graph.now) }
{
    all_accesses_fit();
    edges_between_lines();
    let _ = graph.lines();
    let explanation = explain_rule(alloc, graph, why)?;
    Ok(explanation)
}

/// The explanation by the rule that the refusal names.
fn explain_rule(alloc: Global, graph: &Graph, why: CheckRefusal) -> Result<Explanation, NoMemory>
    requires a_rule { why ≢ CheckRefusal.NoMemory }
    requires lines { NamesLines graph.now why }
    requires refused { IsRefusal graph.now why }
    ensures { IfOk result (IsExplanation graph.now why) }
{
    match why {
        CheckRefusal::Cycle(line) => {
            let reason = explain_cycle(alloc, graph, line)?;
            Ok(Explanation::Cycle(reason))
        }
        CheckRefusal::Unreleased(acquire) => {
            Ok(Explanation::Unreleased(explain_unreleased(graph, acquire)))
        }
        CheckRefusal::Section(release, line) => {
            let reason = explain_section(alloc, graph, release, line)?;
            Ok(Explanation::Section(reason))
        }
        CheckRefusal::Descends(outer, inner) => {
            let reason = explain_descends(alloc, graph, outer, inner)?;
            Ok(Explanation::Descends(reason))
        }
        CheckRefusal::ReleaseFault(release) => {
            Ok(Explanation::ReleaseFault(explain_release(graph, release)))
        }
        CheckRefusal::Race(first, second) => {
            let reason = explain_conflict(alloc, graph, first, second)?;
            Ok(Explanation::Race(reason))
        }
        CheckRefusal::NoMemory => unreachable!(),
    }
}
