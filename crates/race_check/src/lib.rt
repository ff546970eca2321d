//! The check of a graph: accepted, or refused by the first of six rules that fails.
#![tactic(auto)]

pub mod checked;
mod descends;
mod inside;
mod judge;
mod line_sections;
mod release_faults;
mod releases;
mod sections;

ghost use Rattle.std.specs.Prelude.{◌≡◌, ℕ, ◌<◌, List, length, IfOk, IfErr, MatchOption};
ghost use Rattle.graph_terms.specs.Graph.{upgraded};
ghost use Rattle.graph_meaning.specs.Evaluation.{outcome};
ghost use Rattle.graph_meaning.specs.Need.{IsNeed};
ghost use Rattle.graph_meaning.specs.Rules.{Accepted, IsRace};
ghost use Rattle.slot_need.specs.NeedLine.{IsNeedLine};
ghost use Rattle.race_check.specs.Refusal.{IsRefusal, NamesLines};
ghost use Rattle.race_check.specs.Topmost.{IsTopmostRace};

use crate::checked::{CheckRefusal, Checked, Unfit};
use crate::judge::{judge, topmost_of};
use graph_meaning::laws::upgrade_keeps_meaning;
use graph_model::graph::Graph;
use index_spaces::NoMemory;
use slot_need::need::need_line_of;
use std::alloc::Global;

/// Accepts a graph, or gives it back unchanged with the first rule that fails and the least lines
/// at which it does. `NoMemory` says nothing of the graph.
pub fn check(alloc: Global, graph: Graph) -> Result<Checked, Unfit>
    ensures accepted { IfOk result (λ c. (c.graph ≡ graph) × Accepted graph × IsNeed graph c.need) }
    ensures given_back { IfErr result (λ u. u.graph ≡ graph) }
    ensures refused { IfErr result (λ u. IsRefusal graph u.why) }
    ensures lines { IfErr result (λ u. NamesLines graph u.why) }
    ensures complete { Accepted graph → IfErr result (λ u. u.why ≡ CheckRefusal.NoMemory) }
{
    match judge(alloc, &graph) {
        Ok(need) => Ok(Checked::new(graph, need)),
        Err(why) => Err(Unfit { graph, why }),
    }
}

/// Of the lines that race, where the checker tells these two: the pair whose later line stands first, and
/// of such pairs the one whose other line does, which is given first. It may be the one that is told. It
/// takes about the time of acceptance, and more where many lines race.
pub fn topmost_race(
    alloc: Global,
    graph: &Graph,
    first: u32,
    second: u32,
) -> Result<(u32, u32), NoMemory>
    requires race { IsRace graph.now first second }
    ensures lines { IfOk result (λ p. (p.0 < length graph.now.lines) × (p.1 < length graph.now.lines)) }
    ensures topmost { IfOk result (λ p. IsTopmostRace graph.now p.0 p.1) }
{
    topmost_of(alloc, graph, first, second)
}

/// The topmost line at which the need of a graph is reached: so many lines may be open there at once,
/// itself and lines above it. `None` exactly where the graph has no lines.
pub fn need_line(alloc: Global, checked: &Checked) -> Result<Option<u32>, NoMemory>
    ensures { IfOk result (λ o. MatchOption o (length checked.now.graph.lines ≡ 0) (IsNeedLine checked.now.graph checked.now.need)) }
{
    let need = checked.need();
    need_line_of(alloc, checked.graph(), need)
}

/// The accepted graph in format 2, or in format 3 where it has that: it is accepted too, with the
/// same need and the same outcome. It takes no memory.
pub fn upgrade_checked(checked: Checked) -> Checked
    ensures graph { result.graph ≡ upgraded checked.graph }
    ensures accepted { Accepted result.graph }
    ensures need { (result.need ≡ checked.need) × IsNeed result.graph result.need }
    ensures outcome { (trace : List ℕ) → outcome result.graph trace ≡ outcome checked.graph trace }
{
    upgrade_keeps_meaning();
    let need = checked.need();
    let _ = checked.graph();
    Checked::new(checked.into_graph().upgrade(), need)
}
