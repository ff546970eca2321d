//! Whether a form orders two lines and breaks no rule.

ghost use Rattle.std.specs.Prelude.{ℕ, ◌<◌, ◌↔◌, length, IfOk, IsTrue};
ghost use Rattle.graph_terms.specs.Fits.{IsGraph};
ghost use Rattle.graph_meaning.specs.Path.{HasPath};
ghost use Rattle.graph_meaning.specs.Rules.{IsRace};
ghost use Rattle.tried_advice.specs.Orders.{HoldsButRaces, Orders};

use crate::applied::applied;
use crate::form::Form;
use explanations::laws::paths_are_lists;
use explanations::paths::shortest_path;
use graph_model::graph::Graph;
use index_spaces::NoMemory;
use race_check::check;
use race_check::checked::CheckRefusal;
use std::alloc::Global;

/// Whether a form orders two lines that race, and breaks no rule.
pub(crate) fn orders(
    alloc: Global,
    graph: &Graph,
    first: u32,
    second: u32,
    form: Form,
) -> Result<bool, NoMemory>
    requires first { first < length graph.now.lines }
    requires second { second < length graph.now.lines }
    requires race { IsRace graph.now first second }
    ensures { IfOk result (λ b. IsTrue b ↔ Orders graph.now first second form) }
{
    let _ = graph.lines();
    match applied(alloc, graph, form)? {
        Some(tried) => leads_and_holds(alloc, tried, first, second),
        None => Ok(false),
    }
}

/// Whether a path leads from one line of a graph to another, and all rules hold but that of races. That
/// it is a graph is told besides.
fn leads_and_holds(alloc: Global, graph: Graph, first: u32, second: u32) -> Result<bool, NoMemory>
    requires first { first < length graph.lines }
    requires second { second < length graph.lines }
    ensures { IfOk result (λ b. IsTrue b ↔ (IsGraph graph × (HasPath graph first second × HoldsButRaces graph))) }
{
    paths_are_lists();
    let _ = graph.lines();
    if shortest_path(alloc, &graph, first, second)?.is_none() {
        return Ok(false);
    }
    holds_but_races(alloc, graph)
}

/// Whether all rules hold of a graph but that of races.
fn holds_but_races(alloc: Global, graph: Graph) -> Result<bool, NoMemory>
    ensures { IfOk result (λ b. IsTrue b ↔ HoldsButRaces graph) }
{
    match check(alloc, graph) {
        Ok(_) => Ok(true),
        Err(unfit) => match unfit.why {
            CheckRefusal::Race(_, _) => Ok(true),
            CheckRefusal::NoMemory => Err(NoMemory),
            _ => Ok(false),
        },
    }
}
