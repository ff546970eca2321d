//! The least pair of lines that race: which of them is first, and which is the least behind it.
#![tactic(auto)]

mod block_conflicts;
mod chained;
mod common_sections;
mod conflicts;
mod fresh;
mod ordered;
mod races;
mod rivals;
pub mod topmost;

ghost use Rattle.std.specs.Prelude.{IsTrue, ◌≡◌, ◌<◌, length, IfOk, MatchOption};
ghost use Rattle.graph_meaning.specs.Rules.{EverywhereTwice, FailsFirstTwice, RaceAt};
ghost use Rattle.sweep_base.specs.Held.{IsHeld};
ghost use Rattle.sweep_base.specs.Placed.{IsOrder};
ghost use Rattle.race_pairs.specs.Summaries.{AreAlone};

use crate::chained::chained_lines;
use crate::fresh::all_fresh;
use crate::races::{first_race_of, first_race_of_all};
use graph_meaning::laws::edges_between_lines;
use graph_model::graph::Graph;
use index_spaces::NoMemory;
use race_sweeps::racing_lines;
use std::alloc::Global;
use sweep_base::line_sections::Held;

/// Whether it is plain that no lines race: each waits for the one above it, or each accesses points that none above it
/// does.
fn are_ordered(alloc: Global, graph: &Graph) -> Result<bool, NoMemory>
    ensures { IfOk result (λ b. IsTrue b → EverywhereTwice (RaceAt graph.now)) }
{
    edges_between_lines();
    if chained_lines(graph, 0) >= graph.lines() {
        return Ok(true);
    }
    all_fresh(alloc, graph)
}

/// The least line and the least line after it that conflict, have no path either way and are not
/// exempt, where each line lies in at most one section of a reservation.
pub fn first_race(
    alloc: Global,
    graph: &Graph,
    order: &[u32],
    held: &Held,
) -> Result<Option<(u32, u32)>, NoMemory>
    requires order { IsOrder graph.now order.now }
    requires count { length order.now ≡ length graph.now.lines }
    requires held { IsHeld graph.now held.now }
    requires alone { AreAlone graph.now }
    ensures { IfOk result (λ o. MatchOption o (EverywhereTwice (RaceAt graph.now))
        (λ p. (p.0 < length graph.now.lines) × (p.1 < length graph.now.lines) × FailsFirstTwice (RaceAt graph.now) p.0 p.1)) }
{
    if are_ordered(alloc, graph)? {
        return Ok(None);
    }
    match racing_lines(alloc, graph, order, held)? {
        Some(racing) => first_race_of(alloc, graph, order, held, racing.as_slice()),
        None => first_race_of_all(alloc, graph, order, held),
    }
}
