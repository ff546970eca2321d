//! The six rules in turn.

ghost use Rattle.std.specs.Prelude.{◌≡◌, ◌<◌, length, OnOk, IfOk, IfErr};
ghost use Rattle.graph_meaning.specs.Need.{IsNeed};
ghost use Rattle.graph_meaning.specs.Rules.{Accepted, Everywhere, EverywhereTwice, NoCycleAt, ReleasedAt, SectionAt, DescendsAt, ReleaseFaultAt, RaceAt, IsRace};
ghost use Rattle.race_check.specs.Refusal.{IsRefusal, NamesLines};
ghost use Rattle.race_check.specs.Topmost.{IsTopmostRace};
ghost use Rattle.sweep_base.specs.Held.{IsHeld};
ghost use Rattle.sweep_base.specs.Placed.{IsOrder};
ghost use Rattle.section_sweeps.specs.Found.{AreDoubted};
ghost use Rattle.section_sweeps.specs.Sections.{AreSections};
ghost use Rattle.section_sweeps.specs.Table.{IsTable};

use crate::checked::CheckRefusal;
use crate::descends::first_climbing;
use crate::line_sections::sections_of_lines;
use crate::release_faults::first_release_fault;
use crate::releases::first_unreleased;
use crate::sections::first_outside;
use cycle_search::cycle::first_cycle;
use cycle_search::order::Order;
use graph_meaning::laws::edges_between_lines;
use graph_model::graph::Graph;
use index_spaces::NoMemory;
use race_pairs::first_race;
use race_pairs::topmost::topmost_race_from;
use section_sweeps::found_sections::Sections;
use section_sweeps::held_sections;
use section_sweeps::lookups::Table;
use slot_need::need::need_of;
use std::alloc::Global;
use sweep_base::line_sections::Held;

/// The need of a graph that is accepted, and otherwise the first rule that fails with the least
/// lines at which it does.
pub(crate) fn judge(alloc: Global, graph: &Graph) -> Result<u32, CheckRefusal>
    ensures accepted { OnOk result (Accepted graph.now) }
    ensures need { IfOk result (IsNeed graph.now) }
    ensures refused { IfErr result (IsRefusal graph.now) }
    ensures lines { IfErr result (NamesLines graph.now) }
{
    let order = acyclic(alloc, graph)?;
    other_rules(alloc, graph, order.lines.as_slice())?;
    let need = need_of(alloc, graph)?;
    Ok(need)
}

/// The rules of a graph without a cycle.
fn other_rules(alloc: Global, graph: &Graph, order: &[u32]) -> Result<(), CheckRefusal>
    requires order { IsOrder graph.now order.now }
    requires count { length order.now ≡ length graph.now.lines }
    requires acyclic { Everywhere (NoCycleAt graph.now) }
    ensures accepted { OnOk result (Accepted graph.now) }
    ensures refused { IfErr result (IsRefusal graph.now) }
    ensures lines { IfErr result (NamesLines graph.now) }
{
    let held = sections(alloc, graph, order)?;
    all_on_merges(graph)?;
    no_races(alloc, graph, order, &held)?;
    Ok(())
}

/// No line has a path to itself: then the order has all lines.
fn acyclic(alloc: Global, graph: &Graph) -> Result<Order, CheckRefusal>
    ensures order { IfOk result (λ o. IsOrder graph.now o.lines.items) }
    ensures count { IfOk result (λ o. length o.lines.items ≡ length graph.now.lines) }
    ensures acyclic { OnOk result (Everywhere (NoCycleAt graph.now)) }
    ensures refused { IfErr result (IsRefusal graph.now) }
    ensures lines { IfErr result (NamesLines graph.now) }
{
    edges_between_lines();
    let _ = graph.lines();
    let order = Order::new(alloc, graph)?;
    let found = first_cycle(alloc, graph, &order)?;
    match found {
        None => Ok(order),
        Some(line) => Err(CheckRefusal::Cycle(line)),
    }
}

/// The three rules of sections, and in which sections the lines lie.
fn sections(alloc: Global, graph: &Graph, order: &[u32]) -> Result<Held, CheckRefusal>
    requires order { IsOrder graph.now order.now }
    requires count { length order.now ≡ length graph.now.lines }
    requires acyclic { Everywhere (NoCycleAt graph.now) }
    ensures sections { IfOk result (AreSections graph.now) }
    ensures refused { IfErr result (IsRefusal graph.now) }
    ensures lines { IfErr result (NamesLines graph.now) }
{
    match held_sections(alloc, graph, order)? {
        Sections::Kept(held) => Ok(held),
        Sections::Doubted(doubted) => { sections_by_rule(alloc, graph, order, doubted.as_slice()) }
    }
}

/// The same, rule by rule.
fn sections_by_rule(
    alloc: Global,
    graph: &Graph,
    order: &[u32],
    doubted: &[bool],
) -> Result<Held, CheckRefusal>
    requires size { length doubted.now ≡ length graph.now.lines }
    requires doubted { AreDoubted graph.now doubted.now }
    requires order { IsOrder graph.now order.now }
    requires count { length order.now ≡ length graph.now.lines }
    requires acyclic { Everywhere (NoCycleAt graph.now) }
    ensures sections { IfOk result (AreSections graph.now) }
    ensures refused { IfErr result (IsRefusal graph.now) }
    ensures lines { IfErr result (NamesLines graph.now) }
{
    let table = Table::new(alloc, graph, order)?;
    all_released(alloc, graph, &table, doubted)?;
    all_in_sections(alloc, graph, &table, doubted)?;
    all_descend(alloc, graph, &table, doubted)?;
    let held = sections_of_lines(alloc, graph, &table)?;
    Ok(held)
}

/// Each acquire has a release with a path from it.
fn all_released(
    alloc: Global,
    graph: &Graph,
    table: &Table,
    doubted: &[bool],
) -> Result<(), CheckRefusal>
    requires size { length doubted.now ≡ length graph.now.lines }
    requires doubted { AreDoubted graph.now doubted.now }
    requires table { IsTable graph.now table.now }
    requires acyclic { Everywhere (NoCycleAt graph.now) }
    ensures released { OnOk result (Everywhere (ReleasedAt graph.now)) }
    ensures refused { IfErr result (IsRefusal graph.now) }
    ensures lines { IfErr result (NamesLines graph.now) }
{
    match first_unreleased(alloc, graph, table, doubted)? {
        None => Ok(()),
        Some(line) => Err(CheckRefusal::Unreleased(line)),
    }
}

/// Each line before a release lies in its section, or before that.
fn all_in_sections(
    alloc: Global,
    graph: &Graph,
    table: &Table,
    doubted: &[bool],
) -> Result<(), CheckRefusal>
    requires size { length doubted.now ≡ length graph.now.lines }
    requires doubted { AreDoubted graph.now doubted.now }
    requires table { IsTable graph.now table.now }
    requires acyclic { Everywhere (NoCycleAt graph.now) }
    requires released { Everywhere (ReleasedAt graph.now) }
    ensures sections { OnOk result (EverywhereTwice (SectionAt graph.now)) }
    ensures refused { IfErr result (IsRefusal graph.now) }
    ensures lines { IfErr result (NamesLines graph.now) }
{
    match first_outside(alloc, graph, table, doubted)? {
        None => Ok(()),
        Some((release, line)) => Err(CheckRefusal::Section(release, line)),
    }
}

/// Each section acquires only reservations that are declared later.
fn all_descend(
    alloc: Global,
    graph: &Graph,
    table: &Table,
    doubted: &[bool],
) -> Result<(), CheckRefusal>
    requires size { length doubted.now ≡ length graph.now.lines }
    requires doubted { AreDoubted graph.now doubted.now }
    requires table { IsTable graph.now table.now }
    requires acyclic { Everywhere (NoCycleAt graph.now) }
    requires released { Everywhere (ReleasedAt graph.now) }
    requires sections { EverywhereTwice (SectionAt graph.now) }
    ensures descends { OnOk result (EverywhereTwice (DescendsAt graph.now)) }
    ensures refused { IfErr result (IsRefusal graph.now) }
    ensures lines { IfErr result (NamesLines graph.now) }
{
    match first_climbing(alloc, graph, table, doubted)? {
        None => Ok(()),
        Some((acquire, line)) => Err(CheckRefusal::Descends(acquire, line)),
    }
}

/// Each release stands on a merge that ignores faults.
fn all_on_merges(graph: &Graph) -> Result<(), CheckRefusal>
    requires acyclic { Everywhere (NoCycleAt graph.now) }
    requires released { Everywhere (ReleasedAt graph.now) }
    requires sections { EverywhereTwice (SectionAt graph.now) }
    requires descends { EverywhereTwice (DescendsAt graph.now) }
    ensures release_faults { OnOk result (Everywhere (ReleaseFaultAt graph.now)) }
    ensures refused { IfErr result (IsRefusal graph.now) }
    ensures lines { IfErr result (NamesLines graph.now) }
{
    match first_release_fault(graph) {
        None => Ok(()),
        Some(line) => Err(CheckRefusal::ReleaseFault(line)),
    }
}

/// Lines that conflict have a path one way or the other, or are exempt.
fn no_races(alloc: Global, graph: &Graph, order: &[u32], held: &Held) -> Result<(), CheckRefusal>
    requires order { IsOrder graph.now order.now }
    requires count { length order.now ≡ length graph.now.lines }
    requires sections { AreSections graph.now held.now }
    requires acyclic { Everywhere (NoCycleAt graph.now) }
    requires release_faults { Everywhere (ReleaseFaultAt graph.now) }
    ensures races { OnOk result (EverywhereTwice (RaceAt graph.now)) }
    ensures refused { IfErr result (IsRefusal graph.now) }
    ensures lines { IfErr result (NamesLines graph.now) }
{
    match first_race(alloc, graph, order, held)? {
        None => Ok(()),
        Some((one, other)) => Err(CheckRefusal::Race(one, other)),
    }
}

/// The race whose later line stands first, where these two lines are told.
pub(crate) fn topmost_of(
    alloc: Global,
    graph: &Graph,
    first: u32,
    second: u32,
) -> Result<(u32, u32), NoMemory>
    requires race { IsRace graph.now first second }
    ensures lines { IfOk result (λ p. (p.0 < length graph.now.lines) × (p.1 < length graph.now.lines)) }
    ensures topmost { IfOk result (λ p. IsTopmostRace graph.now p.0 p.1) }
{
    let order = order_of(alloc, graph)?;
    let order = order.lines.as_slice();
    let held = held_of(alloc, graph, order)?;
    let found = topmost_race_from(alloc, graph, order, &held, first, second)?;
    match found {
        Some(pair) => Ok(pair),
        None => unreachable!(),
    }
}

/// An order of all lines, where there is no cycle.
fn order_of(alloc: Global, graph: &Graph) -> Result<Order, NoMemory>
    requires acyclic { Everywhere (NoCycleAt graph.now) }
    ensures order { IfOk result (λ o. IsOrder graph.now o.lines.items) }
    ensures count { IfOk result (λ o. length o.lines.items ≡ length graph.now.lines) }
{
    edges_between_lines();
    let _ = graph.lines();
    let order = Order::new(alloc, graph)?;
    Ok(order)
}

/// In which sections the lines lie.
fn held_of(alloc: Global, graph: &Graph, order: &[u32]) -> Result<Held, NoMemory>
    requires order { IsOrder graph.now order.now }
    requires count { length order.now ≡ length graph.now.lines }
    ensures { IfOk result (IsHeld graph.now) }
{
    match held_sections(alloc, graph, order)? {
        Sections::Kept(held) => Ok(held),
        Sections::Doubted(_) => {
            let table = Table::new(alloc, graph, order)?;
            sections_of_lines(alloc, graph, &table)
        }
    }
}
