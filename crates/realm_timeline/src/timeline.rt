//! The plan of an accepted graph, with its certificate.

ghost use Rattle.std.specs.Prelude.{◌≡◌, ℕ, ◌+◌, ◌-◌, ◌*◌, ◌<◌, ◌≤◌, List, Option, Some, None, length, slice_get, max, OnOk, IfOk, MatchOption};
ghost use Rattle.graph_meaning.specs.Path.{Reached};
ghost use Rattle.realm_timeline.specs.declared.slot.Slot.{Slot as SlotValue};
ghost use Rattle.realm_timeline.specs.Plan.{IsPlan, IsValid, IsGreedy, slot_at, plan_length, total_cost, planned_cost, finish_or_0};
ghost use Rattle.realm_timeline.specs.Columns.{AreApart, IsGreedyByColumns};
ghost use Rattle.realm_timeline.specs.Chains.{IsCritical, chain_cost};
ghost use Rattle.realm_timeline.specs.Order.{IsOrder};
ghost use Rattle.realm_timeline.specs.Laws.{AcquiresNone};

use crate::cost::cost_of;
use crate::critical::critical_of;
use crate::laws::{greedy_plans_are_short, plans_are_as_long_as_chains};
use crate::simulation::Simulation;
use crate::slot::Slot;
use checked_graph::Checked;
use graph_model::graph::Graph;
use graph_terms::lists::LineList;
use index_spaces::NoMemory;
use std::alloc::Global;
use std::marker::Model;

/// A plan of a graph, with its length, the costs of its lines added up, and the critical chain with
/// its cost. Times and costs are whole numbers of virtual time.
#[derive(Drop)]
pub struct Timeline {
    slots: Vec<Option<Slot>>,
    length: u64,
    total: u64,
    critical: LineList,
    critical_cost: u64,
}

impl Model for Timeline {
    ghost use Rattle.realm_timeline.specs.Timeline.{TimelineValue};

    ghost Value = { TimelineValue };

    ghost view = { λ a. record {
      plan = a.slots.items;
      span = a.length;
      total = a.total;
      critical = a.critical;
      critical_cost = a.critical_cost;
    } };
}

impl Timeline {
    /// The processor, the start and the finish of a line. `None` exactly where it has no slot: in what
    /// `plan` gives, where a line that never comes reaches it. It takes no memory.
    pub fn slot(&self, i: u32) -> Option<(u32, u64, u64)>
        requires { i < length self.now.plan }
        ensures { MatchOption result (slot_at self.now.plan i ≡ None)
            (λ r. slot_at self.now.plan i ≡ Some (record { processor = r.0; start = r.1; finish = r.2 })) }
    {
        let slot = self.planned(i)?;
        Some((slot.processor, slot.start, slot.finish))
    }

    /// The slot of a line, if it has one.
    pub(crate) fn planned(&self, i: u32) -> Option<Slot>
        requires { i < length self.now.plan }
        ensures { result ≡ slot_at self.now.plan i }
    {
        self.slots[i as usize]
    }

    /// The length of the plan: the greatest finish, and 0 where no line is planned.
    pub fn length(&self) -> u64
        ensures { result ≡ self.now.span }
    {
        self.length
    }

    /// The costs of the planned lines, added up.
    pub fn total(&self) -> u64
        ensures { result ≡ self.now.total }
    {
        self.total
    }

    /// The critical chain: of all chains of planned lines the costliest, from its first line to its
    /// last. It has no line where none is planned.
    pub fn critical(&self) -> &LineList
        ensures { result.now ≡ self.now.critical }
    {
        &self.critical
    }

    /// The cost of the critical chain, which no plan's length is below.
    pub fn critical_cost(&self) -> u64
        ensures { result ≡ self.now.critical_cost }
    {
        self.critical_cost
    }
}

/// Plans an accepted graph on 1 to 8 processors in virtual time: a line that is ready starts as soon as
/// it may, the lowest first, on the lowest processor that is free for it.
///
/// `NoMemory`: memory was refused; the graph stays as it is.
pub fn plan(alloc: Global, checked: &Checked, processors: u32) -> Result<Timeline, NoMemory>
    requires some { 1 ≤ processors }
    requires few { processors ≤ 8 }
    ensures plan { IfOk result (λ t. IsPlan checked.now.graph processors t.plan) }
    ensures each_line { IfOk result (λ t. length t.plan ≡ length checked.now.graph.lines) }
    ensures reached { IfOk result (λ t. (i : ℕ) → i < length checked.now.graph.lines → slot_at t.plan i ≡ None → Reached checked.now.graph i) }
    ensures valid { IfOk result (λ t. IsValid checked.now.graph t.plan) }
    ensures greedy { IfOk result (λ t. IsGreedy checked.now.graph processors t.plan) }
    ensures length { IfOk result (λ t. t.span ≡ plan_length t.plan) }
    ensures total { IfOk result (λ t. t.total ≡ total_cost checked.now.graph t.plan) }
    ensures critical { IfOk result (λ t. IsCritical checked.now.graph t.critical) }
    ensures lines { IfOk result (λ t. (k i : ℕ) → slice_get t.critical k ≡ Some i → i < length checked.now.graph.lines) }
    ensures critical_cost { IfOk result (λ t. t.critical_cost ≡ chain_cost checked.now.graph t.critical) }

    // A valid plan on any number of processors is at least as long as the critical chain costs.
    ensures at_least { IfOk result (λ t. (n : ℕ) (other : List (Option SlotValue)) →
        IsPlan checked.now.graph n other → IsValid checked.now.graph other → t.critical_cost ≤ plan_length other) }

    // Without reservations this plan is short: at most (total + (p - 1) * critical_cost) / p.
    ensures at_most { IfOk result (λ t. AcquiresNone checked.now.graph →
        processors * t.span ≤ t.total + (processors - 1) * t.critical_cost) }
{
    plans_are_as_long_as_chains();
    greedy_plans_are_short();
    let graph = checked.graph();
    let simulation = Simulation::of_all_lines(alloc, graph, false, processors)?;
    let timeline = timeline_of(alloc, graph, simulation)?;
    Ok(timeline)
}

/// Plans an accepted graph as `plan` does, but that a line which changes a column runs beside no other
/// that uses it: it starts once each of these that has started has finished. Lines that only read a
/// column run side by side.
///
/// `NoMemory`: memory was refused; the graph stays as it is.
pub fn plan_by_columns(
    alloc: Global,
    checked: &Checked,
    processors: u32,
) -> Result<Timeline, NoMemory>
    requires some { 1 ≤ processors }
    requires few { processors ≤ 8 }
    ensures plan { IfOk result (λ t. IsPlan checked.now.graph processors t.plan) }
    ensures each_line { IfOk result (λ t. length t.plan ≡ length checked.now.graph.lines) }
    ensures reached { IfOk result (λ t. (i : ℕ) → i < length checked.now.graph.lines → slot_at t.plan i ≡ None → Reached checked.now.graph i) }
    ensures valid { IfOk result (λ t. IsValid checked.now.graph t.plan) }
    ensures apart { IfOk result (λ t. AreApart checked.now.graph t.plan) }
    ensures greedy { IfOk result (λ t. IsGreedyByColumns checked.now.graph processors t.plan) }
    ensures length { IfOk result (λ t. t.span ≡ plan_length t.plan) }
    ensures total { IfOk result (λ t. t.total ≡ total_cost checked.now.graph t.plan) }
    ensures critical { IfOk result (λ t. IsCritical checked.now.graph t.critical) }
    ensures lines { IfOk result (λ t. (k i : ℕ) → slice_get t.critical k ≡ Some i → i < length checked.now.graph.lines) }
    ensures critical_cost { IfOk result (λ t. t.critical_cost ≡ chain_cost checked.now.graph t.critical) }
{
    let graph = checked.graph();
    let simulation = Simulation::of_all_lines(alloc, graph, true, processors)?;
    let timeline = timeline_of(alloc, graph, simulation)?;
    Ok(timeline)
}

/// The timeline of a simulation at its end.
fn timeline_of(alloc: Global, graph: &Graph, simulation: Simulation) -> Result<Timeline, NoMemory>
    requires order { IsOrder graph.now simulation.order.items }
    requires each_line { length simulation.slots.items ≡ length graph.now.lines }
    ensures plan { IfOk result (λ t. t.plan ≡ simulation.slots.items) }
    ensures length { IfOk result (λ t. t.span ≡ plan_length simulation.slots.items) }
    ensures total { IfOk result (λ t. t.total ≡ total_cost graph.now simulation.slots.items) }
    ensures critical { IfOk result (λ t. IsCritical graph.now t.critical) }
    ensures critical_cost { IfOk result (λ t. t.critical_cost ≡ chain_cost graph.now t.critical) }
{
    let (critical, critical_cost) = critical_of(alloc, graph, &simulation.order)?;
    let length = length_of(&simulation.slots);
    let total = total_of(graph, &simulation.slots);
    Ok(Timeline {
        slots: simulation.slots,
        length,
        total,
        critical,
        critical_cost,
    })
}

/// The greatest finish, and 0 where there is none.
fn length_of(slots: &[Option<Slot>]) -> u64
    ensures { result ≡ plan_length slots.now }
{
    let mut length = 0;
    for slot in slots {
        length = longer_of(length, *slot);
    }
    length
}

/// A length, or a finish where that is greater.
fn longer_of(length: u64, slot: Option<Slot>) -> u64
    ensures { result ≡ max length (finish_or_0 slot) }
{
    match slot {
        Some(slot) => {
            if slot.finish > length {
                slot.finish
            } else {
                length
            }
        }
        None => length,
    }
}

/// The costs of the planned lines, added up.
fn total_of(graph: &Graph, slots: &[Option<Slot>]) -> u64
    requires { length slots.now ≡ length graph.now.lines }
    ensures { result ≡ total_cost graph.now slots.now }
{
    let mut total = 0;
    for line in 0..graph.lines() {
        total += planned_cost(graph, slots, line);
    }
    total
}

/// The cost of a line that is planned, and 0 for any other.
fn planned_cost(graph: &Graph, slots: &[Option<Slot>], line: u32) -> u64
    requires known { line < length graph.now.lines }
    requires slots { length slots.now ≡ length graph.now.lines }
    ensures cost { result ≡ planned_cost graph.now slots.now line }
    ensures few { result ≤ 68719476736 }
{
    match slots[line as usize] {
        Some(_) => cost_of(graph, line),
        None => 0,
    }
}
