//! Running the graphs of a session in order.

ghost use Rattle.std.specs.Prelude.{◌≡◌, ℕ, ◌+◌, ◌<◌, ◌≤◌, ◌++◌, ◌∷◌, [], List, length, map, IfOk, IfErr};
ghost use Rattle.std.specs.Borrow.{Bor};
ghost use Rattle.std.specs.Fn.{FnReturnsAt};
ghost use Rattle.event_table.specs.declared.limits.TheConstants.{MAX_SLOTS};
ghost use Rattle.checked_graph.specs.Checked.{CheckedValue};
ghost use Rattle.graph_meaning.specs.Rules.{Accepted};
ghost use Rattle.race_check.specs.Refusal.{IsRefusal, NamesLines};
ghost use Rattle.session_text.specs.declared.limits.TheConstants.{MAX_GRAPHS, MAX_SESSION_LINES};
ghost use Rattle.session_text.specs.Fits.{AreEntries};
ghost use Rattle.session_run.specs.Ended.{IsEnded};
ghost use Rattle.session_run.specs.Linked.{LinkedGraph, linked, linked_entry};
ghost use Rattle.session_run.specs.Running.{line_total, linked_of, ran_by, slots_needed, slots_of, IsRunning};
ghost use Rattle.session_run.specs.Session.{AreNext, CanRun, CanRunNext, GivesOutcomes, Refuses, StopsOr};

use crate::ended::Ended;
use crate::running::{Linked, RecordFault, Running};
use checked_graph::Checked;
use graph_model::graph::Graph;
use graph_terms::name::Name;
use graph_terms::outcome::Outcome;
use index_spaces::NoMemory;
use race_check::check;
use race_check::checked::{CheckRefusal, Unfit};
use session_text::Entry;
use std::alloc::Global;

/// A graph with its links that was not accepted, and why.
#[derive(Drop)]
pub struct UnfitGraph {
    pub name: Name,
    pub graph: Graph,
    pub why: CheckRefusal,
}

/// Why the graphs of a session did not all run.
#[derive(Drop)]
pub enum RunFault {
    /// This one is not accepted.
    Unfit(UnfitGraph),
    /// So many slots are needed, more than there are.
    Slots(u32),
    /// Memory ran out.
    NoMemory,
}

/// What is said of a graph of this name that was not accepted.
fn unfit_fault(name: Name, unfit: Unfit) -> RunFault
    requires refused { IsRefusal unfit.graph unfit.why }
    requires names { NamesLines unfit.graph unfit.why }
    ensures { (slots : ℕ) (before : List LinkedGraph) → Refuses slots before (record { name = name; graph = unfit.graph }) result }
{
    match unfit.why {
        CheckRefusal::NoMemory => RunFault::NoMemory,
        why => RunFault::Unfit(UnfitGraph {
            name,
            graph: unfit.graph,
            why,
        }),
    }
}

/// Runs the graphs of a session in order, each with its links as lines and by a call of `run`, and records
/// each before the next is checked. The first that is refused ends it. No graph has more lines than a session.
pub fn run_session<F: Fn(&Checked) -> Result<Outcome, NoMemory>>(
    alloc: Global,
    run: &F,
    entries: Vec<Entry>,
    slots: u32,
) -> Result<Ended, RunFault>
    requires slots { (0 < slots) × (slots ≤ MAX_SLOTS) }
    requires entries { AreEntries entries.items }
    requires callable { (p : Bor CheckedValue) → length p.now.graph.lines ≤ MAX_SESSION_LINES → F.pre run.now p }
    requires outcomes { GivesOutcomes (FnReturnsAt F.Fn run.now) }
    ensures ended { IfOk result (λ e. IsEnded e) }
    ensures linked { IfOk result (λ e. map linked_of e.graphs.items ≡ linked entries.items) }
    ensures ran { IfOk result (λ _. CanRun slots (linked entries.items)) }
    ensures stops { IfErr result (λ fault. StopsOr slots (linked entries.items) fault) }
{
    let mut entries = entries;
    let mut running = match Running::new(alloc, slots) {
        Ok(running) => running,
        Err(NoMemory) => return Err(RunFault::NoMemory),
    };
    while !entries.is_empty() {
        running = match run_next(alloc, run, running, entries.remove(0)) {
            Ok(running) => running,
            Err(fault) => return Err(fault),
        };
    }
    Ok(running.close())
}

/// Runs the next graph of a session, and records it behind those that were run.
fn run_next<F: Fn(&Checked) -> Result<Outcome, NoMemory>>(
    alloc: Global,
    run: &F,
    running: Running,
    entry: Entry,
) -> Result<Running, RunFault>
    requires running { IsRunning running }
    requires next { CanRunNext (ran_by running) entry }
    requires callable { (p : Bor CheckedValue) → length p.now.graph.lines ≤ MAX_SESSION_LINES → F.pre run.now p }
    requires outcomes { GivesOutcomes (FnReturnsAt F.Fn run.now) }
    ensures running { IfOk result (λ r. IsRunning r) }
    ensures slots { IfOk result (λ r. slots_of r ≡ slots_of running) }
    ensures ran { IfOk result (λ r. ran_by r ≡ ran_by running ++ linked_entry (ran_by running) entry ∷ []) }
    ensures accepted { IfOk result (λ _. Accepted (linked_entry (ran_by running) entry).graph) }
    ensures enough { IfOk result (λ r. slots_needed (ran_by r) ≤ slots_of running) }
    ensures refused { IfErr result (λ fault. Refuses (slots_of running) (ran_by running) (linked_entry (ran_by running) entry) fault) }
{
    let mut running = running;
    let Linked { name, graph } = match running.link(alloc, entry) {
        Ok(linked) => linked,
        Err(NoMemory) => return Err(RunFault::NoMemory),
    };
    match check(alloc, graph) {
        Ok(checked) => run_checked(alloc, run, running, name, checked),
        Err(unfit) => Err(unfit_fault(name, unfit)),
    }
}

/// Runs a graph that is accepted, and records it behind those that were run.
fn run_checked<F: Fn(&Checked) -> Result<Outcome, NoMemory>>(
    alloc: Global,
    run: &F,
    running: Running,
    name: Name,
    checked: Checked,
) -> Result<Running, RunFault>
    requires running { IsRunning running }
    requires graphs { length (ran_by running) < MAX_GRAPHS }
    requires few { line_total (ran_by running) + length checked.graph.lines ≤ MAX_SESSION_LINES }
    requires callable { (p : Bor CheckedValue) → length p.now.graph.lines ≤ MAX_SESSION_LINES → F.pre run.now p }
    requires outcomes { GivesOutcomes (FnReturnsAt F.Fn run.now) }
    ensures running { IfOk result (λ r. IsRunning r) }
    ensures slots { IfOk result (λ r. slots_of r ≡ slots_of running) }
    ensures ran { IfOk result (λ r. ran_by r ≡ ran_by running ++ record { name = name; graph = checked.graph } ∷ []) }
    ensures enough { IfOk result (λ r. slots_needed (ran_by r) ≤ slots_of running) }
    ensures refused { IfErr result (λ fault. Refuses (slots_of running) (ran_by running) (record { name = name; graph = checked.graph }) fault) }
{
    let Ok(outcome) = run(&checked) else {
        return Err(RunFault::NoMemory);
    };
    let _ = checked.graph();
    match running.record(alloc, name, checked, outcome) {
        Ok(running) => Ok(running),
        Err(RecordFault::Slots(need)) => Err(RunFault::Slots(need)),
        Err(RecordFault::NoMemory) => Err(RunFault::NoMemory),
    }
}
