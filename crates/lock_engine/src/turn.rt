//! The turn lock with its core.

ghost use Rattle.std.specs.Prelude.{false, ◌≡◌, ◌≤◌, ◌<◌, ℕ, None, Some, IfOk, length, slice_get};
ghost use Rattle.graph_meaning.specs.Evaluation.{outcome as evaluated};
ghost use Rattle.graph_meaning.specs.Trace.{IsLawful, SectionsApart};
ghost use Rattle.run_core.specs.Finishing.{NothingOut};
ghost use Rattle.lock_engine.specs.Seats.{IsResting, view_of};
ghost use Rattle.lock_engine.specs.Rule.{all_parts};

use crate::kept_core::KeptCore;
use crate::lock::take_seat;
use crate::notes::Notes;
use crate::plays::Law;
use crate::view::View;
use crate::workers::run_workers;
use atomic_table::{Badge, Table};
use checked_graph::Checked;
use graph_model::graph::Graph;
use graph_terms::outcome::Outcome;
use index_spaces::NoMemory;
use realm_io::Gate;
use run_core::{Core, MAX_SLOTS};
use std::alloc::Global;
use std::marker::Model;
use std::sync::Wait;
use std::thread::Threads;

/// The core of a run with the lock that workers take turns at. Contracts see it as its graph.
#[derive(Drop)]
pub struct Turn<'g> {
    graph: &'g Graph,
    table: Table<Option<KeptCore<'g>>, View, Graph, Law, Global>,
    badge: Badge<View>,
    notes: Notes,
}

impl<'g> Model for Turn<'g> {
    ghost use Rattle.std.specs.Prelude.{◌≡◌};
    ghost use Rattle.graph_terms.specs.Graph.{GraphValue};
    ghost use Rattle.lock_engine.specs.Rule.{first_view};
    ghost use Rattle.lock_engine.specs.Seats.{IsResting, view_of};

    ghost Value = { GraphValue };

    ghost view = { λ a. a.graph.now };

    ghost invariant = { λ a. record {
      key : a.table.shared.key ≡ a.graph.now;
      resting : IsResting a.table.shared.table_id a.badge;
      first : view_of a.badge ≡ first_view a.graph.now;
    } };
}

impl<'g> Turn<'g> {
    ghost use Rattle.std.specs.Prelude.{◌≡◌, ◌≤◌, IfOk};

    /// A run in which no line is issued, with this many event slots. Slots go from the graph's need
    /// to 8,192. `NoMemory` comes where memory ran out.
    pub fn prepare(alloc: Global, checked: &'g Checked, slots: u32) -> Result<Turn<'g>, NoMemory>
        requires enough { checked.now.need ≤ slots }
        requires most { slots ≤ MAX_SLOTS }
        ensures { IfOk result (λ turn. turn ≡ checked.now.graph) }
    {
        let graph = checked.graph();
        let notes = Notes::new(alloc, graph.lines())?;
        let core = Core::prepare(alloc, checked, slots)?;
        let kept = KeptCore::new(alloc, core)?;
        let Ok(cores) = vec![in alloc; Some(kept)] else {
            return Err(NoMemory);
        };
        match Table::new(alloc, &[0], cores, graph) {
            Ok((table, seat)) => {
                let badge = seat.into_badge();
                Ok(Turn {
                    graph,
                    table,
                    badge,
                    notes,
                })
            }
            Err(_) => Err(NoMemory),
        }
    }
}

/// Runs a graph by so many workers, at most eight, and answers the outcome of its evaluation, with
/// the ended lines in the order in which they ended. A worker passes the gate before it performs a
/// line. What the workers leave is done at the end, without the gate. In the trace, between an acquire
/// that is done and its release no other acquire of that reservation that is done stands.
pub fn run_turn<'g, R: Threads + Wait + Sync, G: Gate>(
    rt: &R,
    turn: Turn<'g>,
    workers: u32,
    gate: &G,
) -> Outcome
    requires workers { workers ≤ 8 }
    ensures outcome { result ≡ evaluated turn.entry result.trace }
    ensures lawful { IsLawful turn.entry result.trace }
    ensures sections { SectionsApart turn.entry result.trace }
    ensures lines { (k i : ℕ) → slice_get result.trace k ≡ Some i → i < length turn.entry.lines }
{
    let Turn {
        graph,
        table,
        badge,
        notes,
    } = turn;
    let badge = run_workers(rt, &table.shared, graph, gate, &notes, badge, workers);
    let mut core = last_core(table, badge);
    core.finish();
    core.outcome()
}

/// The core, once nobody else has a place at the lock.
fn last_core<'g>(
    table: Table<Option<KeptCore<'g>>, View, Graph, Law, Global>,
    badge: Badge<View>,
) -> Core<'g>
    requires resting { IsResting table.shared.table_id badge }
    requires idle { (view_of badge).line ≡ None }
    requires all { (view_of badge).parts ≡ all_parts }
    ensures graph { result.graph ≡ table.entry.shared.key }
    ensures unhosted { result.hosted ≡ false }
    ensures nothing_out { NothingOut result }
{
    let seat = take_seat(badge);
    let mut closed = table.close_with(seat);
    let Some(core) = closed.take(0) else {
        unreachable!()
    };
    closed.free();
    core.into_core()
}
