//! Memory for the lists of a core.

ghost use Rattle.std.specs.Prelude.{◌≡◌, ◌≤◌, [], IfOk};
ghost use Rattle.std.specs.Vec.{vec_capacity};
ghost use Rattle.run_parts.specs.Room.{HasRoom};

use crate::locks::LockState;
use crate::progress::Progress;
use event_table::Handle;
use graph_model::graph::Graph;
use graph_terms::outcome::{Answer, End};
use index_spaces::NoMemory;
use index_spaces::room::with_room;
use lent_columns::lent::Lent;
use std::alloc::Global;

/// Room for the lists of the outcome.
#[derive(Drop)]
pub struct OutcomeRoom {
    pub ends: Vec<End>,
    pub answers: Vec<Answer>,
    pub phases: Vec<Option<u64>>,
}

impl OutcomeRoom {
    /// Room for so many lines.
    pub fn reserve(alloc: Global, lines: usize) -> Result<OutcomeRoom, NoMemory>
        ensures ends { IfOk result (λ r. (r.ends.items ≡ []) × (vec_capacity r.ends ≡ lines)) }
        ensures answers { IfOk result (λ r. (r.answers.items ≡ []) × (vec_capacity r.answers ≡ lines)) }
        ensures phases { IfOk result (λ r. (r.phases.items ≡ []) × (vec_capacity r.phases ≡ lines)) }
    {
        Ok(OutcomeRoom {
            ends: with_room(alloc, lines)?,
            answers: with_room(alloc, lines)?,
            phases: with_room(alloc, lines)?,
        })
    }
}

/// Room for the lists of a core and of its outcome. Nothing is written into it before a core is made,
/// so a run that only keeps it pays for no page of it.
#[derive(Drop)]
pub struct RunRoom {
    /// By line: how far it has come.
    pub stages: Vec<Progress>,
    /// By line: its handle.
    pub handles: Vec<Handle>,
    /// By line: whether its waiter is placed or caught.
    pub busy: Vec<bool>,
    /// By line: the value of a phase.
    pub values: Vec<u64>,
    /// By line: whether it holds its reservation.
    pub holding: Vec<bool>,
    /// The ended lines.
    pub trace: Vec<u32>,
    /// By column: the line that took it last.
    pub takers: Vec<u32>,
    /// By column: its lending, where it is lent.
    pub lent: Vec<Option<Lent>>,
    /// By reservation: how it is held.
    pub held: Vec<LockState>,
    pub outcome: OutcomeRoom,
}

impl RunRoom {
    /// Room for a core of a graph, with no item in any list.
    pub fn reserve(alloc: Global, graph: &Graph) -> Result<RunRoom, NoMemory>
        ensures room { IfOk result (λ r. HasRoom graph.now r) }
        ensures empty { IfOk result (λ r. (r.handles.items ≡ []) × (r.trace.items ≡ [])) }
    {
        let lines = graph.lines() as usize;
        // First the values, then the handles: a run in words brings its own list of these, and what was let
        // go before then serves for a list that is written.
        let values = with_room(alloc, lines)?;
        let stages = with_room(alloc, lines)?;
        let handles = with_room(alloc, lines)?;
        let busy = with_room(alloc, lines)?;
        let holding = with_room(alloc, lines)?;
        let trace = with_room(alloc, lines)?;
        let takers = with_room(alloc, graph.columns() as usize)?;
        let lent = with_room(alloc, graph.columns() as usize)?;
        let held = with_room(alloc, graph.locks() as usize)?;
        let outcome = OutcomeRoom::reserve(alloc, lines)?;
        Ok(RunRoom {
            stages,
            handles,
            busy,
            values,
            holding,
            trace,
            takers,
            lent,
            held,
            outcome,
        })
    }
}
