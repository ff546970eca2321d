//! What the end of a run needs of memory, as `prepare` alone takes some.

ghost use Rattle.std.specs.Prelude.{◌≤◌, ◌<◌, IfOk};
ghost use Rattle.word_parts.specs.ClosingRoom.{IsClosingRoom};

use event_table::EventTable;
use graph_model::graph::Graph;
use index_spaces::NoMemory;
use index_spaces::room::with_room;
use run_parts::{LineState, RunRoom, last_gen_for};
use std::alloc::Global;

/// Room for what a run leaves, asked for before the run begins so that its end takes no memory: for
/// the states of the lines, the values of the phases and the lists of a core, with a table in which
/// nothing was created. Nothing is written into the lists before the end.
#[derive(Drop)]
pub struct ClosingRoom {
    pub(crate) states: Vec<LineState>,
    pub(crate) phases: Vec<Option<u64>>,
    pub(crate) table: EventTable,
    pub(crate) room: RunRoom,
}

impl ClosingRoom {
    /// What the end of a run with this many event slots needs, beside the columns' homes.
    pub(crate) fn prepare(alloc: Global, graph: &Graph, slots: u32) -> Result<ClosingRoom, NoMemory>
        requires { (0 < slots) × (slots ≤ 8192) }
        ensures { IfOk result (λ s. IsClosingRoom graph.now slots s) }
    {
        let lines = graph.lines();
        let states = with_room(alloc, lines as usize)?;
        let phases = with_room(alloc, lines as usize)?;
        let Ok(table) = EventTable::new(alloc, slots, lines, last_gen_for(lines)) else {
            return Err(NoMemory);
        };
        let room = RunRoom::reserve(alloc, graph)?;
        Ok(ClosingRoom {
            states,
            phases,
            table,
            room,
        })
    }
}
