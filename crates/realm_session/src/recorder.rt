//! The recorder of a session.

ghost use Rattle.std.specs.Prelude.{◌≡◌, ◌<◌, length};
ghost use Rattle.realm_session.specs.Recorded.{IsRecord, lines_in, waiting_in};

use crate::line::Line;
use event_table::Handle;
use graph_terms::lists::ItemList;
use shared_events::{Maker, Seat};

/// The right to record, and what was recorded. A session has one.
#[derive(Drop)]
pub struct Recorder {
    pub(crate) maker: Maker,
    pub(crate) seat: Seat,
    pub(crate) slots: u32,
    // How many lines were recorded, and how many of them wait.
    pub(crate) lines: u32,
    pub(crate) waiting: u32,
    pub(crate) graphs: Vec<ItemList<Line>>,
    ghost counted: { (lines ≡ length (lines_in graphs.items)) × (waiting ≡ waiting_in (lines_in graphs.items)) },
    ghost sound: { IsRecord (record { slots = slots; graphs = graphs.items }) },
}

impl Recorder {
    ghost use Rattle.std.specs.Prelude.{ℕ, ◌≢◌, ◌≤◌, ◌+◌, ◌++◌, ◌∷◌, [], ◌↔◌, map, vec_len, Contains, IfOk, OnOk, OnErr};
    ghost use Rattle.realm_session.specs.Recorded.{IsLine, IsRecorded, graph_at};
    ghost use Rattle.realm_session.specs.Sessions.{recorded_by};
    ghost use Rattle.realm_session.specs.declared.line.Line.{Line as TheLine};

    /// The handle of a line that was recorded, of the graph with this number. Its slot is one of the
    /// session's, and no other line has this handle.
    pub fn handle_of(&self, graph: u32, line: u32) -> Handle
        requires recorded { line < length (graph_at (recorded_by self.now) graph) }
        ensures line { (x : TheLine) × IsLine (recorded_by self.now) graph line x × IsRecorded (recorded_by self.now) x × (x.handle ≡ result) }
        ensures within { result.slot < (recorded_by self.now).slots }
        ensures apart { (g l : ℕ) (x : TheLine) → IsLine (recorded_by self.now) g l x → x.handle ≡ result → (g ≡ graph) × (l ≡ line) }
    {
        self.graphs[graph as usize].at(line).handle
    }
}
