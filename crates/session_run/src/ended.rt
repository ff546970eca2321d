//! The graphs of a session that have all run, and what their events answer.

ghost use Rattle.std.specs.Prelude.{◌≡◌, Some, slice_get};
ghost use Rattle.graph_meaning.specs.Evaluation.{eval_end};
ghost use Rattle.realm_session.specs.Recorded.{answer_for};
ghost use Rattle.session_run.specs.declared.running.RanGraph.{RanGraph as TheGraph};
ghost use Rattle.session_run.specs.Running.{IsRunning};
ghost use Rattle.session_run.specs.Ended.{HasLine, IsEnded};

use crate::running::{RanGraph, Running};
use event_table::Answer;
use realm_session::Left;

/// The graphs, and what the table of their events left.
#[derive(Drop)]
pub struct Ended {
    pub graphs: Vec<RanGraph>,
    pub(crate) left: Left,
}

impl Running {
    /// Closes the table: no graph is recorded any more.
    pub(crate) fn close(self) -> Ended
        requires running { IsRunning self }
        ensures graphs { result.graphs.items ≡ self.graphs.items }
        ensures ended { IsEnded result }
    {
        let Running {
            session,
            recorder,
            graphs,
        } = self;
        Ended {
            graphs,
            left: session.close(recorder),
        }
    }
}

impl Ended {
    /// What the event of a line answers, of the graph at this place.
    pub fn event(&self, place: u32, line: u32) -> Answer
        requires ended { IsEnded self.now }
        requires line { HasLine self.now place line }
        ensures { (x : TheGraph) → slice_get self.now.graphs.items place ≡ Some x → result ≡ answer_for (eval_end x.checked.graph line) }
    {
        let handle = self.graphs[place as usize].handles.at(line);
        self.left.look(handle)
    }
}
