//! What a handle of a run or of a line's work holds.

ghost use Rattle.std.specs.Arc.{arc_value};
ghost use Rattle.run_handles.specs.Ends.{IsEvaluated};

use crate::run::Run;
use graph_terms::outcome::Outcome;
use race_check::checked::Checked;
use run_core::{Finished, Work};
use std::alloc::Global;
use std::sync::Arc;

/// What a handle holds.
#[derive(Drop)]
pub enum Token {
    /// A run that goes on.
    Run(Run),
    /// The work of a line, to be performed.
    Taken(Taken),
    /// The same, performed, to be put back.
    Finished(Finished),
    /// A run that has come to its end.
    Over(Over),
    /// Nothing, while the value moves.
    Empty,
}

/// The work of a line that was taken, with the graph that it is of.
#[derive(Drop)]
pub struct Taken {
    /// The work, which needs no run to be performed.
    pub work: Work,
    /// The graph of its run.
    pub graph: Arc<Checked, Global>,
}

/// A run that has come to its end.
#[derive(Drop)]
pub struct Over {
    /// Its graph.
    pub graph: Arc<Checked, Global>,
    /// What it gave.
    pub found: Outcome,
    ghost evaluated: { IsEvaluated (arc_value graph).graph found },
}

impl Over {
    ghost use Rattle.std.specs.Arc.{arc_value};
    ghost use Rattle.run_report.specs.Report.{FitsGraph};
    ghost use Rattle.run_handles.specs.Ends.{IsEvaluated};

    /// What a run gave has lists as long as its graph's, and is what the evaluation gives in which those calls fault that did.
    pub fn fits(&self)
        ensures fits { FitsGraph (arc_value self.now.graph).graph self.now.found }
        ensures evaluated { IsEvaluated (arc_value self.now.graph).graph self.now.found }
    {
        let _found = &self.found;
    }
}

fn is_send<T: Send>() {}

/// Each kind may go to another thread. It does nothing: it is well typed where that is proved.
pub(crate) fn may_cross() {
    is_send::<Run>();
    is_send::<Taken>();
    is_send::<Finished>();
    is_send::<Over>();
}
