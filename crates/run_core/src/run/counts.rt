//! How many lines have come how far.

ghost use Rattle.std.specs.Prelude.{◌≡◌, ◌≤◌, ◌<◌, length, map, not, ◌&&◌};
ghost use Rattle.basics.specs.Lists.{count_below};
ghost use Rattle.graph_terms.specs.Graph.{never_comes};
ghost use Rattle.graph_terms.specs.declared.limits.TheConstants.{MAX_LINES_OF_THREE};
ghost use Rattle.run_state.specs.Run.{ended, stage_at, stage_ended};
ghost use Rattle.run_core.specs.Counts.{has_stage};
ghost use Rattle.run_lists.specs.Stages.{shown_stage};

use crate::run::Core;
use graph_model::graph::Graph;
use run_parts::{Progress, Stage};

impl<'g> Core<'g> {
    ghost use Rattle.std.specs.Prelude.{◌≡◌, ◌<◌, ◌↔◌, length};
    ghost use Rattle.run_state.specs.Run.{ended};
    ghost use Rattle.run_core.specs.Counts.{lines_at, lines_left};
    ghost use Rattle.run_core.specs.Finishing.{NothingOut};

    /// How many lines are at this stage.
    pub fn lines_at(&self, stage: Stage) -> u32
        ensures count { result ≡ lines_at self.now stage }
        ensures out { stage ≡ Stage.Out → (result ≡ 0) ↔ NothingOut self.now }
    {
        let _ = self.checked.graph().lines();
        count_at(self.stages.as_slice(), stage)
    }

    /// Whether a line has ended.
    pub fn has_ended(&self, line: u32) -> bool
        requires { line < length self.now.graph.lines }
        ensures { result ≡ ended self.now.run.stages line }
    {
        let _ = self.checked.graph().lines();
        matches!(self.stages[line as usize], Progress::Ended(_))
    }

    /// How many lines come and have not ended.
    pub fn lines_left(&self) -> u32
        ensures { result ≡ lines_left self.now }
    {
        count_left(self.checked.graph(), self.stages.as_slice())
    }
}

/// How many of these are at this stage.
fn count_at(stages: &[Progress], stage: Stage) -> u32
    requires few { length stages.now ≤ MAX_LINES_OF_THREE }
    ensures { result ≡ count_below (λ i. has_stage stage (stage_at (map shown_stage stages.now) i)) (length stages.now) }
{
    let mut count = 0;
    for line in 0..stages.len() as u32 {
        if has_stage(stages[line as usize], stage) {
            count += 1;
        }
    }
    count
}

/// Whether a line that has come so far is at this stage.
fn has_stage(progress: Progress, stage: Stage) -> bool
    ensures { result ≡ has_stage stage (shown_stage progress) }
{
    match stage {
        Stage::Unissued => matches!(progress, Progress::Unissued),
        Stage::Issued => matches!(progress, Progress::Issued),
        Stage::Out => matches!(progress, Progress::Out),
        Stage::Ended => matches!(progress, Progress::Ended(_)),
    }
}

/// How many lines come and have not ended.
fn count_left(graph: &Graph, stages: &[Progress]) -> u32
    requires each { length stages.now ≡ length graph.now.lines }
    ensures { result ≡ count_below (λ i. not (ended (map shown_stage stages.now) i) && not (never_comes graph.now i)) (length graph.now.lines) }
{
    let mut count = 0;
    for line in 0..graph.lines() {
        if is_left(graph, line, stages[line as usize]) {
            count += 1;
        }
    }
    count
}

/// Whether a line that has come so far comes and has not ended.
fn is_left(graph: &Graph, line: u32, progress: Progress) -> bool
    requires { line < length graph.now.lines }
    ensures { result ≡ not (stage_ended (shown_stage progress)) && not (never_comes graph.now line) }
{
    match progress {
        Progress::Ended(_) => false,
        _ => !graph.never_comes(line),
    }
}
