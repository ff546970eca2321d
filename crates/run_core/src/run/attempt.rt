//! What keeps a line from being taken.

ghost use Rattle.std.specs.Prelude.{◌≡◌};
ghost use Rattle.run_lists.specs.Stages.{shown_stage};
ghost use Rattle.run_parts.specs.Shown.{stage_of};

use crate::answers::Attempt;
use crate::run::Core;
use lent_columns::lines::busy_column;
use run_lists::holders::busy_lock;
use run_lists::sources::{is_cancelled, least_left};
use run_parts::{Progress, Stage, Thing};
use run_state::laws::{claim_keeps_sound, out_conflict_only_exempt};

/// What is found of a line that is to be taken.
#[derive(Clone, Copy)]
pub(crate) enum Finding {
    Over(Stage),
    Never,
    NotYet(u32),
    Cancelled,
    Busy(Thing),
    Free,
}

impl<'g> Core<'g> {
    ghost use Rattle.std.specs.Prelude.{◌≡◌, ◌≢◌, ℕ, ◌<◌, length};
    ghost use Rattle.run_core.specs.Core.{slots_given};
    ghost use Rattle.run_lists.specs.Sources.{IsLeastLeft};
    ghost use Rattle.run_core.specs.Steps.{Attempts, StandsBy};
    ghost use Rattle.run_core.specs.Findings.{IsFound};
    ghost use Rattle.run_core.specs.Works.{KeepsWork};
    ghost use Rattle.run_core.specs.WhatIsOut.{OutAfter, TakenConflictsOnlyExempt};
    ghost use Rattle.graph_terms.specs.Graph.{never_comes};

    /// Tries to take a line. What is answered is the first that holds of the answers in the order of
    /// their enum's documentation. A line that is taken conflicts with none that is out, but where both
    /// reduce and are exempt. NotYet also places the line on the handle of its source, where
    /// that is issued and the line's waiter is free; it isn't free while it is placed, or caught and
    /// not yet given by `next_woken`.
    pub fn attempt(&mut self, i: u32) -> Attempt
        requires { i < length self.old.graph.lines }
        ensures answer { Attempts self.old self.new i result }
        ensures works { (k : ℕ) → KeepsWork self.old self.new k }
        ensures out { OutAfter self.old self.new result }
        ensures conflicts { TakenConflictsOnlyExempt self.old result }
        ensures slots { slots_given self.new ≡ slots_given self.old }
    {
        out_conflict_only_exempt();
        claim_keeps_sound();
        self.is_sound();
        match self.finding(i) {
            Finding::Over(stage) => Attempt::Over(stage),
            Finding::Never => Attempt::Never,
            Finding::NotYet(source) => {
                self.stand_by(i, source);
                Attempt::NotYet(source)
            }
            Finding::Cancelled => Attempt::Taken(self.claim(i)),
            Finding::Busy(thing) => Attempt::Busy(thing),
            Finding::Free => Attempt::Taken(self.take(i)),
        }
    }

    /// What is found of a line.
    fn finding(&self, i: u32) -> Finding
        requires { i < length self.now.graph.lines }
        ensures { IsFound self.now i result }
    {
        let graph = self.checked.graph();
        let _ = graph.lines();
        let progress = self.stages[i as usize];
        let Progress::Issued = progress else {
            return Finding::Over(stage_of(progress));
        };
        if graph.never_comes(i) {
            return Finding::Never;
        }
        if let Some(source) = least_left(graph, i, self.stages.as_slice()) {
            return Finding::NotYet(source);
        }
        if is_cancelled(graph, i, self.stages.as_slice()) {
            return Finding::Cancelled;
        }
        if let Some(lock) = busy_lock(graph, i, &self.holders) {
            return Finding::Busy(Thing::Lock(lock));
        }
        match busy_column(graph, i, &self.columns.homes) {
            Some(column) => Finding::Busy(Thing::Column(column)),
            None => Finding::Free,
        }
    }
}

/// How far a line has come.
fn stage_of(progress: Progress) -> Stage
    ensures { result ≡ stage_of (shown_stage progress) }
{
    match progress {
        Progress::Unissued => Stage::Unissued,
        Progress::Issued => Stage::Issued,
        Progress::Out => Stage::Out,
        Progress::Ended(_) => Stage::Ended,
    }
}
