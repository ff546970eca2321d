//! A run is brought to its end, where no body of a call is needed for that.

ghost use Rattle.std.specs.Prelude.{◌≡◌, ℕ, ◌<◌, ◌&&◌, not, true, false, length, IsSome, IfOk, ◌⊎◌, ◌≢◌, ◌↔◌};
ghost use Rattle.graph_terms.specs.Graph.{is_call, line_passes};
ghost use Rattle.graph_meaning.specs.Path.{Reached};
ghost use Rattle.explanations.specs.Reaches.{reach_at};
ghost use Rattle.run_state.specs.Run.{ended};
ghost use Rattle.run_core.specs.Finishing.{NothingOut};
ghost use Rattle.run_handles.specs.Ends.{IsCall, IsEvaluated, LeavesCall, LeavesNoCall, end_in, end_of};
ghost use Rattle.run_handles.specs.Runs.{lines_of};

use crate::calls::is_call;
use crate::run::Run;
use crate::token::Over;
use c_numbers::status::{CALLS_LEFT, DONE, NO_MEMORY, WORK_OUT};
use explanations::reaches::{Reach, reach_at, waiting_lines};
use graph_meaning::laws::waits_where_reached_for_all_effects;
use graph_terms::outcome::Outcome;
use index_spaces::NoMemory;
use run_core::{Core, Stage};
use std::alloc::Global;

impl Run {
    ghost use Rattle.std.specs.Prelude.{◌≡◌, ◌≢◌, ℕ, ◌<◌, ◌⊎◌};
    ghost use Rattle.std.specs.Arc.{arc_value};
    ghost use Rattle.run_core.specs.Finishing.{NothingOut};
    ghost use Rattle.run_handles.specs.Ends.{IsCall, LeavesCall, LeavesNoCall, end_in, end_of};
    ghost use Rattle.run_handles.specs.Runs.{lines_of};

    /// Whether the run may be brought to its end: 0; 17 where work is out; 26 where a call is left of which a body would be
    /// run; 7.
    pub(crate) fn may_end(self, alloc: Global) -> (Run, u32)
        ensures same { result.0 ≡ self }
        ensures may { result.1 ≡ 0 → NothingOut self × LeavesNoCall self }
        ensures out { result.1 ≡ WORK_OUT → 0 < (lines_of self).out }
        ensures nothing_out { NothingOut self → result.1 ≢ WORK_OUT }
        ensures left { result.1 ≡ CALLS_LEFT → LeavesCall self }
        ensures answers { (result.1 ≡ 0) ⊎ ((result.1 ≡ 7) ⊎ ((result.1 ≡ WORK_OUT) ⊎ (result.1 ≡ CALLS_LEFT))) }
    {
        let Run { graph, core } = self;
        let awake = core.wake(&graph);
        let status = end_misuse(alloc, &awake);
        let core = awake.rest();
        (Run { graph, core }, status)
    }

    /// What a run gives that is brought to its end on this thread. Each call ends as it has.
    pub(crate) fn end(self) -> Over
        requires nothing_out { NothingOut self }
        requires none_left { LeavesNoCall self }
        ensures graph { (arc_value result.graph).graph ≡ self.graph }
        ensures ends { (i : ℕ) → IsCall self.graph i → end_of result.found i ≡ end_in self i }
    {
        let Run { graph, core } = self;
        let found = given_by(core.wake(&graph));
        Over { graph, found }
    }
}

/// What keeps a core from being brought to its end, and 0 where nothing does.
fn end_misuse(alloc: Global, core: &Core<'_>) -> u32
    ensures may { result ≡ 0 → NothingOut core.now × LeavesNoCall core.now }
    ensures out { result ≡ WORK_OUT → 0 < (lines_of core.now).out }
    ensures nothing_out { NothingOut core.now → result ≢ WORK_OUT }
    ensures left { result ≡ CALLS_LEFT → LeavesCall core.now }
    ensures answers { (result ≡ 0) ⊎ ((result ≡ 7) ⊎ ((result ≡ WORK_OUT) ⊎ (result ≡ CALLS_LEFT))) }
{
    if core.lines_at(Stage::Out) != 0 {
        return WORK_OUT;
    }
    match leaves_call(alloc, core) {
        Ok(true) => CALLS_LEFT,
        Ok(false) => DONE,
        Err(_) => NO_MEMORY,
    }
}

/// Whether a call is left of which a body would be run.
fn leaves_call(alloc: Global, core: &Core<'_>) -> Result<bool, NoMemory>
    ensures yes { IfOk result (λ b. b ≡ true → LeavesCall core.now) }
    ensures no { IfOk result (λ b. b ≡ false → LeavesNoCall core.now) }
{
    if !has_unended_call(core) {
        return Ok(false);
    }
    let reaches = waiting_lines(alloc, core.graph())?;
    Ok(has_unreached_call(core, reaches.as_slice()))
}

/// Whether a call has not ended.
fn has_unended_call(core: &Core<'_>) -> bool
    ensures { result ≡ false → LeavesNoCall core.now }
{
    for line in 0..core.graph().lines() {
        if is_unended_call(core, line) {
            return true;
        }
    }
    false
}

/// Whether a call has not ended that no line reaches which never comes.
fn has_unreached_call(core: &Core<'_>, reaches: &[Option<Reach>]) -> bool
    requires exact { (i : ℕ) → i < length core.now.graph.lines → IsSome (reach_at reaches.now i) ↔ Reached core.now.graph i }
    ensures yes { result ≡ true → LeavesCall core.now }
    ensures no { result ≡ false → LeavesNoCall core.now }
{
    for line in 0..core.graph().lines() {
        if is_unended_call(core, line) && reach_at(reaches, line).is_none() {
            return true;
        }
    }
    false
}

/// Whether a line is a call that has not ended.
fn is_unended_call(core: &Core<'_>, line: u32) -> bool
    requires { line < length core.now.graph.lines }
    ensures { result ≡ line_passes is_call core.now.graph line && not (ended core.now.run.stages line) }
{
    is_call(core.graph(), line) && !core.has_ended(line)
}

/// What a core gives that is brought to its end.
fn given_by(mut core: Core<'_>) -> Outcome
    requires hosted { core.hosted ≡ true }
    requires nothing_out { NothingOut core }
    requires none_left { LeavesNoCall core }
    ensures evaluated { IsEvaluated core.entry.graph result }
    ensures ends { (i : ℕ) → IsCall core.entry.graph i → end_of result i ≡ end_in core.entry i }
{
    waits_where_reached_for_all_effects();
    core.is_sound();
    core.finish();
    core.is_sound();
    core.outcome()
}
