//! Lines are taken.

use crate::run::Core;
use crate::work::Work;
use index_spaces::held::Held;
use run_lists::columns::take_columns;
use run_lists::holders::hold;
use run_parts::Progress;
use run_state::laws::{claim_of_cancelled_keeps_sharing, take_keeps_sharing};

impl<'g> Core<'g> {
    ghost use Rattle.std.specs.Prelude.{◌≡◌, ℕ, ◌<◌, true, false, length};
    ghost use Rattle.run_state.specs.Quiet.{kept_cancels};
    ghost use Rattle.run_lists.specs.Sources.{IsLeastLeft};
    ghost use Rattle.run_lists.specs.Holders.{HasLock};
    ghost use Rattle.run_core.specs.Steps.{Takes, StandsBy, IsDue, HasColumns};
    ghost use Rattle.run_core.specs.Works.{KeepsWork};

    /// Places a line on the handle of the least source that it waits for.
    pub(crate) fn stand_by(&mut self, i: u32, source: u32)
        requires line { i < length self.old.graph.lines }
        requires waits { IsLeastLeft self.old.graph self.old.run.stages i source }
        ensures placed { StandsBy self.old self.new i source }
        ensures works { (k : ℕ) → KeepsWork self.old self.new k }
    {
        self.events.stand_by(i, source);
    }

    /// Takes a line that is cancelled, which needs nothing.
    pub(crate) fn claim(&mut self, i: u32) -> Work
        requires due { IsDue self.old.graph self.old.run i }
        requires cancelled { kept_cancels self.old.graph self.old.run.stages i ≡ true }
        ensures line { result.line ≡ i }
        ensures taken { Takes self.old self.new result }
        ensures works { (k : ℕ) → KeepsWork self.old self.new k }
    {
        claim_of_cancelled_keeps_sharing();
        self.stages[i as usize] = Progress::Out;
        Work::of(i, true, Held::none())
    }

    /// Takes a line with its columns, or shares of them, and its reservation.
    pub(crate) fn take(&mut self, i: u32) -> Work
        requires due { IsDue self.old.graph self.old.run i }
        requires runs { kept_cancels self.old.graph self.old.run.stages i ≡ false }
        requires lock { HasLock self.old.graph self.old.run.holders i }
        requires columns { HasColumns self.old.graph self.old.run i }
        ensures line { result.line ≡ i }
        ensures taken { Takes self.old self.new result }
        ensures works { (k : ℕ) → KeepsWork self.old self.new k }
    {
        take_keeps_sharing();
        let graph = self.checked.graph();
        let _ = graph.lines();
        self.stages[i as usize] = Progress::Out;
        hold(graph, i, &mut self.holders);
        let held = take_columns(graph, i, &mut self.columns);
        Work::of(i, false, held)
    }
}
