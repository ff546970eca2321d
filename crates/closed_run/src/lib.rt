//! The core of a run in the state in which its words were closed.
#![tactic(auto)]

ghost use Rattle.std.specs.Prelude.{◌≡◌, ◌↔◌, ◌⊎◌, ℕ, List, [], Some, true, false};
ghost use Rattle.graph_terms.specs.declared.outcome.End.{End as TheEnd};
ghost use Rattle.run_state.specs.Run.{Ended, stage_at, time_at, issued};
ghost use Rattle.event_table.specs.declared.handle.Fate.{Fate as TheFate};
ghost use Rattle.event_table.specs.declared.handle.Handle.{Handle as TheHandle};
ghost use Rattle.event_table.specs.EventMap.{answer, answer_of};
ghost use Rattle.shared_events.specs.Seats.{Begins, Knows};
ghost use Rattle.shared_events.specs.Views.{lists, shape_of};
ghost use Rattle.run_core.specs.Core.{slots_given};
ghost use Rattle.run_core.specs.Finishing.{NothingOut};
ghost use Rattle.run_words.specs.Words.{graph_of, events_of, events_seat, IsAt, HasAll, KnowsIssued, KnowsEnded, KnowsTime, KnowsHandles};

use run_core::Core;
use run_words::{WordSeat, Words};

/// The core in the state of the run, once every seat that was split off was joined into this one,
/// those of works among them, so that no work is out. What is issued there, what has ended, when, and
/// the handles are what the seat knows, no more and no less. What is not done yet may go on there. It
/// takes no memory.
pub fn core_of<'g>(words: Words<'g>, seat: WordSeat) -> Core<'g>
    requires at { IsAt words seat }
    requires all { HasAll seat }
    ensures graph { result.graph ≡ graph_of words.entry }
    ensures unhosted { result.hosted ≡ false }
    ensures slots { slots_given result ≡ (shape_of (events_of words.entry)).slots }
    ensures nothing_out { NothingOut result }
    ensures issued { (i : ℕ) → KnowsIssued seat i ↔ (issued result.run.stages i ≡ true) }
    ensures ended { (i : ℕ) (x : TheEnd) → KnowsEnded seat i x ↔ (stage_at result.run.stages i ≡ Ended x) }
    ensures times { (i t : ℕ) → KnowsTime seat i t ↔ (time_at result.run.times i ≡ Some t) }
    ensures handles { (hs : List TheHandle) → KnowsHandles seat hs → Begins hs result.handles }
    ensures all_handles { (result.handles ≡ []) ⊎ KnowsHandles seat result.handles }
    ensures fates { (h : TheHandle) (f : TheFate) → Knows (lists (events_seat seat)) h f
        → answer result.table h ≡ Some (answer_of f) }
{
    let parts = words.close(seat);
    Core::of_parts(parts)
}
