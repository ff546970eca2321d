//! Workers, which share the lines of a run.

ghost use Rattle.std.specs.Prelude.{◌≡◌, ◌+◌, ◌<◌, None};
ghost use Rattle.std.specs.Thread.{IsSync};
ghost use Rattle.atomic_table.specs.Seated.{TableId};
ghost use Rattle.lock_engine.specs.Seats.{IsResting, IsWaiting, view_of};

use crate::lock::{Lock, leave_seat, take_seat};
use crate::next_line::next_line;
use crate::notes::Notes;
use crate::plays::{Cuts, Joins};
use crate::search::Search;
use crate::view::View;
use atomic_table::Badge;
use graph_model::graph::Graph;
use realm_io::Gate;
use std::sync::Wait;
use std::thread::{Threads, join};

/// Where workers take turns. It hides the lifetime of the core, since a closure that captures a type
/// with a lifetime of its own tells `join` nothing.
pub(crate) trait SharedLock: Sync {
    // Which table it is.
    ghost name: { Self → TableId };

    /// One worker: takes lines and performs them until it finds none and no other worker has one.
    fn work<R: Wait, G: Gate>(
        &self,
        rt: &R,
        graph: &Graph,
        gate: &G,
        notes: &Notes,
        badge: Badge<View>,
    ) -> Badge<View>
        requires resting { IsResting (name self.now) badge }
        requires idle { (view_of badge).line ≡ None }
        requires graph { (view_of badge).core.graph ≡ graph.now }
        ensures resting { IsResting (name self.now) result }
        ensures idle { (view_of result).line ≡ None }
        ensures parts { (view_of result).parts ≡ (view_of badge).parts };

    /// Cuts one part off.
    fn cut(&self, badge: Badge<View>) -> (Badge<View>, Badge<View>)
        requires resting { IsResting (name self.now) badge }
        requires idle { (view_of badge).line ≡ None }
        requires enough { 1 < (view_of badge).parts }
        ensures resting { IsResting (name self.now) result.0 × IsResting (name self.now) result.1 }
        ensures idle { ((view_of result.0).line ≡ None) × ((view_of result.1).line ≡ None) }
        ensures graph { ((view_of result.0).core.graph ≡ (view_of badge).core.graph)
            × ((view_of result.1).core.graph ≡ (view_of badge).core.graph) }
        ensures parts { ((view_of result.0).parts ≡ 1) × ((view_of result.1).parts + 1 ≡ (view_of badge).parts) };

    /// Puts two together.
    fn joined(&self, first: Badge<View>, rest: Badge<View>) -> Badge<View>
        requires resting { IsResting (name self.now) first × IsResting (name self.now) rest }
        requires idle { ((view_of first).line ≡ None) × ((view_of rest).line ≡ None) }
        ensures resting { IsResting (name self.now) result }
        ensures idle { (view_of result).line ≡ None }
        ensures parts { (view_of result).parts ≡ (view_of first).parts + (view_of rest).parts };
}

impl<'g> SharedLock for Lock<'g> {
    ghost name = { λ lock. lock.table_id };

    fn work<R: Wait, G: Gate>(
        &self,
        rt: &R,
        graph: &Graph,
        gate: &G,
        notes: &Notes,
        badge: Badge<View>,
    ) -> Badge<View> {
        notes.waiting.enter();
        let mut seat = take_seat(badge);
        let mut search = Search::new();
        let mut done = None;
        for _turn in rt.forever() {
            let Some(work) = next_line(rt, self, &mut seat, graph, notes, &mut search, done) else {
                return leave_seat(seat);
            };
            gate.pass(rt, work.line());
            done = Some(work.perform(graph));
        }
        unreachable!()
    }

    fn cut(&self, badge: Badge<View>) -> (Badge<View>, Badge<View>) {
        cut(self, badge)
    }

    fn joined(&self, first: Badge<View>, rest: Badge<View>) -> Badge<View> {
        joined(self, first, rest)
    }
}

/// Runs so many workers, and waits for all of them.
pub(crate) fn run_workers<R: Threads + Wait + Sync, P: SharedLock, G: Gate>(
    rt: &R,
    place: &P,
    graph: &Graph,
    gate: &G,
    notes: &Notes,
    badge: Badge<View>,
    workers: u32,
) -> Badge<View>
    requires resting { IsResting (P.name place.now) badge }
    requires idle { (view_of badge).line ≡ None }
    requires graph { (view_of badge).core.graph ≡ graph.now }
    requires enough { workers < (view_of badge).parts }
    ensures resting { IsResting (P.name place.now) result }
    ensures idle { (view_of result).line ≡ None }
    ensures parts { (view_of result).parts ≡ (view_of badge).parts }
{
    if workers == 0 {
        return badge;
    }
    if workers == 1 {
        return place.work(rt, graph, gate, notes, badge);
    }
    let (first, rest) = place.cut(badge);
    let (first, rest) = join(
        rt,
        || -> Badge<View>
            requires { IsResting (P.name place.now) first × ((view_of first).line ≡ None) × ((view_of first).core.graph ≡ graph.now) }
            ensures { IsResting (P.name place.entry.now) result × ((view_of result).line ≡ None)
                × ((view_of result).parts ≡ (view_of first).parts) }
        { place.work(rt, graph, gate, notes, first) },
        || -> Badge<View>
            requires { IsSync R.row × IsResting (P.name place.now) rest × ((view_of rest).line ≡ None)
                × ((view_of rest).core.graph ≡ graph.now) × (1 < workers) × (workers < (view_of rest).parts + 1) }
            ensures { IsResting (P.name place.entry.now) result × ((view_of result).line ≡ None)
                × ((view_of result).parts ≡ (view_of rest).parts) }
        { run_workers(rt, place, graph, gate, notes, rest, workers - 1) },
    );
    place.joined(first, rest)
}

/// Cuts one part off.
fn cut<'g>(lock: &Lock<'g>, badge: Badge<View>) -> (Badge<View>, Badge<View>)
    requires resting { IsResting lock.now.table_id badge }
    requires idle { (view_of badge).line ≡ None }
    requires enough { 1 < (view_of badge).parts }
    ensures resting { IsResting lock.now.table_id result.0 × IsResting lock.now.table_id result.1 }
    ensures idle { ((view_of result.0).line ≡ None) × ((view_of result.1).line ≡ None) }
    ensures graph { ((view_of result.0).core.graph ≡ (view_of badge).core.graph)
        × ((view_of result.1).core.graph ≡ (view_of badge).core.graph) }
    ensures parts { ((view_of result.0).parts ≡ 1) × ((view_of result.1).parts + 1 ≡ (view_of badge).parts) }
{
    let mut seat = take_seat(badge);
    let other = lock.split_seat::<Cuts>(&mut seat);
    (leave_seat(other), leave_seat(seat))
}

/// Puts two together.
fn joined<'g>(lock: &Lock<'g>, first: Badge<View>, rest: Badge<View>) -> Badge<View>
    requires resting { IsResting lock.now.table_id first × IsResting lock.now.table_id rest }
    requires idle { ((view_of first).line ≡ None) × ((view_of rest).line ≡ None) }
    ensures resting { IsResting lock.now.table_id result }
    ensures idle { (view_of result).line ≡ None }
    ensures parts { (view_of result).parts ≡ (view_of first).parts + (view_of rest).parts }
{
    let mut seat = take_seat(first);
    let other = take_seat(rest);
    lock.join_seat::<Joins>(&mut seat, other);
    leave_seat(seat)
}
