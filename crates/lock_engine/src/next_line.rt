//! The next line of a worker, for which it waits where it finds none.

ghost use Rattle.std.specs.Prelude.{◌≡◌};
ghost use Rattle.lock_engine.specs.Seats.{IsWaiting, IsIdle, KeepsPlace, HasWork, HasDone};

use crate::lock::{Lock, LockSeat};
use crate::notes::Notes;
use crate::search::{Search, find, give_back};
use graph_model::graph::Graph;
use idle_workers::spin;
use run_core::{Finished, Work};
use std::sync::Wait;

/// Puts a line back, where there is one, and takes another. None comes where none is found and no
/// other worker looks for one or has one.
pub(crate) fn next_line<'g, R: Wait>(
    rt: &R,
    lock: &Lock<'g>,
    seat: &mut LockSeat<'g>,
    graph: &Graph,
    notes: &Notes,
    search: &mut Search,
    done: Option<Finished>,
) -> Option<Work>
    requires waiting { IsWaiting lock.now.table_id seat.old }
    requires graph { seat.old.me.0.core.graph ≡ graph.now }
    requires done { HasDone seat.old.me.0 done }
    ensures place { KeepsPlace lock.now.table_id seat.old seat.new }
    ensures work { HasWork seat.new.me.0 result }
{
    let before = line_of(&done);
    give_back(rt, lock, seat, notes, done);
    if let Some(work) = find(rt, lock, seat, graph, notes, search) {
        if may_let_more_run(graph, before, work.line()) {
            notes.waiting.tell();
        }
        return Some(work);
    }
    wait_for_line(rt, lock, seat, graph, notes, search)
}

/// Looks for a line, and sleeps after each look in vain. Where it finds one, there may be more.
fn wait_for_line<'g, R: Wait>(
    rt: &R,
    lock: &Lock<'g>,
    seat: &mut LockSeat<'g>,
    graph: &Graph,
    notes: &Notes,
    search: &mut Search,
) -> Option<Work>
    requires idle { IsIdle lock.now.table_id seat.old }
    requires graph { seat.old.me.0.core.graph ≡ graph.now }
    ensures place { KeepsPlace lock.now.table_id seat.old seat.new }
    ensures work { HasWork seat.new.me.0 result }
{
    for _look in rt.forever() {
        spin();
        let seen = notes.waiting.announce();
        if let Some(work) = find(rt, lock, seat, graph, notes, search) {
            notes.waiting.withdraw();
            notes.waiting.tell();
            return Some(work);
        }
        if !notes.waiting.sleep(rt, seen) {
            return None;
        }
    }
    unreachable!()
}

/// The line that is put back.
fn line_of(done: &Option<Finished>) -> Option<u32> {
    match done {
        Some(finished) => Some(finished.line()),
        None => None,
    }
}

/// Whether more lines may run than the one that was taken, by the line that was put back before it:
/// where another line waited for that one, and where none was put back.
fn may_let_more_run(graph: &Graph, before: Option<u32>, taken: u32) -> bool {
    match before {
        Some(line) if line < graph.lines() => {
            graph.edges_from(line).iter().any(|edge| edge.to != taken)
        }
        _ => true,
    }
}
