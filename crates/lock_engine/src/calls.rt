//! The four turns: in each, one call of the core is made. Nothing else is done between taking the core
//! out and putting it back, so a turn is one event to the other workers.

ghost use Rattle.std.specs.Prelude.{◌≡◌, ◌<◌, None, Some, IfSome, length};
ghost use Rattle.lock_engine.specs.Turns.{work_in};
ghost use Rattle.lock_engine.specs.Seats.{IsWaiting, IsIdle, KeepsPlace, HasWork, HasDone, IsIssuedOf};

use crate::lock::{Lock, LockSeat, give_turn, take_turn};
use crate::sleepers::Sleepers;
use run_core::{Attempt, Finished, Issue};
use std::sync::Wait;

/// Puts the line of the seat back.
pub(crate) fn put_back<'g, R: Wait>(
    rt: &R,
    lock: &Lock<'g>,
    sleepers: &Sleepers,
    seat: &mut LockSeat<'g>,
    finished: Finished,
)
    requires waiting { IsWaiting lock.now.table_id seat.old }
    requires done { HasDone seat.old.me.0 (Some finished) }
    ensures place { KeepsPlace lock.now.table_id seat.old seat.new }
    ensures idle { seat.new.me.0.line ≡ None }
{
    let mut core = take_turn(rt, lock, sleepers, seat);
    core.inner.put_back(finished);
    give_turn(lock, sleepers, seat, core);
}

/// Issues a line.
pub(crate) fn issue<'g, R: Wait>(
    rt: &R,
    lock: &Lock<'g>,
    sleepers: &Sleepers,
    seat: &mut LockSeat<'g>,
) -> Issue
    requires idle { IsIdle lock.now.table_id seat.old }
    ensures place { KeepsPlace lock.now.table_id seat.old seat.new }
    ensures idle { seat.new.me.0.line ≡ None }
    ensures issued { IsIssuedOf seat.old.me.0.core.graph result }
{
    let mut core = take_turn(rt, lock, sleepers, seat);
    let answer = core.inner.issue();
    give_turn(lock, sleepers, seat, core);
    answer
}

/// Tries to take a line.
pub(crate) fn attempt<'g, R: Wait>(
    rt: &R,
    lock: &Lock<'g>,
    sleepers: &Sleepers,
    seat: &mut LockSeat<'g>,
    line: u32,
) -> Attempt
    requires idle { IsIdle lock.now.table_id seat.old }
    requires line { line < length seat.old.me.0.core.graph.lines }
    ensures place { KeepsPlace lock.now.table_id seat.old seat.new }
    ensures work { HasWork seat.new.me.0 (work_in result) }
{
    let mut core = take_turn(rt, lock, sleepers, seat);
    let answer = core.inner.attempt(line);
    core.inner.is_sound();
    give_turn(lock, sleepers, seat, core);
    answer
}

/// A line that was woken. None comes where none is left.
pub(crate) fn next_woken<'g, R: Wait>(
    rt: &R,
    lock: &Lock<'g>,
    sleepers: &Sleepers,
    seat: &mut LockSeat<'g>,
) -> Option<u32>
    requires idle { IsIdle lock.now.table_id seat.old }
    ensures place { KeepsPlace lock.now.table_id seat.old seat.new }
    ensures idle { seat.new.me.0.line ≡ None }
    ensures line { IfSome result (λ i. i < length seat.old.me.0.core.graph.lines) }
{
    let mut core = take_turn(rt, lock, sleepers, seat);
    let woken = core.inner.next_woken();
    give_turn(lock, sleepers, seat, core);
    woken
}
