//! Turns at the lock.

ghost use Rattle.std.specs.Prelude.{◌≡◌, ◌<◌, ℕ, [], ◌∷◌, Some, IfSome, IfNone};
ghost use Rattle.atomic_table.specs.Seated.{TableId};
ghost use Rattle.run_core.specs.Works.{KeepsWork};
ghost use Rattle.lock_engine.specs.Turns.{Call, IsTurn, line_taken};
ghost use Rattle.lock_engine.specs.Plays.{with_turn, with_line};
ghost use Rattle.lock_engine.specs.Seats.{IsWaiting, IsServing, IsResting, view_of};

use crate::kept_core::KeptCore;
use crate::plays::{Gives, Law, Takes};
use crate::sleepers::Sleepers;
use crate::view::View;
use atomic_table::{Badge, Seat, Shared};
use graph_model::graph::Graph;
use idle_workers::spin;
use std::sync::Wait;

/// How often a worker tries to take the turn before it sleeps.
const TRIES: u32 = 8;

/// A worker's place at the lock.
pub(crate) type LockSeat<'g> = Seat<Option<KeptCore<'g>>, View>;

/// The lock as workers share it.
pub(crate) type Lock<'g> = Shared<Option<KeptCore<'g>>, View, Graph, Law>;

/// Takes a place at the lock.
pub(crate) fn take_seat<'g>(badge: Badge<View>) -> LockSeat<'g>
    requires view { badge.views ≡ view_of badge ∷ [] }
    ensures waiting { (z : TableId) → IsResting z badge → IsWaiting z result }
    ensures view { result.me.0 ≡ view_of badge }
{
    badge.into_seat()
}

/// Leaves a place at the lock.
pub(crate) fn leave_seat<'g>(seat: LockSeat<'g>) -> Badge<View>
    requires hand { seat.me.1 ≡ [] }
    ensures resting { (z : TableId) → IsWaiting z seat.entry → IsResting z result }
    ensures view { view_of result ≡ seat.entry.me.0 }
{
    seat.into_badge()
}

/// Waits for the turn, and takes the core out. Before it sleeps it spins, since most turns are
/// shorter than falling asleep.
pub(crate) fn take_turn<'g, R: Wait>(
    rt: &R,
    lock: &Lock<'g>,
    sleepers: &Sleepers,
    seat: &mut LockSeat<'g>,
) -> KeptCore<'g>
    requires waiting { IsWaiting lock.now.table_id seat.old }
    ensures serving { IsServing lock.now.table_id seat.new }
    ensures view { seat.new.me.0 ≡ with_turn seat.old.me.0 result }
    ensures graph { result.graph ≡ seat.old.me.0.core.graph }
    ensures works { (i : ℕ) → seat.old.me.0.line ≡ Some i → KeepsWork seat.old.me.0.core result i }
{
    for _ in rt.forever() {
        if let Some(core) = try_often(lock, seat) {
            return core;
        }
        sleepers.enter();
        lock.park(rt, 0, 1);
        sleepers.leave();
    }
    unreachable!()
}

/// Takes the core out where nobody has the turn at one of several tries, between which it spins. None
/// comes where somebody has it at each.
fn try_often<'g>(lock: &Lock<'g>, seat: &mut LockSeat<'g>) -> Option<KeptCore<'g>>
    requires waiting { IsWaiting lock.now.table_id seat.old }
    ensures some { IfSome result (λ c. IsServing lock.now.table_id seat.new × (seat.new.me.0 ≡ with_turn seat.old.me.0 c)) }
    ensures graph { IfSome result (λ c. c.graph ≡ seat.old.me.0.core.graph) }
    ensures works { IfSome result (λ c. (i : ℕ) → seat.old.me.0.line ≡ Some i → KeepsWork seat.old.me.0.core c i) }
    ensures none { IfNone result ((seat.new.table_id ≡ seat.old.table_id) × (seat.new.me ≡ seat.old.me)) }
{
    for _try in 0..TRIES {
        if let Some(core) = try_turn(lock, seat) {
            return Some(core);
        }
        spin();
    }
    None
}

/// Takes the core out where nobody has the turn. None comes where somebody has it.
fn try_turn<'g>(lock: &Lock<'g>, seat: &mut LockSeat<'g>) -> Option<KeptCore<'g>>
    requires waiting { IsWaiting lock.now.table_id seat.old }
    ensures some { IfSome result (λ c. IsServing lock.now.table_id seat.new × (seat.new.me.0 ≡ with_turn seat.old.me.0 c)) }
    ensures graph { IfSome result (λ c. c.graph ≡ seat.old.me.0.core.graph) }
    ensures works { IfSome result (λ c. (i : ℕ) → seat.old.me.0.line ≡ Some i → KeepsWork seat.old.me.0.core c i) }
    ensures none { IfNone result ((seat.new.table_id ≡ seat.old.table_id) × (seat.new.me ≡ seat.old.me)) }
{
    if lock.compare_exchange::<Takes>(seat, 0, 0, 1) == 0 {
        lock.exchange(seat, 0, None)
    } else {
        None
    }
}

/// Puts the core back, on which one call was made since it was taken out, and gives the turn to
/// somebody else.
pub(crate) fn give_turn<'g>(
    lock: &Lock<'g>,
    sleepers: &Sleepers,
    seat: &mut LockSeat<'g>,
    core: KeptCore<'g>,
)
    requires serving { IsServing lock.now.table_id seat.old }
    requires turn { (call : Call) × IsTurn seat.old.me.0.core seat.old.me.0.line call core }
    ensures waiting { IsWaiting lock.now.table_id seat.new }
    ensures view { (call : Call) → IsTurn seat.old.me.0.core seat.old.me.0.line call core.entry
        → seat.new.me.0 ≡ with_line seat.old.me.0 core.entry (line_taken call) }
{
    lock.exchange(seat, 0, Some(core));
    lock.store::<Gives>(seat, 0, 0);
    wake_sleeper(lock, sleepers);
}

/// Wakes a worker that sleeps at the lock, where one may.
fn wake_sleeper<'g>(lock: &Lock<'g>, sleepers: &Sleepers)
    requires { 0 < lock.now.table_id.words }
{
    if sleepers.has_some() {
        lock.wake_one(0);
    }
}
