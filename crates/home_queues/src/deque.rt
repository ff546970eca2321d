//! One deque: its owner, and who may steal from it.
ghost use Rattle.std.specs.Prelude.{◌≡◌, ◌+◌, ◌-◌, ◌<◌, ◌≤◌, ◌^◌, ◌⊎◌, IfOk, IfSome, MatchOption, true, false, [], ◌∷◌, length};
ghost use Rattle.crossbeam_deque.specs.Handles.{IsPassOf, SameWorker, worker_deque, stealer_deque, worker_flavor, worker_view, worker_capacity, worker_index, view};
ghost use Rattle.home_queues.specs.Room.{room_for};
ghost use Rattle.home_queues.specs.DequeRule.{first_view, with_lines, without_share, one_share, joined, with_put, with_taken, SawEmpty, IsDrained};

use crate::deque_rule::{Bound, Cuts, DequeRule, Drains, Joins, Puts, SetsBound, Steals, Takes};
use crate::deque_view::DequeView;
use crossbeam_deque::{Pass, Steal, Stealer, Worker};
use std::alloc::{AllocError, Global};
use std::marker::Brand;

/// The owner of a deque.
pub(crate) type Owner = Worker<u32, Global, DequeView, DequeRule>;

/// The right to steal from a deque.
#[derive(Drop)]
pub(crate) struct StealRight {
    pub(crate) stealer: Stealer<u32, Global, DequeView, DequeRule>,
    pub(crate) pass: Pass<u32, DequeView>,
}

/// The least room of a deque.
const LEAST_ROOM: u64 = 64;

/// The most room of a deque. Its pages are touched as it is made, so that it costs time where it is not used.
const MOST_ROOM: u64 = 1_024;

/// For how many hints each deque has room: one for each number below the bound, but not fewer than 64 and
/// not more than 1,024, several times as many as the lines that a worker has issued ahead.
pub(crate) fn room_for(lines: u32) -> u64
    ensures { result ≡ room_for lines }
{
    (lines as u64).max(LEAST_ROOM).min(MOST_ROOM)
}

/// A deque for the numbers below `lines`, whose owner has all shares in it.
pub(crate) fn new_owner(alloc: Global, lines: u32) -> Result<Owner, AllocError>
    requires { 0 < lines }
    ensures capacity { IfOk result (λ w. room_for lines ≤ worker_capacity w) }
    ensures new { IfOk result (λ w. (worker_flavor w ≡ 0) × (worker_index w ≡ 0)
        × (worker_view w ≡ with_lines lines first_view)) }
{
    let mut owner = Owner::fifo_as(alloc, room_for(lines) as usize)?;
    set_bound::<Brand>(&mut owner, lines);
    Ok(owner)
}

/// Tells the owner the bound. Nothing is done when the program runs.
fn set_bound<B: Bound>(owner: &mut Owner, lines: u32)
    requires first { worker_view owner.old ≡ first_view }
    requires bound { (B.lines ≡ lines) × (0 < lines) }
    ensures same { SameWorker owner.old owner.new × (worker_index owner.new ≡ worker_index owner.old) }
    ensures set { worker_view owner.new ≡ with_lines lines first_view }
{
    let _bound = lines;
    drop(owner.another::<SetsBound<B>>());
}

/// A right to steal from this deque, for which the owner gives one of its shares.
pub(crate) fn new_right(owner: &mut Owner) -> Result<StealRight, AllocError>
    requires { (0 < (worker_view owner.old).lines) × (1 < (worker_view owner.old).shares) }
    ensures same { SameWorker owner.old owner.new × (worker_index owner.new ≡ worker_index owner.old) }
    ensures cut { IfOk result (λ _. worker_view owner.new ≡ without_share (worker_view owner.old)) }
    ensures at { IfOk result (λ r. (stealer_deque r.stealer ≡ worker_deque owner.old)
        × IsPassOf (stealer_deque r.stealer) r.pass) }
    ensures share { IfOk result (λ r. view r.pass ≡ one_share (worker_view owner.old)) }
{
    let stealer = owner.stealer()?;
    let pass = owner.another::<Cuts>();
    Ok(StealRight { stealer, pass })
}

/// Puts a number in at the back. False where no free slot was found, which is only so once the owner has
/// put in as many as there is room for.
pub(crate) fn put(owner: &mut Owner, line: u32) -> bool
    requires below { (line < (worker_view owner.old).lines) × (0 < (worker_view owner.old).shares) }
    ensures same { SameWorker owner.old owner.new }
    ensures put { result ≡ true → (worker_view owner.new ≡ with_put (worker_view owner.old) (line ∷ []))
        × (worker_index owner.new ≡ worker_index owner.old + 1) }
    ensures full { result ≡ false → (worker_view owner.new ≡ worker_view owner.old)
        × (worker_index owner.new ≡ worker_index owner.old) × (worker_capacity owner.old ≤ worker_index owner.old) }
{
    match owner.push_as::<Puts>(line) {
        Ok(()) => true,
        Err(_) => false,
    }
}

/// Takes the number at the front, or none where the deque was found empty.
pub(crate) fn take(owner: &mut Owner) -> Option<u32>
    requires fifo { worker_flavor owner.old ≡ 0 }
    requires share { 0 < (worker_view owner.old).shares }
    ensures same { SameWorker owner.old owner.new × (worker_index owner.new ≤ worker_index owner.old) }
    ensures taken { MatchOption result
        ((worker_view owner.new ≡ worker_view owner.old) × SawEmpty (worker_view owner.old))
        (λ x. (worker_view owner.new ≡ with_taken (worker_view owner.old) (x ∷ []))
        × (x < (worker_view owner.old).lines)) }
{
    owner.pop_as::<Takes>()
}

/// Tries once to steal the number at the front. None also where another was faster.
pub(crate) fn steal(right: &mut StealRight) -> Option<u32>
    requires at { IsPassOf (stealer_deque right.old.stealer) right.old.pass }
    requires share { 0 < (view right.old.pass).shares }
    ensures same { (right.new.stealer ≡ right.old.stealer)
        × IsPassOf (stealer_deque right.old.stealer) right.new.pass }
    ensures taken { MatchOption result (view right.new.pass ≡ view right.old.pass)
        (λ x. (view right.new.pass ≡ with_taken (view right.old.pass) (x ∷ []))
        × (x < (view right.old.pass).lines)) }
{
    match right.stealer.steal_as::<Steals>(&mut right.pass) {
        Steal::Success(line) => Some(line),
        Steal::Empty => None,
        Steal::Retry => None,
    }
}

/// Gives the owner back the share of a right to steal, with all that was stolen by it.
pub(crate) fn give_back(owner: &mut Owner, right: StealRight)
    requires at { IsPassOf (worker_deque owner.old) right.pass }
    requires share { 0 < (worker_view owner.old).shares }
    ensures same { SameWorker owner.old owner.new × (worker_index owner.new ≡ worker_index owner.old) }
    ensures joined { worker_view owner.new ≡ joined (worker_view owner.old) (view right.pass) }
{
    let StealRight { stealer: _, pass } = right;
    owner.absorb::<Joins>(pass);
}

/// Takes the number at the front, where the owner has all shares: once it gives none, none is left.
pub(crate) fn take_last(owner: &mut Owner) -> Option<u32>
    requires fifo { worker_flavor owner.old ≡ 0 }
    requires all { (worker_view owner.old).shares ≡ 9 }
    ensures same { SameWorker owner.old owner.new × (worker_index owner.new ≤ worker_index owner.old) }
    ensures taken { MatchOption result
        ((worker_view owner.new ≡ worker_view owner.old) × IsDrained (worker_view owner.old))
        (λ x. (worker_view owner.new ≡ with_taken (worker_view owner.old) (x ∷ []))
        × (x < (worker_view owner.old).lines)) }
    ensures bound { IfSome result
        (λ x. length (worker_view owner.new).taken ≤ length (worker_view owner.new).put) }
{
    owner.pop_as::<Drains>()
}
