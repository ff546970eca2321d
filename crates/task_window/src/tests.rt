//! A window beside a plain look at all tasks.

ghost use Rattle.std.specs.Prelude.{◌+◌, ◌<◌, ◌≤◌};

use crate::window::TaskWindow;
use std::alloc::Global;
use std::test::Fail;
use task_order::access::Access;
use task_order::status::Status;

/// A task, as the plain look keeps it.
#[derive(Clone, Copy, Drop)]
struct Plain {
    first: Access,
    second: Access,
    status: Status,
}

/// A window, and the same tasks for the plain look.
#[derive(Drop)]
struct Trial {
    window: TaskWindow,
    plain: Vec<Plain>,
    seed: u64,
}

fn meets(a: Access, b: Access) -> bool {
    let end = a
        .first
        .saturating_add(a.count)
        .min(b.first.saturating_add(b.count));
    (a.writes || b.writes) && a.count > 0 && b.count > 0 && a.first.max(b.first) < end
}

fn depends(a: Plain, b: Plain) -> bool {
    meets(a.first, b.first)
        || meets(a.first, b.second)
        || meets(a.second, b.first)
        || meets(a.second, b.second)
}

fn is_over(status: Status) -> bool {
    matches!(status, Status::Done | Status::Faulted | Status::Cancelled)
}

fn is_lost(status: Status) -> bool {
    matches!(status, Status::Faulted | Status::Cancelled)
}

/// Whether a task may start, and whether it is cancelled then.
fn look(tasks: &[Plain], task: usize) -> (bool, bool) {
    let Some(at) = tasks.get(task) else {
        return (false, false);
    };
    let mut due = matches!(at.status, Status::Waiting);
    let mut cancelled = false;
    for (i, old) in tasks.iter().enumerate() {
        if i < task && depends(*old, *at) {
            due &= is_over(old.status);
            cancelled |= is_lost(old.status);
        }
    }
    (due, cancelled)
}

fn is_some_due(tasks: &[Plain]) -> bool {
    for i in 0..tasks.len() {
        if look(tasks, i).0 {
            return true;
        }
    }
    false
}

/// The next of a row of numbers without a visible order.
fn next(seed: &mut u64, below: u64) -> u64
    requires { 0 < below }
    ensures { result < below }
{
    *seed = seed
        .wrapping_mul(6364136223846793005)
        .wrapping_add(1442695040888963407);
    (*seed >> 33) % below
}

fn access(seed: &mut u64) -> Access
    ensures { result.first + result.count < 9 }
{
    Access {
        first: next(seed, 6) as u32,
        count: next(seed, 4) as u32,
        writes: next(seed, 3) == 0,
    }
}

/// Adds nine pieces, of which some may be refused once.
fn adds_pieces(window: &mut TaskWindow) -> bool {
    for _ in 0..10 {
        let before = window.pieces();
        if before < 9 && window.add_pieces(9 - before) != Ok(before) && window.pieces() != before {
            return false;
        }
    }
    window.pieces() == 9
}

/// Inserts a task with two accesses. `NoMemory` changes nothing.
fn insert(trial: &mut Trial) -> bool {
    let first = access(&mut trial.seed);
    let second = access(&mut trial.seed);
    if trial.window.pieces() < 9 || trial.window.tasks() >= 60 {
        return true;
    }
    let Ok(number) = trial.window.insert(&[first, second]) else {
        return true;
    };
    let same = number as usize == trial.plain.len();
    let task = Plain {
        first,
        second,
        status: Status::Waiting,
    };
    trial.plain.push(task).is_ok() && same
}

/// Takes a task, and compares.
fn take(trial: &mut Trial) -> bool {
    let some = is_some_due(trial.plain.as_slice());
    let Some(taken) = trial.window.take() else {
        return !some;
    };
    let task = taken.task as usize;
    let same = look(trial.plain.as_slice(), task) == (true, taken.is_cancelled);
    if let Some(plain) = trial.plain.get_mut(task) {
        plain.status = if taken.is_cancelled {
            Status::Cancelled
        } else {
            Status::Running
        };
    }
    same
}

/// Ends a task, if it runs.
fn end(trial: &mut Trial) -> bool {
    let task = next(&mut trial.seed, 60) as u32;
    let failed = next(&mut trial.seed, 8) == 0;
    if task >= trial.window.tasks() {
        return true;
    }
    match trial.window.status(task) {
        Status::Running => trial.window.end(task, failed),
        _ => return true,
    }
    if let Some(plain) = trial.plain.get_mut(task as usize) {
        plain.status = if failed {
            Status::Faulted
        } else {
            Status::Done
        };
    }
    true
}

/// Whether all tasks have come as far in both.
fn agrees(trial: &Trial) -> bool {
    for task in 0..trial.window.tasks() {
        let status = trial.plain.get(task as usize).map(|t| t.status);
        if status != Some(trial.window.status(task)) {
            return false;
        }
    }
    let left = trial
        .plain
        .as_slice()
        .iter()
        .filter(|t| !is_over(t.status))
        .count();
    trial.window.left() as usize == left && trial.window.tasks() as usize == trial.plain.len()
}

#[test]
fn as_by_a_plain_look(rt: HostRuntime) {
    let alloc = rt.alloc();
    let mut window = TaskWindow::new(alloc);
    let plain = Vec::with_capacity(alloc, 60);
    assert!(rt; window.pieces() == 0);
    assert!(rt; adds_pieces(&mut window));
    let Ok(plain) = plain else {
        return;
    };
    let mut trial = Trial {
        window,
        plain,
        seed: 7,
    };
    for _ in 0..3000 {
        let done = match next(&mut trial.seed, 5) {
            0 | 1 => insert(&mut trial),
            2 | 3 => take(&mut trial),
            _ => end(&mut trial),
        };
        assert!(rt; done);
        assert!(rt; agrees(&trial));
        if trial.window.tasks() == 60 && trial.window.clear() {
            trial.plain.clear();
        }
    }
}
