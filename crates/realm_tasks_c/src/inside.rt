//! What is done to the window that a handle holds.

ghost use Rattle.std.specs.Prelude.{◌≡◌, ◌↔◌, ◌<◌, IsTrue, Some, length};
ghost use Rattle.task_order.specs.declared.status.Status.TheVariants.{Running};
ghost use Rattle.task_window.specs.Waits.{status_at};
ghost use Rattle.realm_tasks_c.specs.Windows.{IfWindow, HoldsWindow, AddedBy, InsertedBy, TakenBy, EndedBy, StatusTold, ClearedBy, left_of};
ghost use Rattle.task_window.specs.Pieces.{AreWithin};

use crate::status::{DONE, EMPTY, NO_MEMORY, NONE, RANGE, WORK_OUT, status_number};
use crate::token::Token;
use task_order::access::Access;
use task_order::status::Status;
use task_window::window::TaskWindow;

/// How many tasks a window may have.
const MAX_TASKS: u32 = 1 << 31;

pub(crate) fn add_pieces_in(token: &mut Token, count: u32, first: &mut u32) -> u32
    ensures { IfWindow (Some token.old) (λ v. HoldsWindow (Some token.new) (λ w. AddedBy v w count result first.old first.new)) }
{
    match token {
        Token::Window(window) => add_pieces(window, count, first),
        Token::Empty => EMPTY,
    }
}

/// Adds pieces to a window.
fn add_pieces(window: &mut TaskWindow, count: u32, first: &mut u32) -> u32
    ensures { AddedBy window.old window.new count result first.old first.new }
{
    if count > u32::MAX - window.pieces() {
        return RANGE;
    }
    match window.add_pieces(count) {
        Ok(number) => {
            *first = number;
            DONE
        }
        Err(_) => NO_MEMORY,
    }
}

pub(crate) fn insert_in(token: &mut Token, accesses: &[Access], task: &mut u32) -> u32
    ensures { IfWindow (Some token.old) (λ v. HoldsWindow (Some token.new) (λ w. InsertedBy v w accesses.now result task.old task.new)) }
{
    match token {
        Token::Window(window) => insert(window, accesses, task),
        Token::Empty => EMPTY,
    }
}

/// Inserts a task into a window.
fn insert(window: &mut TaskWindow, accesses: &[Access], task: &mut u32) -> u32
    ensures { InsertedBy window.old window.new accesses.now result task.old task.new }
{
    if window.tasks() >= MAX_TASKS || !are_within(window.pieces(), accesses) {
        return RANGE;
    }
    match window.insert(accesses) {
        Ok(number) => {
            *task = number;
            DONE
        }
        Err(_) => NO_MEMORY,
    }
}

/// Whether each access is of pieces below this.
fn are_within(pieces: u32, accesses: &[Access]) -> bool
    ensures { IsTrue result ↔ AreWithin pieces accesses.now }
{
    accesses.iter().all(|a| u64::from(a.first) + u64::from(a.count) <= u64::from(pieces))
}

pub(crate) fn take_in(token: &mut Token, task: &mut u32, is_cancelled: &mut u32) -> u32
    ensures { IfWindow (Some token.old) (λ v. HoldsWindow (Some token.new) (λ w. TakenBy v w result task.old task.new is_cancelled.old is_cancelled.new)) }
{
    match token {
        Token::Window(window) => take(window, task, is_cancelled),
        Token::Empty => EMPTY,
    }
}

/// Takes a task of a window.
fn take(window: &mut TaskWindow, task: &mut u32, is_cancelled: &mut u32) -> u32
    ensures { TakenBy window.old window.new result task.old task.new is_cancelled.old is_cancelled.new }
{
    let Some(taken) = window.take() else {
        return NONE;
    };
    *task = taken.task;
    *is_cancelled = taken.is_cancelled as u32;
    DONE
}

pub(crate) fn end_in(token: &mut Token, task: u32, failed: bool) -> u32
    ensures { IfWindow (Some token.old) (λ v. HoldsWindow (Some token.new) (λ w. EndedBy v w task failed result)) }
{
    match token {
        Token::Window(window) => end(window, task, failed),
        Token::Empty => EMPTY,
    }
}

/// Ends a task of a window.
fn end(window: &mut TaskWindow, task: u32, failed: bool) -> u32
    ensures { EndedBy window.old window.new task failed result }
{
    if !is_running(window, task) {
        return RANGE;
    }
    window.end(task, failed);
    DONE
}

/// Whether there is such a task, and it runs.
fn is_running(window: &TaskWindow, task: u32) -> bool
    ensures known { IsTrue result → task < length window.now.tasks }
    ensures runs { IsTrue result ↔ (status_at window.now.status task ≡ Running) }
{
    window.is_sound();
    task < window.tasks() && window.status(task) == Status::Running
}

pub(crate) fn status_in(token: &mut Token, task: u32, status: &mut u32) -> u32
    ensures same { token.new ≡ token.old }
    ensures told { IfWindow (Some token.old) (λ v. StatusTold v task result status.old status.new) }
{
    match token {
        Token::Window(window) => tell_status(window, task, status),
        Token::Empty => EMPTY,
    }
}

/// Tells how far a task of a window has come.
fn tell_status(window: &TaskWindow, task: u32, status: &mut u32) -> u32
    ensures { StatusTold window.now task result status.old status.new }
{
    if task >= window.tasks() {
        return RANGE;
    }
    *status = status_number(window.status(task));
    DONE
}

pub(crate) fn left_in(token: &mut Token, left: &mut u32) -> u32
    ensures same { token.new ≡ token.old }
    ensures told { IfWindow (Some token.old) (λ v. (result ≡ DONE) × (left.new ≡ left_of v)) }
{
    match token {
        Token::Window(window) => {
            *left = window.left();
            DONE
        }
        Token::Empty => EMPTY,
    }
}

pub(crate) fn clear_in(token: &mut Token) -> u32
    ensures { IfWindow (Some token.old) (λ v. HoldsWindow (Some token.new) (λ w. ClearedBy v w result)) }
{
    match token {
        Token::Window(window) => clear(window),
        Token::Empty => EMPTY,
    }
}

/// Takes all tasks out of a window of which none is left.
fn clear(window: &mut TaskWindow) -> u32
    ensures { ClearedBy window.old window.new result }
{
    if window.clear() { DONE } else { WORK_OUT }
}
