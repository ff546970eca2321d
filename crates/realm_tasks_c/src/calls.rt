//! The calls on windows. Each answers what a handle is that it can't be given, and changes nothing then.

ghost use Rattle.std.specs.Prelude.{◌≡◌, ◌⊎◌, ◌==◌, not, None, Some};
ghost use Rattle.realm_tasks_c.specs.Windows.{IfWindow, HoldsWindow, HoldsAny, AddedBy, InsertedBy, TakenBy, EndedBy, StatusTold, ClearedBy, no_window, left_of};
ghost use Rattle.realm_tasks_c.specs.declared.token.Token.TheVariants.{Window};

use crate::held::Held;
use crate::inside::{add_pieces_in, clear_in, end_in, insert_in, left_in, status_in, take_in};
use crate::status::{DONE, EMPTY, FILLED, NO_MEMORY};
use crate::token::Token;
use std::alloc::Global;
use task_order::access::Access;
use task_window::window::TaskWindow;

/// Makes a window without pieces and tasks: 0; 21 where the handle is not empty; 7.
#[unsafe(no_mangle)]
pub extern "C" fn realm_window_new(alloc: Global, window: &mut Held) -> u32
    ensures filled { HoldsAny window.old.value → (result ≡ FILLED) × (window.new.value ≡ window.old.value) }
    ensures made { window.old.value ≡ None → ((result ≡ DONE) × (window.new.value ≡ Some (Window no_window))) ⊎ ((result ≡ NO_MEMORY) × (window.new.value ≡ None)) }
{
    if !window.is_empty(alloc) {
        return FILLED;
    }
    match Box::new(alloc, Token::Window(TaskWindow::new(alloc))) {
        Ok(token) => {
            window.put(token);
            DONE
        }
        Err(_) => NO_MEMORY,
    }
}

/// Adds pieces: 0 with the number of the first of them; 15 where there would be too many; 7.
#[unsafe(no_mangle)]
pub extern "C" fn realm_window_add_pieces(
    alloc: Global,
    window: &mut Held,
    count: u32,
    first: &mut u32,
) -> u32
    ensures misuse { window.old.value ≡ None → (result ≡ EMPTY) × (window.new.value ≡ None) × (first.new ≡ first.old) }
    ensures added { IfWindow window.old.value (λ v. HoldsWindow window.new.value (λ w. AddedBy v w count result first.old first.new)) }
{
    let Some(mut token) = window.take(alloc) else {
        return EMPTY;
    };
    let status = add_pieces_in(&mut token, count, first);
    window.put(token);
    status
}

/// Inserts a task: 0 with its number; 15 where an access is of no piece, or there are as many tasks as may be; 7.
#[unsafe(no_mangle)]
pub extern "C" fn realm_window_insert(
    alloc: Global,
    window: &mut Held,
    accesses: &[Access],
    task: &mut u32,
) -> u32
    ensures misuse { window.old.value ≡ None → (result ≡ EMPTY) × (window.new.value ≡ None) × (task.new ≡ task.old) }
    ensures inserted { IfWindow window.old.value (λ v. HoldsWindow window.new.value (λ w. InsertedBy v w accesses.now result task.old task.new)) }
{
    let Some(mut token) = window.take(alloc) else {
        return EMPTY;
    };
    let status = insert_in(&mut token, accesses, task);
    window.put(token);
    status
}

/// Takes a task that is due: 0 with its number, and whether it is cancelled, and then it has ended by this; 4 where none
/// is due.
#[unsafe(no_mangle)]
pub extern "C" fn realm_window_take(
    alloc: Global,
    window: &mut Held,
    task: &mut u32,
    is_cancelled: &mut u32,
) -> u32
    ensures misuse { window.old.value ≡ None → (result ≡ EMPTY) × (window.new.value ≡ None) × (task.new ≡ task.old) × (is_cancelled.new ≡ is_cancelled.old) }
    ensures taken { IfWindow window.old.value (λ v. HoldsWindow window.new.value (λ w. TakenBy v w result task.old task.new is_cancelled.old is_cancelled.new)) }
{
    let Some(mut token) = window.take(alloc) else {
        return EMPTY;
    };
    let status = take_in(&mut token, task, is_cancelled);
    window.put(token);
    status
}

/// Ends a task that runs, whose body has returned, and failed where this is not 0: 0; 15 where it does not run.
#[unsafe(no_mangle)]
pub extern "C" fn realm_window_end(alloc: Global, window: &mut Held, task: u32, failed: u32) -> u32
    ensures misuse { window.old.value ≡ None → (result ≡ EMPTY) × (window.new.value ≡ None) }
    ensures ended { IfWindow window.old.value (λ v. HoldsWindow window.new.value (λ w. EndedBy v w task (not (failed == 0)) result)) }
{
    let Some(mut token) = window.take(alloc) else {
        return EMPTY;
    };
    let status = end_in(&mut token, task, failed != 0);
    window.put(token);
    status
}

/// Tells how far a task has come: 0, and 0 waiting, 1 running, 2 done, 3 faulted, 4 cancelled; 15 where there is no such
/// task.
#[unsafe(no_mangle)]
pub extern "C" fn realm_window_status(
    alloc: Global,
    window: &mut Held,
    task: u32,
    status: &mut u32,
) -> u32
    ensures same { window.new.value ≡ window.old.value }
    ensures misuse { window.old.value ≡ None → (result ≡ EMPTY) × (status.new ≡ status.old) }
    ensures told { IfWindow window.old.value (λ v. StatusTold v task result status.old status.new) }
{
    let Some(mut token) = window.take(alloc) else {
        return EMPTY;
    };
    let answer = status_in(&mut token, task, status);
    window.put(token);
    answer
}

/// Tells how many tasks have not ended: 0.
#[unsafe(no_mangle)]
pub extern "C" fn realm_window_left(alloc: Global, window: &mut Held, left: &mut u32) -> u32
    ensures same { window.new.value ≡ window.old.value }
    ensures misuse { window.old.value ≡ None → (result ≡ EMPTY) × (left.new ≡ left.old) }
    ensures told { IfWindow window.old.value (λ v. (result ≡ DONE) × (left.new ≡ left_of v)) }
{
    let Some(mut token) = window.take(alloc) else {
        return EMPTY;
    };
    let answer = left_in(&mut token, left);
    window.put(token);
    answer
}

/// Takes all tasks out: 0; 17 where some have not ended. The pieces stay.
#[unsafe(no_mangle)]
pub extern "C" fn realm_window_clear(alloc: Global, window: &mut Held) -> u32
    ensures misuse { window.old.value ≡ None → (result ≡ EMPTY) × (window.new.value ≡ None) }
    ensures cleared { IfWindow window.old.value (λ v. HoldsWindow window.new.value (λ w. ClearedBy v w result)) }
{
    let Some(mut token) = window.take(alloc) else {
        return EMPTY;
    };
    let answer = clear_in(&mut token);
    window.put(token);
    answer
}

/// Frees what a handle holds, if anything.
#[unsafe(no_mangle)]
pub extern "C" fn realm_window_free(alloc: Global, window: &mut Held)
    ensures { window.new.value ≡ None }
{
    drop(window.take(alloc));
}
