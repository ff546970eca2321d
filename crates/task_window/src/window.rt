//! A window of inserted tasks.

use crate::pieces::Pieces;
use crate::queue::Queue;
use index_spaces::NoMemory;
use std::alloc::Global;
use std::marker::Model;
use task_order::access::Access;
use task_order::status::Status;

/// Tasks in the order in which they were inserted, and how far each has come.
#[derive(Drop)]
pub struct TaskWindow {
    pieces: Pieces,
    queue: Queue,
    // room for the tasks that a new one waits for
    sources: Vec<u32>,
}

impl Model for TaskWindow {
    ghost use Rattle.task_window.specs.Window.{WindowValue};

    ghost Value = { WindowValue };

    ghost use Rattle.task_window.specs.Pieces.{tasks_of};
    ghost use Rattle.task_window.specs.Window.{IsKept};

    ghost view = { λ w. record { pieces = w.pieces.readers.keys; tasks = tasks_of w.pieces; status = w.queue.status.items } };

    ghost invariant = { λ w. IsKept w.pieces w.queue };
}

/// A task that was taken.
#[derive(Clone, Copy, PartialEq, Eq, Debug, Drop)]
pub struct Taken {
    /// Its number.
    pub task: u32,
    /// Whether it is cancelled: then it is over, and its body is not to be run. Else it runs now.
    pub is_cancelled: bool,
}

impl TaskWindow {
    ghost use Rattle.std.specs.Prelude.{◌≡◌, ℕ, ◌+◌, ◌^◌, ◌<◌, ◌++◌, [], ◌∷◌, true, not, List, length, slice_set, IsTrue, IfSome, IfNone, IfOk, OnOk, OnErr};
    ghost use Rattle.std.specs.Bool.{OnTrue, OnFalse};
    ghost use Rattle.basics.specs.Lists.{count_below};
    ghost use Rattle.task_order.specs.declared.status.Status.TheVariants.{Waiting, Running};
    ghost use Rattle.task_order.specs.Sequence.{is_over, end_by};
    ghost use Rattle.task_window.specs.Waits.{status_at};
    ghost use Rattle.task_window.specs.Pieces.{AreWithin};
    ghost use Rattle.task_window.specs.Window.{WindowValue, IsSound, NoneIsDue, Takes};

    /// A window without pieces and tasks. It takes no memory.
    pub fn new(alloc: Global) -> TaskWindow
        ensures { result ≡ record { pieces = 0; tasks = []; status = [] } }
    {
        TaskWindow {
            pieces: Pieces::new(alloc),
            queue: Queue::new(alloc),
            sources: Vec::new(alloc),
        }
    }

    /// How many pieces there are.
    pub fn pieces(&self) -> u32
        ensures { result ≡ self.now.pieces }
    {
        self.pieces.count()
    }

    /// Adds pieces, and returns the number of the first of them. `NoMemory` changes nothing.
    pub fn add_pieces(&mut self, count: u32) -> Result<u32, NoMemory>
        requires { self.old.pieces + count < 2 ^ 32 }
        ensures ok { IfOk result (λ p. (p ≡ self.old.pieces) × (self.new ≡ record self.old { pieces = self.old.pieces + count })) }
        ensures err { OnErr result (self.new ≡ self.old) }
    {
        let first = self.pieces.count();
        self.pieces.add_pieces(first + count)?;
        Ok(first)
    }

    /// How many tasks there are.
    pub fn tasks(&self) -> u32
        ensures { result ≡ length self.now.tasks }
    {
        self.queue.len()
    }

    /// How many tasks are not over.
    pub fn left(&self) -> u32
        ensures { result ≡ count_below (λ i. not (is_over (status_at self.now.status i))) (length self.now.tasks) }
    {
        self.queue.left()
    }

    /// How far a task has come.
    pub fn status(&self, task: u32) -> Status
        requires { task < length self.now.tasks }
        ensures { result ≡ status_at self.now.status task }
    {
        self.queue.status[task as usize]
    }

    /// What a task depends on that waits no more is over, and it is cancelled exactly where it depends on a
    /// lost one.
    pub fn is_sound(&self)
        ensures { IsSound self.now }
    {
        let _ = &self.queue;
    }

    /// Inserts a task, and returns its number. `NoMemory` changes nothing.
    pub fn insert(&mut self, accesses: &[Access]) -> Result<u32, NoMemory>
        requires within { AreWithin self.old.pieces accesses.now }
        requires few { length self.old.tasks < 2 ^ 31 }
        ensures ok { IfOk result (λ i. (i ≡ length self.old.tasks)
            × (self.new ≡ record self.old {
              tasks = self.old.tasks ++ accesses.now ∷ [];
              status = self.old.status ++ Waiting ∷ [];
            })) }
        ensures err { OnErr result (self.new ≡ self.old) }
    {
        self.sources.clear();
        self.pieces.collect(accesses, &mut self.sources)?;
        self.pieces.reserve(accesses)?;
        self.queue.reserve(self.sources.len())?;
        let task = self.queue.len();
        self.pieces.insert(task, accesses);
        self.queue.insert(self.sources.as_slice());
        Ok(task)
    }

    /// Takes a task that is due. None comes where none is.
    pub fn take(&mut self) -> Option<Taken>
        ensures some { IfSome result (λ t. Takes self.old self.new t.task t.is_cancelled) }
        ensures none { IfNone result ((self.new ≡ self.old) × NoneIsDue self.old) }
    {
        let task = self.queue.start()?;
        let is_cancelled = self.queue.spoiled[task as usize];
        if is_cancelled {
            self.queue.close(task, Status::Cancelled);
            return Some(Taken { task, is_cancelled });
        }
        Some(Taken { task, is_cancelled })
    }

    /// The body of a task that runs has returned, and said whether it failed.
    pub fn end(&mut self, task: u32, failed: bool)
        requires { status_at self.old.status task ≡ Running }
        ensures { self.new ≡ record self.old { status = slice_set self.old.status task (end_by failed) } }
    {
        self.queue.close(task, end_status(failed));
    }

    /// Takes all tasks out and keeps the room for others, if no task is left. False comes exactly where some
    /// task is not over.
    pub fn clear(&mut self) -> bool
        ensures cleared { OnTrue result (self.new ≡ record self.old { tasks = []; status = [] }) }
        ensures over { OnTrue result ((i : ℕ) → i < length self.old.tasks → is_over (status_at self.old.status i) ≡ true) }
        ensures left { OnFalse result ((self.new ≡ self.old)
            × ((i : ℕ) × (i < length self.old.tasks) × IsTrue (not (is_over (status_at self.old.status i))))) }
    {
        if self.queue.left() > 0 {
            return false;
        }
        self.pieces.clear();
        self.queue.clear();
        true
    }
}

ghost use Rattle.std.specs.Prelude.{◌≡◌};
ghost use Rattle.task_order.specs.Sequence.{end_by};

/// How a body ends that says whether it failed.
fn end_status(failed: bool) -> Status
    ensures { result ≡ end_by failed }
{
    if failed {
        Status::Faulted
    } else {
        Status::Done
    }
}
