//! How far the tasks have come, which wait, and which wait for nothing more.

ghost use Rattle.std.specs.Prelude.{◌≡◌, ◌≢◌, ℕ, ◌+◌, ◌-◌, ◌==◌, ◌<◌, ◌≤◌, ◌++◌, [], ◌∷◌, ◌^◌, All, true, false, cond, not, List, length, slice_index, slice_index_or, slice_set, vec_len, IsTrue, OnOk, OnErr, IfSome, IfNone};
ghost use Rattle.std.specs.Vec.{vec_capacity};
ghost use Rattle.task_order.specs.declared.status.Status.TheVariants.{Waiting, Running, Cancelled};
ghost use Rattle.task_order.specs.Sequence.{is_over, is_lost};
ghost use Rattle.task_window.specs.Waits.{IsPassing, IsAtRest, status_at, Starts, HasRoom, links_to};

use crate::chains::Chains;
use index_spaces::NoMemory;
use index_spaces::room::{push, push_within, reserve};
use std::alloc::Global;
use task_order::status::Status;

/// The tasks by their numbers, and links from each to those that wait for it.
#[derive(Drop)]
pub(crate) struct Queue {
    pub(crate) status: Vec<Status>,
    /// How many are not over.
    pub(crate) left: usize,
    /// From a task to one that waits for it.
    pub(crate) links: Chains,
    /// By task: how many links lead to it from tasks that are not over.
    pub(crate) waits: Vec<u32>,
    /// By task: whether a link leads to it from a task that is lost.
    pub(crate) spoiled: Vec<bool>,
    /// The tasks to which no such link leads, of which the first have started.
    pub(crate) ready: Vec<u32>,
    pub(crate) started: usize,
    pub(crate) count: usize,
}

impl Queue {
    /// No tasks.
    pub(crate) fn new(alloc: Global) -> Queue
        ensures status { result.status.items ≡ [] }
        ensures rest { IsAtRest result }
    {
        Queue {
            status: Vec::new(alloc),
            left: 0,
            links: Chains::new(alloc),
            waits: Vec::new(alloc),
            spoiled: Vec::new(alloc),
            ready: Vec::new(alloc),
            started: 0,
            count: 0,
        }
    }

    /// How many tasks there are.
    pub(crate) fn len(&self) -> u32
        requires { IsAtRest self.now }
        ensures { result ≡ length self.now.status.items }
    {
        self.status.len() as u32
    }

    /// How many tasks are not over.
    pub(crate) fn left(&self) -> u32
        requires { IsAtRest self.now }
        ensures { result ≡ self.now.left }
    {
        self.left as u32
    }

    /// The first task that may start and has not; it runs then. None comes where none may.
    pub(crate) fn start(&mut self) -> Option<u32>
        requires { IsAtRest self.old }
        ensures rest { IsAtRest self.new }
        ensures some { IfSome result (λ i. Starts self.old self.new i) }
        ensures none { IfNone result (self.new ≡ self.old) }
        ensures all { IfNone result ((j : ℕ) → j < length self.old.status.items → status_at self.old.status.items j ≡ Waiting
            → 0 < slice_index self.old.waits.items j) }
    {
        if self.started == self.count {
            return None;
        }
        let task = self.ready[self.started];
        self.started += 1;
        self.status[task as usize] = Status::Running;
        Some(task)
    }

    /// A task that runs is over.
    pub(crate) fn close(&mut self, task: u32, status: Status)
        requires rest { IsAtRest self.old }
        requires known { task < length self.old.status.items }
        requires runs { status_at self.old.status.items task ≡ Running }
        requires over { is_over status ≡ true }
        ensures rest { IsAtRest self.new }
        ensures status { self.new.status.items ≡ slice_set self.old.status.items task status }
        ensures links { self.new.links ≡ self.old.links }
    {
        self.status[task as usize] = status;
        self.left -= 1;
        self.pass_all(task, is_lost(status));
    }

    /// Tells each task that waits for one that is over now.
    fn pass_all(&mut self, task: u32, lost: bool)
        requires known { task < length self.old.status.items }
        requires passing { IsPassing self.old task (length self.old.links.links) }
        requires over { is_over (status_at self.old.status.items task) ≡ true }
        requires lost { lost ≡ is_lost (status_at self.old.status.items task) }
        ensures rest { IsAtRest self.new }
        ensures status { self.new.status ≡ self.old.status }
        ensures links { self.new.links ≡ self.old.links }
    {
        let mut link = self.links.last(task);
        while link > 0 {
            let next = self.links.value(link - 1);
            self.pass(next, lost);
            link = self.links.earlier(link - 1);
        }
    }

    /// One pending link less leads to a task.
    fn pass(&mut self, task: u32, lost: bool)
        requires waits { (task < length self.old.waits.items) × (0 < slice_index self.old.waits.items task) }
        requires spoiled { task < length self.old.spoiled.items }
        requires ready { self.old.count < length self.old.ready.items }
        ensures same { self.new ≡ record self.old {
          waits = self.new.waits;
          spoiled = self.new.spoiled;
          ready = self.new.ready;
          count = self.new.count;
        } }
        ensures waits { self.new.waits.items ≡ slice_set self.old.waits.items task (slice_index self.old.waits.items task - 1) }
        ensures spoiled { self.new.spoiled.items ≡ cond lost (slice_set self.old.spoiled.items task true) self.old.spoiled.items }
        ensures ready { self.new.ready.items ≡ cond (slice_index self.old.waits.items task - 1 == 0)
            (slice_set self.old.ready.items self.old.count task) self.old.ready.items }
        ensures count { self.new.count ≡ cond (slice_index self.old.waits.items task - 1 == 0) (self.old.count + 1) self.old.count }
    {
        let waits = self.waits[task as usize] - 1;
        self.waits[task as usize] = waits;
        if lost {
            self.spoiled[task as usize] = true;
        }
        self.offer(task, waits);
    }

    /// Lists a task to which no pending link leads.
    fn offer(&mut self, task: u32, waits: u32)
        requires { self.old.count < length self.old.ready.items }
        ensures same { self.new ≡ record self.old { ready = self.new.ready; count = self.new.count } }
        ensures ready { self.new.ready.items ≡ cond (waits == 0)
            (slice_set self.old.ready.items self.old.count task) self.old.ready.items }
        ensures count { self.new.count ≡ cond (waits == 0) (self.old.count + 1) self.old.count }
    {
        if waits == 0 {
            self.ready[self.count] = task;
            self.count += 1;
        }
    }

    /// Makes room for one more task with so many links to it.
    pub(crate) fn reserve(&mut self, links: usize) -> Result<(), NoMemory>
        requires rest { IsAtRest self.old }
        requires few { length self.old.status.items < 2 ^ 31 }
        ensures rest { IsAtRest self.new }
        ensures status { self.new.status.items ≡ self.old.status.items }
        ensures links { self.new.links.links ≡ self.old.links.links }
        ensures room { OnOk result (HasRoom self.new links) }
    {
        let count = self.status.len() + 1;
        self.links.reserve(links)?;
        self.links.add_keys(count)?;
        lengthen(&mut self.waits, count, 0)?;
        lengthen(&mut self.spoiled, count, false)?;
        lengthen(&mut self.ready, count, 0)?;
        reserve(&mut self.status, 1)
    }

    /// One more task, with a link to it from each of these.
    pub(crate) fn insert(&mut self, sources: &[u32])
        requires rest { IsAtRest self.old }
        requires few { length self.old.status.items < 2 ^ 31 }
        requires room { HasRoom self.old (length sources.now) }
        requires known { All (λ i. i < length self.old.status.items) sources.now }
        ensures rest { IsAtRest self.new }
        ensures status { self.new.status.items ≡ self.old.status.items ++ Waiting ∷ [] }
        ensures links { self.new.links.links ≡ self.old.links.links ++ links_to (length self.old.status.items) sources.now }
    {
        let task = self.status.len() as u32;
        let mut waits = 0;
        let mut is_spoiled = false;
        for source in sources {
            let status = self.status[*source as usize];
            self.links.put(*source, task);
            waits += pending_links(status);
            is_spoiled |= is_lost(status);
        }
        self.commit(task, waits, is_spoiled);
    }

    /// The next task waits, and these links lead to it.
    fn commit(&mut self, task: u32, waits: u32, is_spoiled: bool)
        requires number { task ≡ length self.old.status.items }
        requires status { length self.old.status.items < vec_capacity self.old.status }
        requires waits { task < length self.old.waits.items }
        requires spoiled { task < length self.old.spoiled.items }
        requires ready { self.old.count < length self.old.ready.items }
        requires left { self.old.left < 2 ^ 32 }
        ensures same { self.new ≡ record self.old {
          status = self.new.status;
          left = self.old.left + 1;
          waits = self.new.waits;
          spoiled = self.new.spoiled;
          ready = self.new.ready;
          count = self.new.count;
        } }
        ensures status { self.new.status.items ≡ self.old.status.items ++ Waiting ∷ [] }
        ensures waits { self.new.waits.items ≡ slice_set self.old.waits.items task waits }
        ensures spoiled { self.new.spoiled.items ≡ slice_set self.old.spoiled.items task is_spoiled }
        ensures ready { self.new.ready.items ≡ cond (waits == 0)
            (slice_set self.old.ready.items self.old.count task) self.old.ready.items }
        ensures count { self.new.count ≡ cond (waits == 0) (self.old.count + 1) self.old.count }
    {
        push_within(&mut self.status, Status::Waiting);
        self.left += 1;
        self.waits[task as usize] = waits;
        self.spoiled[task as usize] = is_spoiled;
        self.offer(task, waits);
    }

    /// Takes all tasks out.
    pub(crate) fn clear(&mut self)
        ensures rest { IsAtRest self.new }
        ensures status { self.new.status.items ≡ [] }
        ensures links { self.new.links.links ≡ [] }
    {
        self.status.clear();
        self.left = 0;
        self.links.clear();
        self.started = 0;
        self.count = 0;
    }
}

/// How many pending links a link from such a task is.
fn pending_links(status: Status) -> u32
    ensures { result ≡ cond (is_over status) 0 1 }
{
    match status {
        Status::Waiting | Status::Running => 1,
        Status::Done | Status::Faulted | Status::Cancelled => 0,
    }
}

/// Whether a task that has come so far is lost.
fn is_lost(status: Status) -> bool
    ensures { result ≡ is_lost status }
{
    matches!(status, Status::Faulted | Status::Cancelled)
}

/// A vector with at least so many items.
fn lengthen<T: Copy + Drop>(items: &mut Vec<T>, count: usize, filler: T) -> Result<(), NoMemory>
    requires { 0 < count }
    ensures same { (k : ℕ) (d : T) → k < length items.old.items
        → slice_index_or items.new.items k d ≡ slice_index_or items.old.items k d }
    ensures longer { length items.old.items ≤ length items.new.items }
    ensures ok { OnOk result (count ≤ length items.new.items) }
{
    if items.len() < count {
        return match items.resize(count, filler) {
            Ok(()) => Ok(()),
            Err(_) => Err(NoMemory),
        };
    }
    Ok(())
}
