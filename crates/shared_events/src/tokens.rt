//! What a thread has: what it knows, and what it alone may do. Each token holds a seat of its own
//! at the table.

ghost use Rattle.std.specs.Prelude.{◌≡◌};
ghost use Rattle.shared_events.specs.Seats.{IsPlain, IsMaker, IsPending, IsWaiter, IsReceipt, IsCaught, IsSet};

use crate::view::View;
use event_table::{Fate, Handle};

/// What a thread has seen, knows, has placed, was given, has emptied, has left and has found to have
/// ended. It only grows.
#[derive(Drop)]
pub struct Seat {
    pub(crate) inner: atomic_table::Seat<(), View>,
    ghost plain: { IsPlain inner.me },
}

/// The right to create, and the list of all handles that were created, in order. A table has one.
#[derive(Drop)]
pub struct Maker {
    // The slot that is looked at first for the next handle, one behind that which was given last.
    pub(crate) next: u32,
    pub(crate) inner: atomic_table::Seat<(), View>,
    ghost makes: { IsMaker inner.me },
}

/// The right to end a handle, which is pending as long as this is there. It can be neither copied
/// nor dropped: `Events::end` and `Events::leave` use it up.
pub struct Pending {
    pub(crate) handle: Handle,
    pub(crate) inner: atomic_table::Seat<(), View>,
    ghost pending: { IsPending inner.me handle },
}

/// A waiter that stands on no handle. It can't be copied.
#[derive(Drop)]
pub struct Waiter {
    pub(crate) number: u32,
    pub(crate) inner: atomic_table::Seat<(), View>,
    ghost waiter: { IsWaiter inner.me number },
}

/// That a handle has ended with this fate.
#[derive(Drop)]
pub struct Receipt {
    pub(crate) handle: Handle,
    pub(crate) fate: Fate,
    pub(crate) inner: atomic_table::Seat<(), View>,
    ghost receipt: { IsReceipt inner.me handle fate },
}

/// The waiters that stood on a handle as it ended, and were not given yet.
#[derive(Drop)]
pub struct Caught {
    pub(crate) handle: Handle,
    // The number of the next waiter plus one, or 0 where there is none.
    pub(crate) next: u64,
    pub(crate) inner: atomic_table::Seat<(), View>,
    ghost caught: { IsCaught inner.me handle next },
}

/// What `Events::watch` did. Where it did not place the waiter, the waiter comes back.
#[derive(Drop)]
pub enum Watch {
    Placed,
    Over(Fate, Waiter),
    Moved(Waiter),
}

/// The waiters that were not given out yet.
#[derive(Drop)]
pub struct WaiterSet {
    pub(crate) next: u32,
    pub(crate) count: u32,
    pub(crate) inner: atomic_table::Seat<(), View>,
    ghost set: { IsSet inner.me next count },
}

impl Waiter {
    ghost use Rattle.shared_events.specs.Views.{number_of};

    /// The number of the waiter, from 0.
    pub fn number(&self) -> u32
        ensures { result ≡ number_of self.now }
    {
        self.number
    }
}

impl Pending {
    ghost use Rattle.shared_events.specs.Views.{handle_of};

    /// The handle.
    pub fn handle(&self) -> Handle
        ensures { result ≡ handle_of self.now }
    {
        self.handle
    }
}

impl Receipt {
    ghost use Rattle.shared_events.specs.Views.{ended_by, fate_of};

    /// The handle.
    pub fn handle(&self) -> Handle
        ensures { result ≡ ended_by self.now }
    {
        self.handle
    }

    /// The fate with which the handle ended.
    pub fn fate(&self) -> Fate
        ensures { result ≡ fate_of self.now }
    {
        self.fate
    }
}
