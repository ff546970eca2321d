//! Lists that are fields of graphs and outcomes.

ghost use Rattle.std.specs.Prelude.{◌≡◌, ◌<◌, [], ◌∷◌, ◌++◌, length, slice_get, slice_set, replicate, Some, None, IfOk, OnOk, OnErr};

use crate::name::Name;
use crate::outcome::{Answer, End};
use crate::verb::Access;
use index_spaces::NoMemory;
use index_spaces::column::Column;
use index_spaces::room::{filled, push};
use smallvec::SmallVec;
use std::alloc::Global;
use std::marker::Model;

/// Items, in order: fewer than 2^32.
#[derive(Drop)]
pub struct ItemList<T> {
    pub items: Vec<T>,
}

impl<T> Model for ItemList<T> {
    ghost use Rattle.std.specs.Prelude.{List, length, ◌<◌, ◌^◌};

    ghost Value = { List T };

    ghost view = { λ a. a.items.items };

    ghost invariant = { λ a. length a.items.items < 2 ^ 32 };
}

/// The events that a line waits for, in the order of its words: fewer than 2^32. One or two take no memory of their own.
#[derive(Drop)]
pub struct EventList {
    pub items: SmallVec<u32, 2>,
}

impl Model for EventList {
    ghost use Rattle.std.specs.Prelude.{List, ℕ, length, ◌<◌, ◌^◌};

    ghost Value = { List ℕ };

    ghost view = { λ a. a.items.items };

    ghost invariant = { λ a. length a.items.items < 2 ^ 32 };
}

impl EventList {
    ghost use Rattle.std.specs.Prelude.{◌≡◌, ◌<◌, [], ◌∷◌, ◌++◌, length, OnOk, OnErr};

    /// The list without events.
    pub fn new(alloc: Global) -> EventList
        ensures { result ≡ [] }
    {
        EventList {
            items: SmallVec::new(alloc),
        }
    }

    /// Puts an event at the end. `NoMemory` leaves the list as it was.
    pub fn push(&mut self, event: u32) -> Result<(), NoMemory>
        requires { length self.old < u32.MAX }
        ensures ok { OnOk result (self.new ≡ self.old ++ event ∷ []) }
        ensures err { OnErr result (self.new ≡ self.old) }
    {
        match self.items.push(event) {
            Ok(()) => Ok(()),
            Err(_) => Err(NoMemory),
        }
    }

    /// How many there are.
    pub fn len(&self) -> u32
        ensures { result ≡ length self.now }
    {
        self.items.len() as u32
    }

    /// The events, in order.
    pub fn as_slice(&self) -> &[u32]
        ensures { result.now ≡ self.now }
    {
        self.items.as_slice()
    }
}

/// Names, in order.
pub type NameList = ItemList<Name>;

/// Numbers of lines, in order.
pub type LineList = ItemList<u32>;

/// Values, in order.
pub type NumberList = ItemList<u64>;

/// Accesses, in order.
pub type AccessList = ItemList<Access>;

/// How each line ended.
pub type EndList = ItemList<End>;

/// What each line's handle answers.
pub type AnswerList = ItemList<Answer>;

/// A value or none for each line.
pub type ValueList = ItemList<Option<u64>>;

impl<T: Drop> ItemList<T> {
    /// The list without items. It takes no memory.
    pub fn new(alloc: Global) -> ItemList<T>
        ensures { result ≡ [] }
    {
        ItemList {
            items: Vec::new(alloc),
        }
    }

    /// Puts an item at the end. `NoMemory` leaves the list as it was.
    pub fn push(&mut self, item: T) -> Result<(), NoMemory>
        requires { length self.old < u32.MAX }
        ensures ok { OnOk result (self.new ≡ self.old ++ item ∷ []) }
        ensures err { OnErr result (self.new ≡ self.old) }
    {
        push(&mut self.items, item)
    }
}

impl<T: Copy> ItemList<T> {
    /// How many there are.
    pub fn len(&self) -> u32
        ensures { result ≡ length self.now }
    {
        self.items.len() as u32
    }

    /// The item at place `i`, counted from 0.
    pub fn at(&self, i: u32) -> T
        requires { i < length self.now }
        ensures { slice_get self.now i ≡ Some result }
    {
        self.items[i as usize]
    }

    /// Puts an item at place `i`, counted from 0, in the place of the one there.
    pub fn set(&mut self, i: u32, item: T)
        requires { i < length self.old }
        ensures { self.new ≡ slice_set self.old i item }
    {
        self.items[i as usize] = item;
    }
}

impl ItemList<Option<u64>> {
    /// So many lines without a value.
    pub fn blank(alloc: Global, lines: u32) -> Result<ValueList, NoMemory>
        ensures { IfOk result (λ values. values ≡ replicate lines None) }
    {
        Ok(ItemList {
            items: filled(alloc, None, lines as usize)?,
        })
    }
}

/// Columns, by their numbers.
#[derive(Drop)]
pub struct ColumnList {
    pub items: Vec<Column>,
}

impl Model for ColumnList {
    ghost use Rattle.std.specs.Prelude.{List, length, ◌<◌, ◌^◌};
    ghost use Rattle.index_spaces.specs.Column.{ColumnValue};

    ghost Value = { List ColumnValue };

    ghost view = { λ a. a.items.items };

    ghost invariant = { λ a. length a.items.items < 2 ^ 32 };
}

impl ColumnList {
    /// How many there are.
    pub fn len(&self) -> u32
        ensures { result ≡ length self.now }
    {
        self.items.len() as u32
    }

    /// The column at place `i`, counted from 0.
    pub fn at(&self, i: u32) -> &Column
        requires { i < length self.now }
        ensures { slice_get self.now i ≡ Some result.now }
    {
        &self.items[i as usize]
    }
}
