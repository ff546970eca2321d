//! Columns at home that lines have shares of.

ghost use Rattle.std.specs.Prelude.{◌≡◌, ◌≤◌, None, replicate};
ghost use Rattle.std.specs.Vec.{vec_capacity};

use crate::lent::{Left, Lent};
use graph_terms::lists::ColumnList;
use index_spaces::column::Column;
use index_spaces::room::push_within;
use index_spaces::shares::ColumnShare;
use line_effects::homes::Homes;
use std::marker::Model;

/// The columns of a graph by their numbers, each at home, out, or lent to readers.
#[derive(Drop)]
pub struct SharedHomes {
    // A column that is lent is out of its home.
    homes: Homes,
    lent: Vec<Option<Lent>>,
}

impl Model for SharedHomes {
    ghost use Rattle.lent_columns.specs.Lendings.{SharedValue};
    ghost use Rattle.lent_columns.specs.Shown.{shown_shares, AreBeside};

    ghost Value = { SharedValue };

    ghost view = { λ a. shown_shares a.homes a.lent.items };

    ghost invariant = { λ a. AreBeside a.homes a.lent.items };
}

impl SharedHomes {
    ghost use Rattle.std.specs.Prelude.{◌≡◌, ◌≤◌, ◌<◌, ◌+◌, ◌^◌, ℕ, length, map, replicate, Some, None, slice_set, true, false, All, IsSome};
    ghost use Rattle.std.specs.Vec.{vec_capacity};
    ghost use Rattle.lent_columns.specs.Lendings.{column_in, lending_in, readers_of, number_of, one_fewer, is_open, HasOneMore, GivesShare};

    /// These columns, of which none is lent. The list is room for the lendings.
    pub fn of(homes: Homes, room: Vec<Option<Lent>>, columns: u32) -> SharedHomes
        requires each { length homes ≡ columns }
        requires room { columns ≤ vec_capacity room }
        ensures { result ≡ record { columns = homes; lendings = replicate columns None } }
    {
        SharedHomes {
            homes,
            lent: none_lent(room, columns as usize),
        }
    }

    /// The list of the lendings, as room for others.
    pub fn into_room(self) -> Vec<Option<Lent>>
        ensures { length self.columns ≤ vec_capacity result }
    {
        self.lent
    }

    /// The columns, which are all at home and not lent, by their numbers. It takes no memory.
    pub fn into_columns(self) -> ColumnList
        requires home { All (λ place. IsSome place) self.columns }
        requires unlent { (c : ℕ) → lending_in self.lendings c ≡ None }
        ensures { self.columns ≡ map (λ column. Some column) result }
    {
        self.homes.into_columns()
    }

    /// Whether a column is open to a line that only reads it, or to one that may change it.
    pub fn is_open(&self, c: u32, reads: bool) -> bool
        requires { c < length self.now.columns }
        ensures { result ≡ is_open self.now c reads }
    {
        !self.homes.is_out(c) || (reads && self.lent[c as usize].is_some())
    }

    /// Moves a column out that is at home and not lent.
    pub(crate) fn take(&mut self, c: u32) -> Column
        requires known { c < length self.old.columns }
        requires open { is_open self.old c false ≡ true }
        ensures column { column_in self.old c ≡ Some result }
        ensures homes { self.new ≡ record { columns = slice_set self.old.columns c None; lendings = self.old.lendings } }
    {
        self.homes.take(c).unwrap()
    }

    /// Puts a column at home that is out.
    pub(crate) fn give(&mut self, c: u32, column: Column)
        requires known { c < length self.old.columns }
        requires out { column_in self.old c ≡ None }
        ensures { self.new ≡ record { columns = slice_set self.old.columns c (Some column); lendings = self.old.lendings } }
    {
        self.homes.give(c, column);
    }

    /// Gives a share of a column that is at home, lent or not.
    pub(crate) fn share(&mut self, c: u32) -> ColumnShare
        requires known { c < length self.old.columns }
        requires open { is_open self.old c true ≡ true }
        requires few { readers_of (lending_in self.old.lendings c) + 1 < 2 ^ 32 }
        ensures { GivesShare self.old self.new c result }
    {
        let (lent, share) = self.lend_out(c);
        self.lent[c as usize] = Some(lent);
        share
    }

    /// Takes out the lending of a column that is at home, lent or not, with a share for one reader more.
    fn lend_out(&mut self, c: u32) -> (Lent, ColumnShare)
        requires known { c < length self.old.columns }
        requires open { is_open self.old c true ≡ true }
        requires few { readers_of (lending_in self.old.lendings c) + 1 < 2 ^ 32 }
        ensures homes { self.new ≡ record { columns = slice_set self.old.columns c None; lendings = slice_set self.old.lendings c None } }
        ensures column { column_in self.old c ≡ Some result.0.column }
        ensures more { HasOneMore (lending_in self.old.lendings c) result.0.lending }
        ensures share { result.1 ≡ record { column = result.0.column; lending = result.0.lending.number; count = 1 } }
    {
        match self.lent[c as usize].take() {
            Some(lent) => lent.share(),
            None => Lent::of(self.homes.take(c).unwrap()),
        }
    }

    /// Takes back a share of the lending of a column. With the last one the column is at home again,
    /// not lent.
    pub(crate) fn join(&mut self, c: u32, share: ColumnShare)
        requires known { c < length self.old.columns }
        requires one { share.count ≡ 1 }
        requires same { number_of (lending_in self.old.lendings c) ≡ Some share.lending }
        ensures { self.new ≡ record { columns = self.old.columns; lendings = slice_set self.old.lendings c (one_fewer (lending_in self.old.lendings c)) } }
    {
        match self.lent[c as usize].take().unwrap().join(share) {
            Left::Lent(lent) => self.lent[c as usize] = Some(lent),
            Left::Home(column) => self.homes.give(c, column),
        }
    }
}

/// So many columns of which none is lent, in place of what the list had.
fn none_lent(mut lent: Vec<Option<Lent>>, columns: usize) -> Vec<Option<Lent>>
    requires { columns ≤ vec_capacity lent }
    ensures { result.items ≡ replicate columns None }
{
    lent.clear();
    for _column in 0..columns {
        push_within(&mut lent, None);
    }
    lent
}
