//! Columns moved out of their places for one operation.

ghost use Rattle.std.specs.Prelude.{◌≡◌, ℕ, Some, None, MatchOption, option_map};
ghost use Rattle.index_spaces.specs.Held.{HeldEntry, entries, held_at, is_numbered, AreEntries, StandsAt};

use crate::column::{Column, ColumnView};
use crate::shares::ColumnShare;
use arrayvec::ArrayVec;
use std::marker::Model;

/// Up to four columns, each under its number: columns of its own, which may be changed, and shares of
/// columns that are lent, which may be read. It is seen as the list of them.
#[derive(Drop)]
pub struct Held {
    places: ArrayVec<Place, 4>,
}

impl Model for Held {
    ghost use Rattle.index_spaces.specs.Held.{HeldList, entries, AreEntries};

    ghost Value = { HeldList };

    ghost view = { λ a. entries a.places.items };

    ghost invariant = { λ a. AreEntries a.places.items };
}

/// What a place may have. The number stands in each variant, since a place is moved at each operation
/// and is shorter so.
#[derive(Drop)]
enum Entry {
    Free,
    Own(u32, Column),
    Share(u32, ColumnShare),
}

/// A place for a column.
#[derive(Drop)]
struct Place {
    entry: Entry,
}

impl Model for Place {
    ghost use Rattle.std.specs.Prelude.{Option};
    ghost use Rattle.index_spaces.specs.Held.{HeldEntry};
    ghost use Rattle.index_spaces.specs.Places.{entry_in, HasOneShare};

    ghost Value = { Option HeldEntry };

    ghost view = { λ a. entry_in a.entry };

    ghost invariant = { λ a. HasOneShare a.entry };
}

impl Default for Place {
    ghost use Rattle.std.specs.Prelude.{◌≡◌, None};

    ghost is_default = { λ place. place ≡ None };

    fn default() -> Place {
        Place { entry: Entry::Free }
    }
}

impl Held {
    ghost use Rattle.std.specs.Prelude.{◌≡◌, ℕ, ◌<◌, ◌+◌, ◌%◌, ◌^◌, [], length, Some, None, IsTrue, IsSome, IfSome, MatchOption, option_map};
    ghost use Rattle.std.specs.Option.{option_copied};
    ghost use Rattle.index_spaces.specs.Column.{with_cell, cell_of};
    ghost use Rattle.index_spaces.specs.Space.{has_point};
    ghost use Rattle.index_spaces.specs.Held.{held_at, lending_at, HoldsOtherwise};

    /// No column.
    pub fn none() -> Held
        ensures { result ≡ [] }
    {
        Held {
            places: ArrayVec::new(),
        }
    }

    /// Holds a column under a number.
    pub fn add(&mut self, c: u32, column: Column)
        requires few { length self.old < 4 }
        requires new { held_at self.old c ≡ None }
        ensures held { HoldsOtherwise self.old self.new c (Some column) }
        ensures own { lending_at self.new c ≡ None }
        ensures number { length self.new ≡ length self.old + 1 }
    {
        self.places.push(Place::own(c, column));
    }

    /// Holds a share of a column under a number.
    pub fn add_share(&mut self, c: u32, share: ColumnShare)
        requires few { length self.old < 4 }
        requires new { held_at self.old c ≡ None }
        requires one { share.count ≡ 1 }
        ensures held { HoldsOtherwise self.old self.new c (Some share.column) }
        ensures lending { lending_at self.new c ≡ Some share.lending }
        ensures number { length self.new ≡ length self.old + 1 }
    {
        self.places.push(Place::share(c, share));
    }

    /// The column of its own of a number, or None where none is held under it, or a share of one.
    pub fn column(&self, c: u32) -> Option<&Column>
        ensures own { lending_at self.now c ≡ None → option_copied result ≡ held_at self.now c }
        ensures share { IsSome (lending_at self.now c) → result ≡ None }
    {
        let places = self.places.as_slice();
        let k = place_of(places, c)?;
        places[k].column()
    }

    /// What a reader sees of the column of a number, or None where none is held under it.
    pub fn view(&self, c: u32) -> Option<ColumnView<'_>>
        ensures { result ≡ held_at self.now c }
    {
        let places = self.places.as_slice();
        let k = place_of(places, c)?;
        places[k].view()
    }

    /// Lets go of a column, and gives it with its number. None where none is held.
    pub fn pop(&mut self) -> Option<(u32, Column)>
        requires own { (c : ℕ) → lending_at self.old c ≡ None }
        ensures none { MatchOption result (self.old ≡ []) (λ r. held_at self.old r.0 ≡ Some r.1) }
        ensures held { IfSome result (λ r. HoldsOtherwise self.old self.new r.0 None) }
        ensures number { MatchOption result (self.new ≡ self.old) (λ r. length self.new + 1 ≡ length self.old) }
    {
        self.places.pop()?.into_numbered()
    }

    /// Lets go of the column of a number, and gives it. It is a column of its own.
    pub fn take(&mut self, c: u32) -> Column
        requires is_held { IsSome (held_at self.old c) }
        requires own { lending_at self.old c ≡ None }
        ensures column { held_at self.old c ≡ Some result }
        ensures held { HoldsOtherwise self.old self.new c None }
        ensures number { length self.new + 1 ≡ length self.old }
        ensures few { length self.new < 4 }
    {
        let k = place_of(self.places.as_slice(), c).unwrap();
        self.places.remove(k).into_own().unwrap()
    }

    /// Lets go of the share of the column of a number, and gives it.
    pub fn take_share(&mut self, c: u32) -> ColumnShare
        requires { IsSome (lending_at self.old c) }
        ensures column { held_at self.old c ≡ Some result.column }
        ensures lending { lending_at self.old c ≡ Some result.lending }
        ensures one { result.count ≡ 1 }
        ensures held { HoldsOtherwise self.old self.new c None }
        ensures number { length self.new + 1 ≡ length self.old }
        ensures few { length self.new < 4 }
    {
        let k = place_of(self.places.as_slice(), c).unwrap();
        self.places.remove(k).into_share().unwrap()
    }

    /// Writes the cell of a point of the space of the column of a number, a column of its own.
    pub fn set(&mut self, c: u32, p: u32, v: u64)
        requires in_space { IfSome (held_at self.old c) (λ x. IsTrue (has_point x.space p)) }
        requires is_held { IsSome (held_at self.old c) }
        requires own { lending_at self.old c ≡ None }
        ensures held { HoldsOtherwise self.old self.new c (option_map (λ x. with_cell x p v) (held_at self.old c)) }
        ensures own { lending_at self.new c ≡ None }
        ensures number { length self.new ≡ length self.old }
    {
        let mut column = self.take(c);
        column.set(p, v);
        self.add(c, column);
    }

    /// Adds to the cell of a point of the space of the column of a number, a column of its own, modulo 2^64.
    pub fn add_to(&mut self, c: u32, p: u32, v: u64)
        requires in_space { IfSome (held_at self.old c) (λ x. IsTrue (has_point x.space p)) }
        requires is_held { IsSome (held_at self.old c) }
        requires own { lending_at self.old c ≡ None }
        ensures held { HoldsOtherwise self.old self.new c
            (option_map (λ x. with_cell x p ((cell_of x p + v) % 2 ^ 64)) (held_at self.old c)) }
        ensures own { lending_at self.new c ≡ None }
        ensures number { length self.new ≡ length self.old }
    {
        let mut column = self.take(c);
        column.add(p, v);
        self.add(c, column);
    }
}

impl Place {
    ghost use Rattle.std.specs.Prelude.{◌≡◌, ℕ, Some, None, IsSome, option_map};
    ghost use Rattle.std.specs.Option.{option_copied};
    ghost use Rattle.index_spaces.specs.Held.{HeldEntry, is_numbered};

    /// A place that a column has.
    fn own(number: u32, column: Column) -> Place
        ensures { result ≡ Some (record { «number» = number; «column» = column; share = None }) }
    {
        Place {
            entry: Entry::Own(number, column),
        }
    }

    /// A place that a share of a column has.
    fn share(number: u32, share: ColumnShare) -> Place
        requires { share.count ≡ 1 }
        ensures { result ≡ Some (record { «number» = number; column = share.column; «share» = Some share.lending }) }
    {
        Place {
            entry: Entry::Share(number, share),
        }
    }

    /// Whether it has this number.
    fn has_number(&self, c: u32) -> bool
        ensures { result ≡ is_numbered c self.now }
    {
        match &self.entry {
            Entry::Free => false,
            Entry::Own(number, _) => *number == c,
            Entry::Share(number, _) => *number == c,
        }
    }

    /// What a reader sees of its column.
    fn view(&self) -> Option<ColumnView<'_>>
        ensures { result ≡ option_map (λ (e : HeldEntry). e.column) self.now }
    {
        match &self.entry {
            Entry::Free => None,
            Entry::Own(_, column) => Some(column.view()),
            Entry::Share(_, share) => Some(share.view()),
        }
    }

    /// Its column, where that is no share.
    fn column(&self) -> Option<&Column>
        ensures own { (e : HeldEntry) → self.now ≡ Some e → e.share ≡ None → option_copied result ≡ Some e.column }
        ensures share { (e : HeldEntry) → self.now ≡ Some e → IsSome e.share → result ≡ None }
    {
        match &self.entry {
            Entry::Free => None,
            Entry::Own(_, column) => Some(column),
            Entry::Share(_, _) => None,
        }
    }

    /// Its number and its column, where that is no share.
    fn into_numbered(self) -> Option<(u32, Column)>
        ensures { (e : HeldEntry) → self ≡ Some e → e.share ≡ None → result ≡ Some (e.number, e.column) }
    {
        match self.entry {
            Entry::Free => None,
            Entry::Own(number, column) => Some((number, column)),
            Entry::Share(_number, _share) => None,
        }
    }

    /// The same without the number.
    fn into_own(self) -> Option<Column>
        ensures { (e : HeldEntry) → self ≡ Some e → e.share ≡ None → result ≡ Some e.column }
    {
        match self.entry {
            Entry::Free => None,
            Entry::Own(_number, column) => Some(column),
            Entry::Share(_number, _share) => None,
        }
    }

    /// Its share.
    fn into_share(self) -> Option<ColumnShare>
        ensures { (e : HeldEntry) (lending : ℕ) → self ≡ Some e → e.share ≡ Some lending
            → result ≡ Some (record { column = e.column; «lending» = lending; count = 1 }) }
    {
        match self.entry {
            Entry::Free => None,
            Entry::Own(_number, _column) => None,
            Entry::Share(_number, share) => Some(share),
        }
    }
}

/// Where the column of a number stands.
fn place_of(places: &[Place], c: u32) -> Option<usize>
    requires { AreEntries places.now }
    ensures { MatchOption result (held_at (entries places.now) c ≡ None) (StandsAt places.now c) }
{
    for k in 0..places.len() {
        if places[k].has_number(c) {
            return Some(k);
        }
    }
    None
}
