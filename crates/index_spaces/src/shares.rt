//! Columns that are lent by shares, so that several lines read one side by side.

ghost use Rattle.std.specs.Prelude.{◌≡◌, ◌^◌};

use crate::column::{Column, ColumnParts, ColumnView};
use shared_parts::{Lender, ReadShare, lend, reclaim};
use std::alloc::Global;
use std::marker::Model;

/// The right to have a column back that is lent. Where it is dropped, the column is never freed.
#[derive(Drop)]
pub struct ColumnLender {
    lender: Lender<ColumnParts, Global>,
}

impl Model for ColumnLender {
    ghost use Rattle.std.specs.Prelude.{◌≡◌, length};
    ghost use Rattle.index_spaces.specs.Space.{space_size};
    ghost use Rattle.index_spaces.specs.Shares.{LenderValue};

    ghost Value = { LenderValue };

    ghost view = { λ a. record {
      column = record { space = a.lender.value.space; cells = a.lender.value.cells.items };
      lending = a.lender.lending;
    } };

    ghost invariant = { λ a. length a.lender.value.cells.items ≡ space_size a.lender.value.space };
}

/// Shares of a column that is lent: the right to read it, for as long as they are held. A column is
/// lent by 2^63 shares, and this is `count` of them. It is one pointer.
#[derive(Drop)]
pub struct ColumnShare {
    share: ReadShare<ColumnParts>,
}

impl Model for ColumnShare {
    ghost use Rattle.std.specs.Prelude.{◌≡◌, length};
    ghost use Rattle.index_spaces.specs.Space.{space_size};
    ghost use Rattle.index_spaces.specs.Shares.{ShareValue};

    ghost Value = { ShareValue };

    ghost view = { λ a. record {
      column = record { space = a.share.value.space; cells = a.share.value.cells.items };
      lending = a.share.lending;
      count = a.share.count;
    } };

    ghost invariant = { λ a. length a.share.value.cells.items ≡ space_size a.share.value.space };
}

impl Column {
    ghost use Rattle.std.specs.Prelude.{◌≡◌, ◌^◌};

    /// Lends the column: the right to have it back, and all shares of it.
    pub fn lend(self) -> (ColumnLender, ColumnShare)
        ensures column { (result.0.column ≡ self) × (result.1.column ≡ self) }
        ensures all { (result.1.lending ≡ result.0.lending) × (result.1.count ≡ 2 ^ 63) }
    {
        let (lender, share) = lend(self.into_parts());
        (ColumnLender { lender }, ColumnShare { share })
    }
}

impl ColumnLender {
    ghost use Rattle.std.specs.Prelude.{◌≡◌, ◌^◌};

    /// The column again that was lent, for all shares of it.
    pub fn reclaim(self, all: ColumnShare) -> Column
        requires { (all.lending ≡ self.lending) × (all.count ≡ 2 ^ 63) }
        ensures { result ≡ self.column }
    {
        Column::from_parts(reclaim(self.lender, all.share))
    }
}

impl ColumnShare {
    ghost use Rattle.std.specs.Prelude.{◌≡◌, ◌+◌, ◌-◌, ◌^◌, ◌<◌, ◌≤◌};

    /// What a reader sees of the column.
    pub fn view(&self) -> ColumnView<'_>
        ensures { result ≡ self.now.column }
    {
        ColumnView {
            parts: self.share.get(),
        }
    }

    /// Takes one share off these.
    pub fn split_one(&mut self) -> ColumnShare
        requires several { (1 < self.old.count) × (self.old.count ≤ 2 ^ 63) }
        ensures left { self.new ≡ record self.old { count = self.old.count - 1 } }
        ensures one { result ≡ record self.old { count = 1 } }
    {
        ColumnShare {
            share: self.share.split_one(),
        }
    }

    /// Puts other shares of the same lending to these.
    pub fn join(&mut self, other: ColumnShare)
        requires same { (other.lending ≡ self.old.lending) × (0 < self.old.count) × (self.old.count + other.count ≤ 2 ^ 63) }
        ensures joined { self.new ≡ record self.old { count = self.old.count + other.count } }
    {
        self.share.join(other.share);
    }
}
