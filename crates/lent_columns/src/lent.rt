//! A column that is lent.

use index_spaces::column::Column;
use index_spaces::shares::{ColumnLender, ColumnShare};
use std::marker::Model;

/// A column that is lent, of which so many readers have a share.
#[derive(Drop)]
pub struct Lent {
    lender: ColumnLender,
    // The shares that no reader has.
    rest: ColumnShare,
    readers: u32,
}

impl Model for Lent {
    ghost use Rattle.std.specs.Prelude.{◌≡◌, ◌+◌, ◌^◌, ◌<◌};
    ghost use Rattle.lent_columns.specs.Shown.{LentValue};

    ghost Value = { LentValue };

    ghost view = { λ a. record { column = a.lender.column; lending = record { number = a.lender.lending; readers = a.readers } } };

    ghost invariant = { λ a. record {
      column : a.rest.column ≡ a.lender.column;
      lending : a.rest.lending ≡ a.lender.lending;
      all : a.rest.count + a.readers ≡ 2 ^ 63;
      some : 0 < a.readers;
    } };
}

/// What is left of a column that is lent once a share is back: the lending, or with the last one the
/// column.
#[derive(Drop)]
pub(crate) enum Left {
    Lent(Lent),
    Home(Column),
}

impl Lent {
    ghost use Rattle.std.specs.Prelude.{◌≡◌, ◌+◌, ◌^◌, ◌<◌};
    ghost use Rattle.lent_columns.specs.Left.{IsLeft};

    /// Lends a column to a first reader.
    pub(crate) fn of(column: Column) -> (Lent, ColumnShare)
        ensures lent { (result.0.column ≡ column) × (result.0.lending.readers ≡ 1) }
        ensures share { result.1 ≡ record { «column» = column; lending = result.0.lending.number; count = 1 } }
    {
        let (lender, mut rest) = column.lend();
        let one = rest.split_one();
        let lent = Lent {
            lender,
            rest,
            readers: 1,
        };
        (lent, one)
    }

    /// Lends it to one reader more.
    pub(crate) fn share(self) -> (Lent, ColumnShare)
        requires few { self.lending.readers + 1 < 2 ^ 32 }
        ensures lent { result.0 ≡ record { column = self.column; lending = record { number = self.lending.number; readers = self.lending.readers + 1 } } }
        ensures share { result.1 ≡ record { column = self.column; lending = self.lending.number; count = 1 } }
    {
        let Lent {
            lender,
            mut rest,
            readers,
        } = self;
        let one = rest.split_one();
        let lent = Lent {
            lender,
            rest,
            readers: readers + 1,
        };
        (lent, one)
    }

    /// Takes back the share of a reader.
    pub(crate) fn join(self, share: ColumnShare) -> Left
        requires one { share.count ≡ 1 }
        requires same { share.lending ≡ self.lending.number }
        ensures { IsLeft self result }
    {
        let Lent {
            lender,
            mut rest,
            readers,
        } = self;
        rest.join(share);
        if readers == 1 {
            return Left::Home(lender.reclaim(rest));
        }
        Left::Lent(Lent {
            lender,
            rest,
            readers: readers - 1,
        })
    }
}
