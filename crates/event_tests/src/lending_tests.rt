//! Values and columns that two threads read by shares of their own, and that are changed once both are back.

ghost use Rattle.std.specs.Prelude.{◌≡◌};

use index_spaces::column::{Column, ColumnParts};
use index_spaces::held::Held;
use index_spaces::shares::ColumnShare;
use index_spaces::space::Space;
use shared_parts::{ReadShare, lend, reclaim};
use std::test::Fail;
use std::thread::join;

/// The value, and the share by which it was read.
fn read(share: ReadShare<u64>) -> (u64, ReadShare<u64>)
    ensures value { result.0 ≡ share.value }
    ensures share { result.1 ≡ share }
{
    let value = *share.get();
    (value, share)
}

#[test]
fn two_threads_read_what_is_lent(rt: HostRuntime) -> Result<(), Fail> {
    let (lender, mut all) = lend(Box::new(rt.alloc(), 7)?);
    let one = all.split_one();
    let ((first, mut all), (second, one)) = join(&rt, move || read(all), move || read(one));
    all.join(one);
    let mut whole = reclaim(lender, all);
    *whole += first + second;
    assert_eq!(rt; *whole, 21);
    Ok(())
}

/// The cell of a point of a column that is held by a share, and the share.
fn read_cell(share: ColumnShare, p: u32) -> (Option<u64>, ColumnShare)
    requires one { share.count ≡ 1 }
    ensures lending { result.1.lending ≡ share.lending }
    ensures one { result.1.count ≡ 1 }
{
    let mut held = Held::none();
    held.add_share(2, share);
    let cell = match held.view(2) {
        Some(column) => column.get(p),
        None => None,
    };
    (cell, held.take_share(2))
}

#[test]
fn two_threads_read_a_column_that_is_lent(rt: HostRuntime) -> Result<(), Fail> {
    let alloc = rt.alloc();
    let space = Space::new(alloc, &[(4, 5), (9, 9)])?;
    let cells = vec![in alloc; 7; space.size() as usize]?;
    let column = Column::from_parts(Box::new(alloc, ColumnParts { space, cells })?);
    let (lender, mut all) = column.lend();
    let one = all.split_one();
    let other = all.split_one();
    let ((first, one), (second, other)) = join(
        &rt,
        move || read_cell(one, 9),
        move || read_cell(other, 6),
    );
    all.join(one);
    all.join(other);
    let column = lender.reclaim(all);
    assert_eq!(rt; first, Some(7));
    assert_eq!(rt; second, None);
    assert_eq!(rt; column.at(2), 7);
    Ok(())
}
