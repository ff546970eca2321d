//! How the parts are made.
ghost use Rattle.std.specs.Prelude.{◌≡◌, ◌-◌, ◌<◌, ◌≤◌, All, IfOk, length};
ghost use Rattle.home_queues.specs.Parts.{deques_of};
ghost use Rattle.home_queues.specs.Hints.{IsNew, IsListOf};
ghost use Rattle.home_queues.specs.Opening.{IsFresh, IsNewRight, IsRow, first_shares, owner_deques};

use crate::counts::Counts;
use crate::deque::{Owner, StealRight, new_owner, new_right};
use crate::deque_counts::DequeCounts;
use crate::home_hints::HomeHints;
use std::alloc::{AllocError, Global};

/// How many parts there are, whatever the number of workers.
pub(crate) const PARTS: u32 = 8;

/// An owner for each deque.
pub(crate) fn new_owners(alloc: Global, lines: u32) -> Result<Vec<Owner>, AllocError>
    requires { 0 < lines }
    ensures eight { IfOk result (λ v. length v.items ≡ 8) }
    ensures fresh { IfOk result (λ v. All (IsFresh lines 9) v.items) }
{
    let mut owners = Vec::with_capacity(alloc, PARTS as usize)?;
    for _owner in 0..PARTS {
        let owner = new_owner(alloc, lines)?;
        owners.push(owner)?;
    }
    Ok(owners)
}

/// A right to steal from each deque.
pub(crate) fn new_row(
    alloc: Global,
    owners: &mut Vec<Owner>,
    lines: u32,
) -> Result<Vec<StealRight>, AllocError>
    requires lines { 0 < lines }
    requires fresh { All (IsFresh lines (first_shares owners.old.items)) owners.old.items
        × (1 < first_shares owners.old.items) }
    ensures deques { IfOk result (λ _. owner_deques owners.new.items ≡ owner_deques owners.old.items) }
    ensures fresh { IfOk result
        (λ _. All (IsFresh lines (first_shares owners.old.items - 1)) owners.new.items) }
    ensures row { IfOk result (λ v. IsRow lines (owner_deques owners.old.items) v) }
{
    let mut row = Vec::with_capacity(alloc, owners.len())?;
    for k in 0..owners.len() {
        let owner = &mut owners[k];
        row.push(new_right(owner)?)?;
    }
    Ok(row)
}

/// A row of rights to steal for each part.
pub(crate) fn new_rows(
    alloc: Global,
    owners: &mut Vec<Owner>,
    lines: u32,
) -> Result<Vec<Vec<StealRight>>, AllocError>
    requires lines { 0 < lines }
    requires fresh { All (IsFresh lines 9) owners.old.items }
    requires some { 0 < length owners.old.items }
    ensures deques { IfOk result (λ _. owner_deques owners.new.items ≡ owner_deques owners.old.items) }
    ensures fresh { IfOk result (λ _. All (IsFresh lines 1) owners.new.items) }
    ensures rows { IfOk result
        (λ v. (length v.items ≡ 8) × All (IsRow lines (owner_deques owners.old.items)) v.items) }
{
    let mut rows = Vec::with_capacity(alloc, PARTS as usize)?;
    for _row in 0..PARTS {
        rows.push(new_row(alloc, owners, lines)?)?;
    }
    Ok(rows)
}

/// The parts, each with its own deque and a row of rights to steal.
pub(crate) fn new_parts(
    alloc: Global,
    lines: u32,
    owners: Vec<Owner>,
    rows: Vec<Vec<StealRight>>,
) -> Result<Vec<HomeHints>, AllocError>
    requires owners { (length owners.items ≡ 8) × All (IsFresh lines 1) owners.items }
    requires rows { (length rows.items ≡ 8) × All (IsRow lines (owner_deques owners.items)) rows.items }
    ensures list { IfOk result (λ v. IsListOf lines v.items) }
    ensures new { IfOk result (λ v. All (IsNew lines) v.items) }
{
    let mut parts = Vec::with_capacity(alloc, PARTS as usize)?;
    let mut rows = rows;
    let mut number = 0;
    for own in owners {
        let Some(rights) = rows.pop() else {
            unreachable!()
        };
        let pushed = Counts::new(alloc, lines)?;
        let taken = Counts::new(alloc, lines)?;
        parts.push(HomeHints {
            number,
            lines,
            own,
            rights,
            pushed,
            taken,
            counts: DequeCounts::none(),
        })?;
        number += 1;
    }
    Ok(parts)
}
