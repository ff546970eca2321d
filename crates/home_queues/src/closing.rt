//! How the parts are counted in the end: each deque's owner gets all shares in it back, and takes what is
//! left.
ghost use Rattle.std.specs.Prelude.{◌≡◌, ℕ, ◌+◌, ◌^◌, ◌<◌, ◌≤◌, All, [], length, slice_index};
ghost use Rattle.crossbeam_deque.specs.Handles.{worker_view};
ghost use Rattle.basics.specs.Sums.{total, only};
ghost use Rattle.home_queues.specs.Parts.{IsOwnerWith, IsStealRight, stolen};
ghost use Rattle.home_queues.specs.Closing.{IsOwner, Meets, Gained, put_by, taken_by, row_taken, AllHave, AllMeet};
ghost use Rattle.home_queues.specs.Spreading.{IsRoom, Spread};
ghost use Rattle.home_queues.specs.Counts.{no_counts};
ghost use Rattle.home_queues.specs.Hints.{IsListOf};

use crate::counts::Counts;
use crate::deque::{Owner, StealRight, give_back, take_last};
use crate::home_hints::HomeHints;
use crate::room::push_within;
use crate::tally::PartCounts;

/// Takes the parts apart, in order: a part is the owner of a deque, a row of rights to steal, and counts.
pub(crate) fn spread(
    parts: Vec<HomeHints>,
    owners: &mut Vec<Owner>,
    rows: &mut Vec<Vec<StealRight>>,
    counts: &mut Vec<PartCounts>,
    lines: u32,
)
    requires list { IsListOf lines parts.items }
    requires owners { IsRoom owners.old }
    requires rows { IsRoom rows.old }
    requires counts { IsRoom counts.old }
    ensures spread { Spread lines parts.items [] owners.new.items rows.new.items counts.new.items }
{
    for part in parts {
        let HomeHints {
            number: _,
            lines: _,
            own,
            rights,
            pushed,
            taken,
            counts: _,
        } = part;
        push_within(owners, own);
        push_within(rows, rights);
        push_within(counts, PartCounts { pushed, taken });
    }
}

/// Gives each owner back the share that the row has in its deque.
pub(crate) fn gather(owners: &mut Vec<Owner>, row: Vec<StealRight>, lines: u32)
    requires owners { All (IsOwner lines) owners.old.items }
    requires row { All (IsStealRight lines) row.items }
    requires meets { Meets row.items owners.old.items × (length row.items ≡ length owners.old.items) }
    ensures owners { All (IsOwner lines) owners.new.items }
    ensures gained { Gained 0 owners.old.items owners.new.items }
    ensures put { (h : ℕ → ℕ) →
        total (put_by h) owners.new.items ≡ total (put_by h) owners.old.items }
    ensures taken { (h : ℕ → ℕ) → total (taken_by h) owners.new.items
        ≡ total (taken_by h) owners.old.items + total (stolen h) row.items }
{
    let mut row = row;
    while let Some(right) = row.pop() {
        let owner = &mut owners[row.len()];
        give_back(owner, right);
    }
}

/// Gives each owner back the shares that the rows have in its deque.
pub(crate) fn gather_all(owners: &mut Vec<Owner>, rows: Vec<Vec<StealRight>>, lines: u32)
    requires owners { All (IsOwner lines) owners.old.items }
    requires shares { AllHave 1 owners.old.items }
    requires rows { AllMeet lines rows.items owners.old.items }
    requires eight { length rows.items ≡ 8 }
    ensures owners { All (IsOwner lines) owners.new.items }
    ensures shares { AllHave 9 owners.new.items }
    ensures len { length owners.new.items ≡ length owners.old.items }
    ensures put { (h : ℕ → ℕ) →
        total (put_by h) owners.new.items ≡ total (put_by h) owners.old.items }
    ensures taken { (h : ℕ → ℕ) → total (taken_by h) owners.new.items
        ≡ total (taken_by h) owners.old.items + total (row_taken h) rows.items }
{
    let mut rows = rows;
    while let Some(row) = rows.pop() {
        gather(owners, row, lines);
    }
}

/// Takes what is left in a deque, and counts it.
pub(crate) fn drain(owner: Owner, left: &mut Counts, lines: u32)
    requires owner { IsOwnerWith lines 9 owner }
    requires most { length (worker_view owner).put ≤ 2 ^ 60 }
    requires left { (length left.old.each ≡ lines) × (left.old.all ≤ 2 ^ 63) }
    ensures len { length left.new.each ≡ lines }
    ensures all { left.new.all ≤ left.old.all + 2 ^ 60 }
    ensures counted { (x : ℕ) → x < lines → slice_index left.new.each x + taken_by (only x) owner
        ≡ slice_index left.old.each x + put_by (only x) owner }
{
    let mut owner = owner;
    while let Some(line) = take_last(&mut owner) {
        left.one_more(line);
    }
}

/// Takes what is left in all deques, and counts it.
pub(crate) fn drain_all(owners: Vec<Owner>, left: &mut Counts, lines: u32)
    requires owners { All (IsOwner lines) owners.items }
    requires shares { AllHave 9 owners.items × (length owners.items ≤ 8) }
    requires left { left.old ≡ no_counts lines }
    ensures len { length left.new.each ≡ lines }
    ensures counted { (x : ℕ) → x < lines → slice_index left.new.each x + total (taken_by (only x)) owners.items
        ≡ total (put_by (only x)) owners.items }
{
    let mut owners = owners;
    while let Some(owner) = owners.pop() {
        drain(owner, left, lines);
    }
}
