//! Intervals, put together.

ghost use Rattle.std.specs.Prelude.{◌≡◌, ◌<◌, ◌≤◌, ◌||◌, ◌⊎◌, ◌^◌, ℕ, IfOk, IsTrue, Contains, length, get_or, false};
ghost use Rattle.std.specs.List.Sorted.{IsNonDecreasingBy};
ghost use Rattle.index_spaces.specs.Space.{has_point, interval_has, IsSpace};
ghost use Rattle.space_unions.specs.Ascending.{AscendTo, Absorbs, IsNext};

use std::alloc::{AllocError, Global};

/// The intervals of the points that lie in one of two lists or in both.
pub(crate) fn merged(
    alloc: Global,
    first: &[(u32, u32)],
    second: &[(u32, u32)],
) -> Result<Vec<(u32, u32)>, AllocError>
    requires first { IsSpace first.now }
    requires second { IsSpace second.now }
    ensures { IfOk result (λ v. (p : ℕ) → has_point v.items p ≡ (has_point first.now p || has_point second.now p)) }
{
    let mut merged = Vec::new(alloc);
    let mut a = 0;
    let mut b = 0;
    let mut last = if is_first_next(first, second, 0, 0) {
        first[0]
    } else {
        second[0]
    };
    while a < first.len() || b < second.len() {
        if is_first_next(first, second, a, b) {
            last = absorb(&mut merged, last, first[a])?;
            a += 1;
        } else {
            last = absorb(&mut merged, last, second[b])?;
            b += 1;
        }
    }
    merged.push(last)?;
    Ok(merged)
}

/// The intervals of the points that lie in some intervals, which stand by their first points.
pub(crate) fn merged_in_order(
    alloc: Global,
    intervals: &[(u32, u32)],
) -> Result<Vec<(u32, u32)>, AllocError>
    requires some { 0 < length intervals.now }
    requires run_up { (i : ℕ × ℕ) → Contains intervals.now i → i.0 ≤ i.1 }
    requires sorted { IsNonDecreasingBy (λ (i : ℕ × ℕ). i.0) intervals.now }
    ensures { IfOk result (λ v. (p : ℕ) → has_point v.items p ≡ has_point intervals.now p) }
{
    let mut merged = Vec::new(alloc);
    let mut last = intervals[0];
    for interval in intervals {
        last = absorb(&mut merged, last, *interval)?;
    }
    merged.push(last)?;
    Ok(merged)
}

/// Whether the interval at `a` of the first list is the next one: that at `b` of the second does not
/// begin below it.
fn is_first_next(first: &[(u32, u32)], second: &[(u32, u32)], a: usize, b: usize) -> bool
    requires { (a < length first.now) ⊎ (b < length second.now) }
    ensures first { IsTrue result → IsNext first.now second.now a b }
    ensures second { result ≡ false → IsNext second.now first.now b a }
{
    if a >= first.len() {
        return false;
    }
    if b >= second.len() {
        return true;
    }
    first[a].0 <= second[b].0
}

/// Puts an interval that begins no lower into the last one, where they meet or touch. Else the last one
/// is done, and this one is the last.
fn absorb(
    merged: &mut Vec<(u32, u32)>,
    last: (u32, u32),
    next: (u32, u32),
) -> Result<(u32, u32), AllocError>
    requires ascending { AscendTo 0 merged.old.items last.0 }
    requires last { last.0 ≤ last.1 }
    requires next { (last.0 ≤ next.0) × (next.0 ≤ next.1) }
    ensures { IfOk result (λ now. Absorbs merged.old.items last next merged.new.items now) }
{
    if next.0 > last.1 && next.0 - last.1 > 1 {
        merged.push(last)?;
        return Ok(next);
    }
    Ok((last.0, last.1.max(next.1)))
}
