//! Unions of spaces.
#![tactic(auto)]

ghost use Rattle.std.specs.Prelude.{◌≡◌, ◌<◌, ◌≤◌, ◌||◌, ℕ, IfOk, Contains, length};
ghost use Rattle.std.specs.List.Sorted.{IsNonDecreasingBy};
ghost use Rattle.index_spaces.specs.Space.{has_point};

mod merging;

use self::merging::{merged, merged_in_order};
use index_spaces::NoMemory;
use index_spaces::limits::{MAX_POINTS_OF_THREE, SpaceLimits};
use index_spaces::space::Space;
use std::alloc::Global;

/// The space of the points that are in one of two spaces or in both. It may have more intervals than a
/// space that is declared.
pub fn union(alloc: Global, first: &Space, second: &Space) -> Result<Space, NoMemory>
    ensures { IfOk result (λ s. (p : ℕ) → has_point s p ≡ (has_point first.now p || has_point second.now p)) }
{
    match merged(alloc, first.intervals(), second.intervals()) {
        Ok(intervals) => space_of(alloc, &intervals),
        Err(_) => Err(NoMemory),
    }
}

/// The space of the points of these intervals, which stand by their first points. It may have more
/// intervals than a space that is declared.
pub fn space_of_sorted(alloc: Global, intervals: &[(u32, u32)]) -> Result<Space, NoMemory>
    requires some { 0 < length intervals.now }
    requires run_up { (i : ℕ × ℕ) → Contains intervals.now i → i.0 ≤ i.1 }
    requires sorted { IsNonDecreasingBy (λ (i : ℕ × ℕ). i.0) intervals.now }
    ensures { IfOk result (λ s. (p : ℕ) → has_point s p ≡ has_point intervals.now p) }
{
    match merged_in_order(alloc, intervals) {
        Ok(merged) => space_of(alloc, &merged),
        Err(_) => Err(NoMemory),
    }
}

/// A copy of a space.
pub fn copy_of(alloc: Global, space: &Space) -> Result<Space, NoMemory>
    ensures { IfOk result (λ s. s ≡ space.now) }
{
    space_of(alloc, space.intervals())
}

/// The space of these intervals.
fn space_of(alloc: Global, intervals: &[(u32, u32)]) -> Result<Space, NoMemory>
    ensures { IfOk result (λ s. s ≡ intervals.now) }
{
    // A space numbers its intervals by 32 bits.
    if intervals.len() > 4_294_967_295 {
        return Err(NoMemory);
    }
    let limits = SpaceLimits {
        intervals: u32::MAX,
        points: MAX_POINTS_OF_THREE,
    };
    match Space::within(alloc, limits, intervals) {
        Ok(space) => Ok(space),
        Err(_) => Err(NoMemory),
    }
}
