//! A space: a set of numbers, kept as intervals.

ghost use Rattle.std.specs.Prelude.{ℕ, ◌<◌, ◌≤◌, length};
ghost use Rattle.std.specs.List.Sorted.{IsNonDecreasing, IsPartitionPoint};
ghost use Rattle.index_spaces.specs.Space.{IsSpace};

mod faults;
mod merges;

use self::faults::fault_of;
use self::merges::{covers, meet, overlaps};
use crate::NoMemory;
use crate::limits::{MAX_INTERVALS, MAX_POINTS, SpaceLimits};
use smallvec::SmallVec;
use std::alloc::{AllocError, Global};
use std::marker::Model;

/// Why some pairs make no space.
#[derive(Clone, Copy, Debug, PartialEq, Eq)]
pub enum SpaceFault {
    /// There is no pair.
    Empty,
    /// The first number of this pair is above its second.
    Reversed(u32),
    /// The first number of this pair is not at least two above the second number of the one before.
    Order(u32),
    /// There are more pairs than a space may have intervals.
    Many,
    /// There are more points than a space may have.
    Large,
    /// Memory ran out.
    NoMemory,
}

/// A set of points, seen as its closed intervals, which ascend and do not touch. Most spaces have one
/// interval, which takes no allocation.
#[derive(Drop)]
pub struct Space {
    intervals: SmallVec<(u32, u32), 1>,
    /// The rank of each interval's first point.
    ranks: SmallVec<u32, 1>,
    size: u64,
}

impl Model for Space {
    ghost use Rattle.std.specs.Prelude.{ℕ, List};
    ghost use Rattle.index_spaces.specs.Counted.{IsCounted};

    ghost Value = { List (ℕ × ℕ) };

    ghost view = { λ a. a.intervals.items };

    ghost invariant = { λ a. IsCounted a.intervals.items a.ranks.items a.size };
}

impl Space {
    ghost use Rattle.std.specs.Prelude.{◌≡◌, ◌≢◌, ◌<◌, ◌≤◌, ◌^◌, ◌↔◌, length, IsTrue, IfOk, OnOk, IfErr, IfSome, IsSome, is_some, true, ◌&&◌, ℕ, [], ◌∷◌};
    ghost use Rattle.std.specs.List.{HoldsAt};
    ghost use Rattle.index_spaces.specs.Space.{interval_has, has_point, space_size, rank, point_at, IsSpace, IsWithin, Meet};
    ghost use Rattle.index_spaces.specs.SpaceFault.{space_fault, space_fault_in};
    ghost use Rattle.index_spaces.specs.declared.limits.TheConstants.{MAX_POINTS_OF_THREE};
    ghost use Rattle.index_spaces.specs.Run.{IsRun, IsRunAt};

    /// The space of these closed intervals, each a pair of its least and its greatest point. What
    /// is wrong comes in this order: there is no pair, the first pair that is reversed or out of
    /// order, there are more than 64 pairs, there are more than 1,048,576 points.
    pub fn new(alloc: Global, pairs: &[(u32, u32)]) -> Result<Space, SpaceFault>
        requires { length pairs.now < 2 ^ 32 }
        ensures intervals { IfOk result (λ s. s ≡ pairs.now) }
        ensures faultless { OnOk result (space_fault pairs.now ≡ None) }
        ensures fault { IfErr result (λ e. e ≢ SpaceFault.NoMemory → space_fault pairs.now ≡ Some e) }
        ensures memory { result ≡ Err SpaceFault.NoMemory → space_fault pairs.now ≡ None }
    {
        let limits = SpaceLimits {
            intervals: MAX_INTERVALS,
            points: MAX_POINTS,
        };
        Space::within(alloc, limits, pairs)
    }

    /// The same within other limits.
    pub fn within(
        alloc: Global,
        limits: SpaceLimits,
        pairs: &[(u32, u32)],
    ) -> Result<Space, SpaceFault>
        requires few { length pairs.now < 2 ^ 32 }
        requires most { limits.points ≤ MAX_POINTS_OF_THREE }
        ensures intervals { IfOk result (λ s. s ≡ pairs.now) }
        ensures faultless { OnOk result (space_fault_in limits pairs.now ≡ None) }
        ensures fault { IfErr result (λ e. e ≢ SpaceFault.NoMemory → space_fault_in limits pairs.now ≡ Some e) }
        ensures memory { result ≡ Err SpaceFault.NoMemory → space_fault_in limits pairs.now ≡ None }
    {
        match fault_of(limits, pairs) {
            Some(fault) => Err(fault),
            None => Space::copy_of(alloc, pairs).map_err(|_| SpaceFault::NoMemory),
        }
    }

    /// The space of a copy of these intervals.
    pub(crate) fn copy_of(alloc: Global, intervals: &[(u32, u32)]) -> Result<Space, AllocError>
        requires is_space { IsSpace intervals.now }
        requires few { space_size intervals.now ≤ MAX_POINTS_OF_THREE }
        ensures { IfOk result (λ s. s ≡ intervals.now) }
    {
        match intervals {
            [only] => Ok(Space::of_one(alloc, *only)),
            _ => Space::counted(alloc, intervals),
        }
    }

    /// The space of one interval.
    fn of_one(alloc: Global, interval: (u32, u32)) -> Space
        requires is_space { IsSpace (interval ∷ []) }
        requires few { space_size (interval ∷ []) ≤ MAX_POINTS_OF_THREE }
        ensures { result ≡ interval ∷ [] }
    {
        Space {
            intervals: SmallVec::from_buf(alloc, [interval]),
            ranks: SmallVec::from_buf(alloc, [0]),
            size: u64::from(interval.1 - interval.0) + 1,
        }
    }

    /// The space of a copy of these intervals.
    fn counted(alloc: Global, intervals: &[(u32, u32)]) -> Result<Space, AllocError>
        requires is_space { IsSpace intervals.now }
        requires few { space_size intervals.now ≤ MAX_POINTS_OF_THREE }
        ensures { IfOk result (λ s. s ≡ intervals.now) }
    {
        let copy = SmallVec::from_slice(alloc, intervals)?;
        let mut ranks = SmallVec::with_capacity(alloc, intervals.len())?;
        let mut size = 0u64;
        for interval in intervals {
            ranks.push(size as u32)?;
            size += u64::from(interval.1 - interval.0) + 1;
        }
        Ok(Space {
            intervals: copy,
            ranks,
            size,
        })
    }

    /// How many points it has.
    pub fn size(&self) -> u64
        ensures size { result ≡ space_size self.now }
        ensures at_least { 1 ≤ result }
        ensures at_most { result ≤ MAX_POINTS_OF_THREE }
    {
        self.size
    }

    /// Its intervals, in order.
    pub fn intervals(&self) -> &[(u32, u32)]
        ensures intervals { result.now ≡ self.now }
        ensures is_space { IsSpace self.now }
    {
        self.intervals.as_slice()
    }

    /// Whether this point is in it.
    pub fn contains(&self, p: u32) -> bool
        ensures { result ≡ has_point self.now p }
    {
        self.place_of(p).is_some()
    }

    /// How many of its points are below this one, or None where this one is not in it.
    pub fn rank(&self, p: u32) -> Option<u32>
        ensures in_space { is_some result ≡ has_point self.now p }
        ensures rank { IfSome result (λ r. r ≡ rank self.now p) }
        ensures below { IfSome result (λ r. r < space_size self.now) }
    {
        let k = self.place_of(p)?;
        let ranks = self.ranks.as_slice();
        let intervals = self.intervals.as_slice();
        Some(ranks[k] + (p - intervals[k].0))
    }

    /// The point that has so many points below it.
    pub fn point(&self, r: u32) -> u32
        requires { r < space_size self.now }
        ensures { result ≡ point_at self.now r }
    {
        let ranks = self.ranks.as_slice();
        let intervals = self.intervals.as_slice();
        let k = count_up_to(ranks, r) - 1;
        intervals[k].0 + (r - ranks[k])
    }

    /// The rank of the first point of an interval that lies in the space. The other points of the
    /// interval have the ranks after it.
    pub fn start_of(&self, interval: (u32, u32)) -> u32
        requires { IsRun self.now interval }
        ensures { IsRunAt self.now interval result }
    {
        let _ = self.intervals();
        self.rank(interval.0).unwrap()
    }

    /// Whether each of its points is in the other.
    pub fn is_within(&self, other: &Space) -> bool
        ensures { IsTrue result ↔ IsWithin self.now other.now }
    {
        covers(other.intervals(), self.intervals())
    }

    /// Whether some point is in both.
    pub fn meets(&self, other: &Space) -> bool
        ensures { IsTrue result ↔ Meet self.now other.now }
    {
        meet(self.intervals(), other.intervals())
    }

    /// The space of the points that are in both, or None where there is none. It may have more
    /// intervals than `new` takes.
    pub fn both(&self, alloc: Global, other: &Space) -> Result<Option<Space>, NoMemory>
        ensures some { IfOk result (λ found. IsSome found ↔ Meet self.now other.now) }
        ensures points { IfOk result (λ found. IfSome found (λ s. (p : ℕ) →
            has_point s p ≡ (has_point self.now p && has_point other.now p))) }
    {
        self.intersection(alloc, other).map_err(|_| NoMemory)
    }

    /// The space of the points that are in both, or None where there is none.
    fn intersection(&self, alloc: Global, other: &Space) -> Result<Option<Space>, AllocError>
        ensures some { IfOk result (λ found. IsSome found ↔ Meet self.now other.now) }
        ensures points { IfOk result (λ found. IfSome found (λ s. (p : ℕ) →
            has_point s p ≡ (has_point self.now p && has_point other.now p))) }
    {
        let _ = self.size();
        let shared = overlaps(alloc, self.intervals(), other.intervals())?;
        if shared.is_empty() {
            return Ok(None);
        }
        Ok(Some(Space::copy_of(alloc, &shared)?))
    }

    /// The index of the interval that has this point.
    fn place_of(&self, p: u32) -> Option<usize>
        ensures in_space { is_some result ≡ has_point self.now p }
        ensures within { IfSome result (λ k. k < length self.now) }
        ensures has { IfSome result (HoldsAt (λ i. interval_has i p ≡ true) self.now) }
    {
        let intervals = self.intervals();
        let k = count_below(intervals, p);
        if k < intervals.len() && intervals[k].0 <= p {
            Some(k)
        } else {
            None
        }
    }
}

/// How many of these intervals end below this number.
fn count_below(intervals: &[(u32, u32)], p: u32) -> usize
    requires { IsSpace intervals.now }
    ensures bound { result ≤ length intervals.now }
    ensures place { IsPartitionPoint (λ (i : ℕ × ℕ). i.1 < p) (λ i. p ≤ i.1) intervals.now result }
{
    intervals.partition_point(|interval| interval.1 < p)
}

/// How many of these ranks, which do not fall, are this number or below.
fn count_up_to(ranks: &[u32], r: u32) -> usize
    requires { IsNonDecreasing ranks.now }
    ensures bound { result ≤ length ranks.now }
    ensures place { IsPartitionPoint (λ x. x ≤ r) (λ x. r < x) ranks.now result }
{
    ranks.partition_point(|rank| *rank <= r)
}
