//! What is wrong with pairs that make no space.

ghost use Rattle.std.specs.Prelude.{◌≡◌, ◌<◌, ◌≤◌, ◌^◌, length, IfNone};
ghost use Rattle.index_spaces.specs.Space.{space_size, AscendAbove, IsSpace};
ghost use Rattle.index_spaces.specs.SpaceFault.{first_misplaced, space_fault_in};

use crate::limits::SpaceLimits;
use crate::space::SpaceFault;

/// The first reason that these pairs make no space within these limits.
pub(crate) fn fault_of(limits: SpaceLimits, pairs: &[(u32, u32)]) -> Option<SpaceFault>
    requires { length pairs.now < 2 ^ 32 }
    ensures first { result ≡ space_fault_in limits pairs.now }
    ensures is_space { IfNone result (IsSpace pairs.now) }
    ensures few { IfNone result (space_size pairs.now ≤ limits.points) }
{
    if pairs.is_empty() {
        return Some(SpaceFault::Empty);
    }
    if let Some(fault) = misplaced(pairs) {
        return Some(fault);
    }
    if pairs.len() > limits.intervals as usize {
        return Some(SpaceFault::Many);
    }
    (point_count(pairs) > limits.points).then_some(SpaceFault::Large)
}

/// The first pair that is reversed, or that does not begin at least two above the one before.
fn misplaced(pairs: &[(u32, u32)]) -> Option<SpaceFault>
    requires { length pairs.now < 2 ^ 32 }
    ensures first { result ≡ first_misplaced 0 0 pairs.now }
    ensures ascending { IfNone result (AscendAbove 0 pairs.now) }
{
    let mut low = 0u64;
    for (k, pair) in pairs.iter().enumerate() {
        if pair.1 < pair.0 {
            return Some(SpaceFault::Reversed(k as u32));
        }
        if u64::from(pair.0) < low {
            return Some(SpaceFault::Order(k as u32));
        }
        low = u64::from(pair.1) + 2;
    }
    None
}

/// How many points these intervals have.
fn point_count(intervals: &[(u32, u32)]) -> u64
    requires ascending { AscendAbove 0 intervals.now }
    requires few { length intervals.now < 2 ^ 32 }
    ensures { result ≡ space_size intervals.now }
{
    let mut count = 0u64;
    for interval in intervals {
        count += u64::from(interval.1 - interval.0) + 1;
    }
    count
}
