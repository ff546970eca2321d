//! The ends of spaces.

ghost use Rattle.std.specs.Prelude.{◌≡◌, ◌||◌, nat_lt};
ghost use Rattle.flow_order.specs.Ends.{AreEnds, are_apart};

use index_spaces::space::Space;

/// The least and the greatest point of a space.
#[derive(Clone, Copy)]
pub(crate) struct Ends {
    low: u32,
    high: u32,
}

/// The ends of a space.
pub(crate) fn ends_of(space: &Space) -> Ends
    ensures { AreEnds space.now result }
{
    let mut low = u32::MAX;
    let mut high: u32 = 0;
    for interval in space.intervals() {
        low = low.min(interval.0);
        high = high.max(interval.1);
    }
    Ends { low, high }
}

/// Whether one space ends before the other begins.
pub(crate) fn are_apart(one: Ends, other: Ends) -> bool
    ensures { result ≡ are_apart one other }
{
    one.high < other.low || other.high < one.low
}
