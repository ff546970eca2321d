//! Spaces at small values, and at the limits.

ghost use Rattle.std.specs.Prelude.{◌<◌, ◌≤◌, ◌^◌, length};

use index_spaces::limits::SpaceLimits;
use index_spaces::space::{Space, SpaceFault};
use std::alloc::Global;
use std::test::Fail;

/// Why these pairs make no space, if they do not.
fn refusal(alloc: Global, pairs: &[(u32, u32)]) -> Option<SpaceFault>
    requires { length pairs.now < 2 ^ 32 }
{
    Space::new(alloc, pairs).err()
}

/// The most intervals and points of a space in format 3.
const THREE: SpaceLimits = SpaceLimits {
    intervals: 4_096,
    points: 4_294_967_296,
};

/// Limits of no format.
const OWN: SpaceLimits = SpaceLimits {
    intervals: 1,
    points: 3,
};

/// Why these pairs make no space within limits, if they do not.
fn refusal_within(alloc: Global, limits: SpaceLimits, pairs: &[(u32, u32)]) -> Option<SpaceFault>
    requires few { length pairs.now < 2 ^ 32 }
    requires most { limits.points ≤ 4294967296 }
{
    Space::within(alloc, limits, pairs).err()
}

#[test]
fn refusals(rt: HostRuntime) {
    let alloc = rt.alloc();
    let mut most = [(0, 0); 64];
    let mut many = [(256, 257); 65];
    for k in 0..64 {
        most[k] = (4 * k as u32, 4 * k as u32 + 1);
        many[k] = most[k];
    }
    for (got, want) in [
        (refusal(alloc, &[]), Some(SpaceFault::Empty)),
        (refusal(alloc, &[(5, 4)]), Some(SpaceFault::Reversed(0))),
        (
            refusal(alloc, &[(0, 3), (4, 5)]),
            Some(SpaceFault::Order(1)),
        ),
        (
            refusal(alloc, &[(0, 3), (4, 2)]),
            Some(SpaceFault::Reversed(1)),
        ),
        (refusal(alloc, &[(0, 1_048_576)]), Some(SpaceFault::Large)),
        (refusal(alloc, &[(0, 1_048_575)]), None),
        (
            refusal(alloc, &[(0, 0), (2, u32::MAX)]),
            Some(SpaceFault::Large),
        ),
        (refusal(alloc, &many), Some(SpaceFault::Many)),
        (refusal(alloc, &most), None),
    ] {
        assert_eq!(rt; got, want);
    }
}

#[test]
fn refusals_within_limits(rt: HostRuntime) {
    let alloc = rt.alloc();
    let mut most = [(0, 0); 4_096];
    let mut many = [(16_384, 16_385); 4_097];
    for k in 0..4_096 {
        most[k] = (4 * k as u32, 4 * k as u32 + 1);
        many[k] = most[k];
    }
    for (got, want) in [
        (refusal_within(alloc, THREE, &[(0, u32::MAX)]), None),
        (refusal_within(alloc, THREE, &most), None),
        (refusal_within(alloc, THREE, &many), Some(SpaceFault::Many)),
        (refusal_within(alloc, OWN, &[(0, 2)]), None),
        (
            refusal_within(alloc, OWN, &[(0, 3)]),
            Some(SpaceFault::Large),
        ),
        (
            refusal_within(alloc, OWN, &[(0, 0), (2, 2)]),
            Some(SpaceFault::Many),
        ),
    ] {
        assert_eq!(rt; got, want);
    }
}

#[test]
fn all_points(rt: HostRuntime) -> Result<(), Fail> {
    let alloc = rt.alloc();
    let space = Space::within(alloc, THREE, &[(0, u32::MAX)])?;
    assert_eq!(rt; space.size(), 4_294_967_296);
    assert_eq!(rt; space.rank(u32::MAX), Some(4_294_967_295));
    assert_eq!(rt; space.point(4_294_967_295), 4_294_967_295);
    Ok(())
}

#[test]
fn points(rt: HostRuntime) -> Result<(), Fail> {
    let alloc = rt.alloc();
    let space = Space::new(alloc, &[(0, 3), (8, 11)])?;
    assert_eq!(rt; space.size(), 8);
    assert_eq!(rt; space.rank(9), Some(5));
    assert_eq!(rt; space.rank(5), None);
    assert_eq!(rt; space.point(4), 8);
    assert!(rt; space.contains(11));
    assert!(rt; !space.contains(12));
    assert_eq!(rt; Space::new(alloc, &[(0, 1_048_575)])?.size(), 1_048_576);
    Ok(())
}

#[test]
fn relations(rt: HostRuntime) -> Result<(), Fail> {
    let alloc = rt.alloc();
    let space = Space::new(alloc, &[(0, 3), (8, 11)])?;
    let across = Space::new(alloc, &[(2, 9)])?;
    let between = Space::new(alloc, &[(4, 7)])?;
    assert!(rt; space.meets(&across));
    assert!(rt; !space.meets(&between));
    assert!(rt; between.is_within(&across));
    assert!(rt; !across.is_within(&space));
    assert!(rt; space.both(alloc, &between)?.is_none());
    let both = space.both(alloc, &across)?.ok_or("none")?;
    assert_eq!(rt; both.intervals(), [(2, 3), (8, 9)].as_slice());
    Ok(())
}
