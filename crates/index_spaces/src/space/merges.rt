//! Two lists of ascending intervals, gone through side by side.

ghost use Rattle.std.specs.Prelude.{◌≡◌, ◌≤◌, ◌↔◌, ℕ, ◌&&◌, IsTrue, IfOk};
ghost use Rattle.index_spaces.specs.Space.{has_point, space_size, AscendAbove, IsSpace, Meet, IsWithin};

use std::alloc::{AllocError, Global};

/// Whether each point of the inner intervals lies in the outer ones.
pub(crate) fn covers(outer: &[(u32, u32)], inner: &[(u32, u32)]) -> bool
    requires outer { IsSpace outer.now }
    requires inner { IsSpace inner.now }
    ensures { IsTrue result ↔ IsWithin inner.now outer.now }
{
    let mut a = 0;
    let mut b = 0;
    while a < inner.len() && b < outer.len() {
        if outer[b].1 < inner[a].0 {
            b += 1;
        } else if outer[b].0 <= inner[a].0 && inner[a].1 <= outer[b].1 {
            a += 1;
        } else {
            return false;
        }
    }
    a == inner.len()
}

/// Whether some point lies in both.
pub(crate) fn meet(first: &[(u32, u32)], second: &[(u32, u32)]) -> bool
    requires first { IsSpace first.now }
    requires second { IsSpace second.now }
    ensures { IsTrue result ↔ Meet first.now second.now }
{
    let mut a = 0;
    let mut b = 0;
    while a < first.len() && b < second.len() {
        if first[a].0 <= second[b].1 && second[b].0 <= first[a].1 {
            return true;
        }
        if first[a].1 < second[b].1 {
            a += 1;
        } else {
            b += 1;
        }
    }
    false
}

/// The intervals of the points that lie in both.
pub(crate) fn overlaps(
    alloc: Global,
    first: &[(u32, u32)],
    second: &[(u32, u32)],
) -> Result<Vec<(u32, u32)>, AllocError>
    requires first { IsSpace first.now }
    requires second { IsSpace second.now }
    ensures points { IfOk result (λ v. (p : ℕ) →
        has_point v.items p ≡ (has_point first.now p && has_point second.now p)) }
    ensures ascending { IfOk result (λ v. AscendAbove 0 v.items) }
    ensures few { IfOk result (λ v. space_size v.items ≤ space_size first.now) }
{
    let mut shared = Vec::new(alloc);
    let mut a = 0;
    let mut b = 0;
    while a < first.len() && b < second.len() {
        let low = first[a].0.max(second[b].0);
        let high = first[a].1.min(second[b].1);
        if low <= high {
            shared.push((low, high))?;
        }
        if first[a].1 < second[b].1 {
            a += 1;
        } else {
            b += 1;
        }
    }
    Ok(shared)
}
