//! The points of a class of spaces.

ghost use Rattle.std.specs.Prelude.{◌≡◌, ℕ, ◌<◌, length, Contains, IfOk, MatchOption, IsTrue};
ghost use Rattle.space_classes.specs.declared.classes.Span.{Span};
ghost use Rattle.space_classes.specs.Classes.{values, label, IsUnion, IsAlone, CoversClass};
ghost use Rattle.space_classes.specs.Points.{ArePoints, class_intervals};
ghost use Rattle.space_classes.specs.Spans.{HasClasses};

use crate::classes::{SpaceClasses, Span};
use index_spaces::NoMemory;
use index_spaces::room::push;
use index_spaces::space::Space;
use space_unions::space_of_sorted;
use std::alloc::Global;

/// The points of a class.
#[derive(Drop)]
pub enum ClassPoints {
    /// Those of one of its spaces, by its place.
    Space(usize),
    /// Those of all together. None of them has all.
    Union(Space),
}

/// The points of the class of the space at a place.
pub fn points_of(
    alloc: Global,
    spaces: &[&Space],
    classes: &SpaceClasses,
    k: usize,
) -> Result<ClassPoints, NoMemory>
    requires classes { HasClasses (values spaces.now) classes.now }
    requires place { k < length spaces.now }
    ensures { IfOk result (λ x. ArePoints (values spaces.now) classes.now.labels.items k x) }
{
    if is_alone(&classes.labels, k) {
        return Ok(ClassPoints::Space(k));
    }
    let union = union_of(alloc, spaces, classes, k)?;
    match covering(spaces, &classes.labels, k, &union) {
        Some(j) => Ok(ClassPoints::Space(j)),
        None => Ok(ClassPoints::Union(union)),
    }
}

/// Whether a class has no other space than that at a place.
fn is_alone(labels: &[usize], k: usize) -> bool
    requires { k < length labels.now }
    ensures { IsTrue result → IsAlone labels.now k }
{
    let own = labels[k];
    for j in 0..labels.len() {
        if labels[j] == own && j != k {
            return false;
        }
    }
    true
}

/// The points of all spaces of a class.
fn union_of(
    alloc: Global,
    spaces: &[&Space],
    classes: &SpaceClasses,
    k: usize,
) -> Result<Space, NoMemory>
    requires classes { HasClasses (values spaces.now) classes.now }
    requires place { k < length spaces.now }
    ensures { IfOk result (λ u. IsUnion (values spaces.now) classes.now.labels.items k u) }
{
    let _ = spaces[k].intervals();
    let intervals = intervals_of(alloc, &classes.spans, &classes.labels, k)?;
    space_of_sorted(alloc, &intervals)
}

/// The intervals of the spaces of a class, by their first points.
fn intervals_of(
    alloc: Global,
    spans: &[Span],
    labels: &[usize],
    k: usize,
) -> Result<Vec<(u32, u32)>, NoMemory>
    requires place { k < length labels.now }
    requires owners { (x : Span) → Contains spans.now x → x.owner < length labels.now }
    ensures { IfOk result (λ v. v.items ≡ class_intervals labels.now (label labels.now k) spans.now) }
{
    let own = labels[k];
    let mut intervals = Vec::new(alloc);
    for span in spans {
        if labels[span.owner] == own {
            push(&mut intervals, (span.first, span.last))?;
        }
    }
    Ok(intervals)
}

/// The place of a space of a class that has all points of a union.
fn covering(spaces: &[&Space], labels: &[usize], k: usize, union: &Space) -> Option<usize>
    requires count { length labels.now ≡ length spaces.now }
    requires place { k < length spaces.now }
    ensures { MatchOption result ((j : ℕ) → CoversClass (values spaces.now) labels.now k union.now j → ⊥) (CoversClass (values spaces.now) labels.now k union.now) }
{
    let own = labels[k];
    for j in 0..spaces.len() {
        if labels[j] == own && union.is_within(spaces[j]) {
            return Some(j);
        }
    }
    None
}
