//! The labels of classes, found in one pass over the intervals of spaces.

ghost use Rattle.std.specs.Prelude.{◌≡◌, ℕ, ◌<◌, length, IfOk};
ghost use Rattle.std.specs.List.Sorted.{IsNonDecreasingBy};
ghost use Rattle.space_classes.specs.Classes.{values, label, AreClasses};
ghost use Rattle.space_classes.specs.Spans.{first_of, AreSpans};
ghost use Rattle.space_classes.specs.Sweep.{Joins, IsFurther, Meets, IsRelabelled};

use crate::classes::Span;
use index_spaces::NoMemory;
use index_spaces::room::{filled, push, with_room};
use index_spaces::space::Space;
use std::alloc::Global;

/// For each space the label of its class.
pub(crate) fn labels_of(
    alloc: Global,
    spaces: &[&Space],
    spans: &[Span],
) -> Result<Vec<usize>, NoMemory>
    requires spans { AreSpans (values spaces.now) spans.now }
    requires sorted { IsNonDecreasingBy first_of spans.now }
    ensures { IfOk result (λ v. AreClasses (values spaces.now) v.items) }
{
    let mut labels = own_labels(alloc, spaces.len())?;
    let mut seen = filled(alloc, false, spaces.len())?;
    // The place of the interval that reaches the furthest of those before.
    let mut furthest = 0;
    for n in 0..spans.len() {
        let span = spans[n];
        let far = spans[furthest];
        meet(&mut labels, seen[span.owner], span, far);
        seen[span.owner] = true;
        furthest = further(span, far, n, furthest);
    }
    Ok(labels)
}

/// The place of that of two intervals which reaches further.
fn further(span: Span, far: Span, n: usize, furthest: usize) -> usize
    ensures { IsFurther span far n furthest result }
{
    if span.last > far.last { n } else { furthest }
}

/// Puts the class of an interval into that of the furthest one before, where they have a point in common.
fn meet(labels: &mut Vec<usize>, seen: bool, span: Span, far: Span)
    requires span { span.owner < length labels.old.items }
    requires far { far.owner < length labels.old.items }
    ensures { Meets seen span far labels.old.items labels.new.items }
{
    if span.first <= far.last {
        join(labels, seen, span.owner, far.owner);
    }
}

/// A label of its own for each space.
fn own_labels(alloc: Global, count: usize) -> Result<Vec<usize>, NoMemory>
    ensures count { IfOk result (λ v. length v.items ≡ count) }
    ensures own { IfOk result (λ v. (k : ℕ) → k < count → label v.items k ≡ k) }
{
    let mut labels = with_room(alloc, count)?;
    for k in 0..count {
        push(&mut labels, k)?;
    }
    Ok(labels)
}

/// Puts the class of a space into that of another. Where no interval of it was seen, no other is in its
/// class.
fn join(labels: &mut Vec<usize>, seen: bool, space: usize, other: usize)
    requires space { space < length labels.old.items }
    requires other { other < length labels.old.items }
    ensures { Joins seen space other labels.old.items labels.new.items }
{
    let from = labels[space];
    let to = labels[other];
    if from == to {
        return;
    }
    if seen {
        relabel(labels, from, to);
    } else {
        labels[space] = to;
    }
}

/// Puts one label in place of another.
fn relabel(labels: &mut Vec<usize>, from: usize, to: usize)
    ensures { IsRelabelled from to labels.old.items labels.new.items }
{
    for k in 0..labels.len() {
        if labels[k] == from {
            labels[k] = to;
        }
    }
}
