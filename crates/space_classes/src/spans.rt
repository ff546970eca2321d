//! The intervals of some spaces, each with its space.

ghost use Rattle.std.specs.Prelude.{◌≡◌, ◌++◌, map, IfOk, OnOk};
ghost use Rattle.std.specs.List.Sorted.{IsNonDecreasingBy};
ghost use Rattle.space_classes.specs.Classes.{values};
ghost use Rattle.space_classes.specs.Spans.{first_of, span_of, AreSpans};

use crate::classes::Span;
use index_spaces::NoMemory;
use index_spaces::room::push;
use index_spaces::space::Space;
use std::alloc::Global;

/// The intervals of these spaces, by their first points.
pub(crate) fn sorted_spans(alloc: Global, spaces: &[&Space]) -> Result<Vec<Span>, NoMemory>
    ensures spans { IfOk result (λ v. AreSpans (values spaces.now) v.items) }
    ensures sorted { IfOk result (λ v. IsNonDecreasingBy first_of v.items) }
{
    let mut spans = spans_of(alloc, spaces)?;
    spans.sort_unstable_by_key(|span| span.first);
    Ok(spans)
}

/// The intervals of these spaces.
fn spans_of(alloc: Global, spaces: &[&Space]) -> Result<Vec<Span>, NoMemory>
    ensures { IfOk result (λ v. AreSpans (values spaces.now) v.items) }
{
    let mut spans = Vec::new(alloc);
    for k in 0..spaces.len() {
        let space = spaces[k];
        let _ = space.intervals();
        add_spans(&mut spans, space, k)?;
    }
    Ok(spans)
}

/// Puts the intervals of a space at the end.
fn add_spans(spans: &mut Vec<Span>, space: &Space, owner: usize) -> Result<(), NoMemory>
    ensures { OnOk result (spans.new.items ≡ spans.old.items ++ map (span_of owner) space.now) }
{
    let intervals = space.intervals();
    for interval in intervals {
        push(
            spans,
            Span {
                first: interval.0,
                last: interval.1,
                owner,
            },
        )?;
    }
    Ok(())
}
