//! Outcomes that are compared.

use graph_terms::outcome::{End, Outcome};
use index_spaces::column::ColumnView;

/// Whether two columns have the same cells, by their ranks.
fn has_same_cells(one: &ColumnView<'_>, other: &ColumnView<'_>) -> bool {
    let mut points = one.space().intervals().iter();
    one.space().intervals() == other.space().intervals()
        && points.all(|interval| {
            let (low, high) = *interval;
            (low..=high).all(|p| one.get(p) == other.get(p))
        })
}

/// Whether two outcomes have the same columns.
fn has_same_columns(one: &Outcome, other: &Outcome) -> bool {
    let mut pairs = one.columns.items.iter().zip(other.columns.items.iter());
    one.columns.len() == other.columns.len()
        && pairs.all(|(a, b)| has_same_cells(&a.view(), &b.view()))
}

/// Whether the trace has just so many lines, each line that ended among them.
pub(crate) fn has_trace(outcome: &Outcome, ended: u32) -> bool {
    let trace = outcome.trace.items.as_slice();
    let mut ends = outcome.ends.items.iter().zip(0..);
    outcome.trace.len() == ended
        && ends.all(|(end, line)| *end == End::Waiting || trace.contains(&line))
}

/// Whether two outcomes are the same but for the order of their traces.
pub(crate) fn is_same(one: &Outcome, other: &Outcome) -> bool {
    one.ends.items.as_slice() == other.ends.items.as_slice()
        && one.answers.items.as_slice() == other.answers.items.as_slice()
        && one.phases.items.as_slice() == other.phases.items.as_slice()
        && has_same_columns(one, other)
        && has_trace(one, other.trace.len())
}
