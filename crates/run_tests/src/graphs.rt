//! Graphs of the tests of runs.

use graph_reader::read_graph;
use race_check::check;
use race_check::checked::Checked;
use std::alloc::Global;
use std::test::Fail;
use test_texts::graphs::{
    CANCELLED_BARRIER, EMPTY, FAULTY_PATHS, KERNELS, LOCKED_SUMS, MISSING_WEIGHT, NINE_WAITERS,
    NO_TRIGGER, ONE_SHARED_SUM, READER_AND_SUM, READERS_AND_WRITER, SECTION_WITHOUT_RESERVATION,
    TWO_SECTIONS, TWO_SHARED_SECTIONS, WAITER_ABOVE_TRIGGER, WEIGHTED_ARRIVALS,
};

/// Texts of graphs that are run in words.
pub(crate) const TEXTS: [&str; 16] = [
    EMPTY,
    WAITER_ABOVE_TRIGGER,
    FAULTY_PATHS,
    CANCELLED_BARRIER,
    NO_TRIGGER,
    KERNELS,
    LOCKED_SUMS,
    ONE_SHARED_SUM,
    READER_AND_SUM,
    READERS_AND_WRITER,
    SECTION_WITHOUT_RESERVATION,
    TWO_SECTIONS,
    TWO_SHARED_SECTIONS,
    NINE_WAITERS,
    WEIGHTED_ARRIVALS,
    MISSING_WEIGHT,
];

/// The graph of a text, where it is accepted.
pub(crate) fn checked(alloc: Global, text: &str) -> Result<Checked, Fail> {
    match check(alloc, read_graph(alloc, text.as_bytes())?) {
        Ok(checked) => Ok(checked),
        Err(_) => Err("refused".into()),
    }
}
