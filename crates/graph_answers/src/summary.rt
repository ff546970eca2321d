//! The line that sums up how a graph that was made ran.

ghost use Rattle.std.specs.Prelude.{◌≡◌, ◌++◌, count_by, sum, decimal, flat_map};
ghost use Rattle.graph_meaning.specs.Effect.{wrapped};
ghost use Rattle.realm_io.specs.Written.{Writes};
ghost use Rattle.graph_answers.specs.Texts.{same_end, cell_sum, made_text};

use graph_model::graph::Graph;
use graph_terms::outcome::{End, Outcome};
use index_spaces::column::Column;
use realm_io::{Sink, WriteFault, put_bytes, put_decimal};

/// Whether two ends are one.
fn same_end(one: End, other: End) -> bool
    ensures { result ≡ same_end one other }
{
    match (one, other) {
        (End::Done, End::Done) => true,
        (End::Faulted, End::Faulted) => true,
        (End::Cancelled, End::Cancelled) => true,
        (End::Waiting, End::Waiting) => true,
        _ => false,
    }
}

/// How many of these ends are this one.
fn ended_so(ends: &[End], end: End) -> u64
    ensures { result ≡ count_by (same_end end) ends.now }
{
    let mut count = 0;
    for found in ends {
        if same_end(end, *found) {
            count += 1;
        }
    }
    count
}

/// The sum of the cells of a column, modulo 2^64.
fn column_sum(column: &Column) -> u64
    ensures { result ≡ wrapped (sum column.now.cells) }
{
    let mut so_far: u64 = 0;
    for rank in 0..column.space().size() {
        so_far = so_far.wrapping_add(column.at(rank as u32));
    }
    so_far
}

/// The sum of the cells of all columns, modulo 2^64.
fn cell_sum(columns: &[Column]) -> u64
    ensures { result ≡ cell_sum columns.now }
{
    let mut so_far: u64 = 0;
    for column in columns {
        so_far = so_far.wrapping_add(column_sum(column));
    }
    so_far
}

/// The sum of all cells of an outcome, modulo 2^64.
fn total(outcome: &Outcome) -> u64
    ensures { result ≡ cell_sum outcome.now.columns }
{
    cell_sum(outcome.columns.items.as_slice())
}

/// Words with their spaces, and the number behind them.
#[derive(Clone, Copy)]
struct Count {
    words: &'static [u8],
    number: u64,
}

/// Writes words and numbers.
fn put_counts<K: Sink>(sink: &mut K, counts: &[Count]) -> Result<(), WriteFault>
    ensures { Writes (K.state sink.old) (K.state sink.new) result (flat_map (λ (c : Count). c.words.now ++ decimal c.number) counts.now) }
{
    for count in counts {
        put_count(sink, count)?;
    }
    Ok(())
}

/// Writes words and the number behind them.
fn put_count<K: Sink>(sink: &mut K, count: &Count) -> Result<(), WriteFault>
    ensures { Writes (K.state sink.old) (K.state sink.new) result (count.now.words.now ++ decimal count.now.number) }
{
    put_bytes(sink, count.words)?;
    put_decimal(sink, count.number)
}

/// A number with words.
fn counted(words: &'static [u8], number: u64) -> Count
    ensures words { result.words.now ≡ words.now }
    ensures number { result.number ≡ number }
{
    Count { words, number }
}

/// How many lines ended so, with words.
fn ended(words: &'static [u8], outcome: &Outcome, end: End) -> Count
    ensures words { result.words.now ≡ words.now }
    ensures number { result.number ≡ count_by (same_end end) outcome.now.ends }
{
    counted(words, ended_so(outcome.ends.items.as_slice(), end))
}

/// Writes the line that sums up the outcome of a graph that was made.
pub fn put_summary<K: Sink>(
    sink: &mut K,
    graph: &Graph,
    outcome: &Outcome,
) -> Result<(), WriteFault>
    ensures { Writes (K.state sink.old) (K.state sink.new) result (made_text graph.now outcome.now) }
{
    put_counts(
        sink,
        &[
            counted(b"made ops ", u64::from(graph.lines())),
            ended(b" done ", outcome, End::Done),
            ended(b" faulted ", outcome, End::Faulted),
            ended(b" cancelled ", outcome, End::Cancelled),
            ended(b" waiting ", outcome, End::Waiting),
            counted(b" sum ", total(outcome)),
        ],
    )?;
    put_bytes(sink, b"\n")
}
